// The edits of a segment, checked one after the other. The check also answers what they come to, so that nothing is written before all is known.
ghost use Rattle.std.specs.Prelude.{◌≡◌, true, ◌+◌, ◌-◌, ◌<◌, ◌≤◌, length};
ghost use Rattle.writing.specs.Decimal.{decimal};
ghost use Rattle.edits.specs.Edits.{taken_by};
ghost use Rattle.edits.specs.Code.Runs.{substitutes_only};
ghost use Rattle.edits.specs.Lengths.{most_read, most_edits, most_ecigar};
ghost use Rattle.edits.specs.declared.flank.Flank.TheVariants.{Before};
ghost use Rattle.ecigar.specs.Table90.{print_all};
ghost use Rattle.ecigar.specs.Ecigar.{open_run, matches, gap};
ghost use Rattle.ecigar.specs.Check.{complete, piece_checked, edits_checked, check_of, check_piece};
ghost use Rattle.ecigar.specs.Code.Tally.{start_tally_at, text_by, tallied, after_last, walked};

use crate::walk::{Walk, advance, joins};
use edits::edit::{Edit, edit_at, substitutes, substitution_at, width};
use edits::flank::Flank;
use edits::{Block, Run};
use refusal::Refusal;
use writing::decimal::decimal_len;

// What the check keeps from edit to edit: the walk, the reference positions taken, and the length of the text so far.
#[derive(Clone, Copy)]
pub struct Tally {
    pub walk: Walk,
    pub taken: u32,
    pub text: u32,
}

// What a segment's edits come to: the reference positions taken and the length of the text without clips.
#[derive(Clone, Copy)]
pub struct Extent {
    pub taken: u32,
    pub text: u32,
}

impl Tally {
    pub(crate) fn start_at(from: u32) -> Tally
        ensures { result ≡ start_tally_at from }
    {
        let walk = Walk::start_at(from);
        Tally {
            walk,
            taken: 0,
            text: 0,
        }
    }
}

// A count and its sign.
pub(crate) fn count_len(n: u32) -> u32
    ensures { (result ≡ length (decimal n) + 1) × (result ≤ 11) }
{
    decimal_len(n) as u32 + 1
}

fn matches_len(n: u32) -> u32
    ensures { (result ≡ length (print_all (matches n))) × (result ≤ 11) }
{
    if n == 0 {
        return 0;
    }
    count_len(n)
}

fn closed_len(w: Walk) -> u32
    ensures { (result ≡ length (print_all (open_run w))) × (result ≤ 11) }
{
    if w.kind == Edit::INSERTION {
        return count_len(w.run);
    }
    if w.kind == Edit::DELETION {
        return count_len(w.run);
    }
    0
}

fn gap_len(w: Walk, e: Edit) -> u32
    requires { w.next ≤ e.offset }
    ensures { (result ≡ length (print_all (gap w e))) × (result ≤ 22) }
{
    if joins(w, e) {
        return 0;
    }
    closed_len(w) + matches_len(e.offset as u32 - w.next)
}

// The characters that an edit adds.
fn text_by(w: Walk, e: Edit) -> u32
    requires { w.next ≤ e.offset }
    ensures { (result ≡ text_by w e) × (result ≤ 23) }
{
    let before = gap_len(w, e);
    if e.kind == Edit::SUBSTITUTION {
        return before + 1;
    }
    before
}

// The reference positions that an edit takes: an insertion takes none of its own.
fn taken_by(next: u32, e: Edit) -> u32
    requires { next ≤ e.offset }
    ensures { (result ≡ taken_by next e) × (result ≤ e.offset + 1) }
{
    let matched = e.offset as u32 - next;
    if e.kind == Edit::INSERTION {
        return matched;
    }
    matched + 1
}

// The tally after one more edit.
fn take_edit(t: Tally, e: Edit) -> Tally
    requires { (t.walk.next ≤ e.offset) × ((t.walk.run < most_edits) × ((t.taken ≤ most_read + most_edits) × (t.text ≤ most_ecigar))) }
    ensures { result ≡ tallied t e }
{
    let w = t.walk;
    let took = taken_by(w.next, e);
    let added = text_by(w, e);
    let next = advance(w, e);
    Tally {
        walk: next,
        taken: t.taken + took,
        text: t.text + added,
    }
}

// The tally after the last edit.
fn finish(t: Tally, mapped: u32) -> Extent
    requires { (t.walk.next ≤ mapped) × ((mapped ≤ most_read) × ((t.taken ≤ most_read + most_edits) × (t.text ≤ most_ecigar))) }
    ensures { result ≡ after_last mapped t }
{
    let w = t.walk;
    let rest = mapped - w.next;
    let last = closed_len(w) + matches_len(rest);
    Extent {
        taken: t.taken + rest,
        text: t.text + last,
    }
}

// Refusal 2 where the frame ends before so many bytes from a place on. Two tests, since the sum may not fit.
fn complete(frame: &[u8], at: usize, bytes: usize) -> Result<(), Refusal>
    ensures { result ≡ complete frame.now at bytes }
{
    let all = frame.len();
    if all < bytes {
        return Err(Refusal::Misframed);
    }
    if all - bytes < at {
        return Err(Refusal::Misframed);
    }
    Ok(())
}

// Each edit of a run where it stands: complete, then accepted. The tally begins at offset `from`, and what is kept of the deletions with none.
#[inline(always)]
fn walk_edits(
    frame: &[u8],
    class: u32,
    alphabet: u32,
    from: u32,
    run: Run,
) -> Result<(Tally, Flank), Refusal>
    requires { (run.edits ≤ most_edits) × ((run.mapped ≤ most_read) × (from ≤ run.mapped)) }
    ensures { result ≡ walked class alphabet frame.now run.mapped run.edits run.edits_at (start_tally_at from) Before }
{
    let step = width(class);
    let symbols = alphabet::size(alphabet);
    let mut t = Tally::start_at(from);
    let mut flank = Flank::Before;
    let mut at = run.edits_at;
    for _ in 0..run.edits {
        complete(frame, at, step)?;
        let e = edit_at(frame, class, alphabet, at);
        let w = t.walk;
        e.check(w.next, run.mapped, symbols)?;
        flank = flank.past(w.next, e);
        t = take_edit(t, e);
        at += step;
    }
    Ok((t, flank))
}

// The edits of a whole read, and behind the last all of them together: each of its deletions is flanked, or 12.
fn check_edits(frame: &[u8], class: u32, alphabet: u32, run: Run) -> Result<Extent, Refusal>
    requires { (run.edits ≤ most_edits) × (run.mapped ≤ most_read) }
    ensures { result ≡ edits_checked class alphabet frame.now run.edits_at run.edits run.mapped }
{
    let (t, flank) = walk_edits(frame, class, alphabet, 0, run)?;
    flank.check(t.walk.next, run.mapped)?;
    Ok(finish(t, run.mapped))
}

// The edits of a piece of a read. Its first base stands at offset `from`, and behind its last is `run.mapped`. Its deletions are not looked at together: that is the whole read's.
fn check_piece_edits(
    frame: &[u8],
    class: u32,
    alphabet: u32,
    from: u32,
    run: Run,
) -> Result<Extent, Refusal>
    requires { (run.edits ≤ most_edits) × ((run.mapped ≤ most_read) × (from ≤ run.mapped)) }
    ensures { result ≡ piece_checked class alphabet frame.now from run.edits_at run.edits run.mapped }
{
    let (t, _) = walk_edits(frame, class, alphabet, from, run)?;
    Ok(finish(t, run.mapped))
}

// The same of a whole read where every edit is a substitution: no run is ever open, each edit takes the reference position of its base, and there is no deletion. A walk of its own for speed (docs/BENCHMARK.md).
fn check_substitutions(frame: &[u8], class: u32, alphabet: u32, run: Run) -> Result<Extent, Refusal>
    requires { (substitutes_only class ≡ true) × (run.mapped ≤ most_read) }
    ensures { result ≡ piece_checked class alphabet frame.now 0 run.edits_at run.edits run.mapped }
{
    let step = width(class);
    let symbols = alphabet::size(alphabet);
    let mut next: u32 = 0;
    let mut text: u32 = 0;
    let mut at = run.edits_at;
    for _ in 0..run.edits {
        complete(frame, at, step)?;
        let e = substitution_at(frame, class, alphabet, at);
        e.check(next, run.mapped, symbols)?;
        let offset = e.offset as u32;
        text = text + matches_len(offset - next) + 1;
        next = offset + 1;
        at += step;
    }
    Ok(Extent {
        taken: run.mapped,
        text: text + matches_len(run.mapped - next),
    })
}

// The edits of a whole read, where they stand in the frame. Two walks, since one for both is slower where all are substitutions (docs/BENCHMARK.md).
pub fn check(frame: &[u8], class: u32, alphabet: u32, run: Run) -> Result<Extent, Refusal>
    ensures { result ≡ check_of class alphabet frame.now run.edits_at run.edits run.mapped }
{
    if Block::EDITS < run.edits {
        return Err(Refusal::FieldOut);
    }
    if Block::READ < run.mapped {
        return Err(Refusal::LengthOut);
    }
    if substitutes(class) {
        return check_substitutions(frame, class, alphabet, run);
    }
    check_edits(frame, class, alphabet, run)
}

// The edits of one piece of a read. Offsets count over the whole read, so the piece says from which offset it goes until which. The limits are tested as in `check`: one function for both tests would be longer than they are, with its contract.
pub fn check_piece(
    frame: &[u8],
    class: u32,
    alphabet: u32,
    from: u32,
    run: Run,
) -> Result<Extent, Refusal>
    ensures { result ≡ check_piece class alphabet frame.now from run.edits_at run.edits run.mapped }
{
    if Block::EDITS < run.edits {
        return Err(Refusal::FieldOut);
    }
    if Block::READ < run.mapped {
        return Err(Refusal::LengthOut);
    }
    if run.mapped < from {
        return Err(Refusal::OffsetOut);
    }
    check_piece_edits(frame, class, alphabet, from, run)
}
