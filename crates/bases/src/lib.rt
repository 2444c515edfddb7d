// A read's bases: pointer R and pointer r of 10.6.1 over the edits of a run, the padding of 10.2.2, and the soft-clipped bases on both sides.
#![tactic(auto)]

mod lent;
pub mod letters;
mod places;

ghost use Rattle.std.specs.Prelude.{◌≡◌, true, ◌++◌, ◌+◌, ◌-◌, ◌*◌, ◌≤◌, length};
ghost use Rattle.writing.specs.Lay.{Laid};
ghost use Rattle.alphabet.specs.Code.Digits.{digits_of};
ghost use Rattle.edits.specs.Edits.{width_of, edit_at, edit_list_at};
ghost use Rattle.edits.specs.Code.Runs.{substitutes_only};
ghost use Rattle.edits.specs.Lengths.{soft_bases};
ghost use Rattle.bases.specs.Reference.{matched_bases, match_refusal};
ghost use Rattle.bases.specs.Bases.{R, r, pointers, edit_bases, bases_from, refusal_from, mapped_bases, reference_refusal, letters_at, bases_text};
ghost use Rattle.bases.specs.Code.Helpers.{farthest};

use crate::lent::{check_match, check_range, put_matched};
use crate::letters::put_letters;
use crate::places::Places;
use alphabet::letter::put_letter;
use edits::edit::{Edit, edit_at, substitutes, substitution_at, width};
use edits::{Block, Run, run_of};
use refusal::Refusal;

// Refusal 10 where a lent byte outside the alphabet stands at one of so many positions.
// This is looked at before the matches one by one, since nearly every reference has no such byte.
pub fn check_positions(
    reference: &[u8],
    first: u32,
    alphabet: u32,
    position: u32,
    n: u32,
) -> Result<(), Refusal>
    ensures { result ≡ match_refusal alphabet reference.now first position n }
{
    check_range(reference, first, alphabet, position as u64, n as u64)
}

// Refusal 10 where a lent byte outside the alphabet stands under a match of a run.
pub fn check_reference(
    reference: &[u8],
    first: u32,
    alphabet: u32,
    position: u32,
    frame: &[u8],
    class: u32,
    run: Run,
) -> Result<(), Refusal>
    requires { run.edits_at + run.edits * width_of class ≤ length frame.now }
    ensures { result ≡ reference_refusal class alphabet frame.now reference.now first position run.mapped run.edits run.edits_at }
{
    check_piece(reference, first, alphabet, position, 0, frame, class, run)
}

// The same of a piece of a read over introns: both pointers begin anew at its position and its start.
pub fn check_piece(
    reference: &[u8],
    first: u32,
    alphabet: u32,
    position: u32,
    start: u32,
    frame: &[u8],
    class: u32,
    run: Run,
) -> Result<(), Refusal>
    requires { run.edits_at + run.edits * width_of class ≤ length frame.now }
    ensures { result ≡ refusal_from alphabet reference.now first run.mapped (pointers position start) (edit_list_at class alphabet frame.now run.edits run.edits_at) }
{
    let step = width(class);
    let mut at = run.edits_at;
    let mut p = Places::at(position, start);
    for _ in 0..run.edits {
        let e = edit_at(frame, class, alphabet, at);
        check_match(reference, first, alphabet, p, e.offset as u32)?;
        p = p.past_edit(e);
        at += step;
    }
    check_match(reference, first, alphabet, p, run.mapped)
}

// The match up to an edit, and the edit's own letter.
fn put_edit(
    out: &mut [u8],
    at: usize,
    reference: &[u8],
    first: u32,
    alphabet: u32,
    table: &[u8; alphabet::DIGITS],
    p: Places,
    e: Edit,
) -> usize
    requires table_value { table.now ≡ digits_of alphabet }
    requires p_bound { R p ≤ farthest }
    requires e_in_bounds { at + 2 * length (matched_bases alphabet reference.now first (R p) (e.offset - r p) ++ edit_bases alphabet e) ≤ length out.old }
    ensures { Laid out.old out.new at result (matched_bases alphabet reference.now first (R p) (e.offset - r p) ++ edit_bases alphabet e) }
{
    let next = put_matched(out, at, reference, first, alphabet, p, e.offset as u32);
    if e.kind == Edit::DELETION {
        return next;
    }
    put_letter(out, next, table, e.symbol)
}

// The edit at a place of the frame. In the walk of substitutions the compiler sees that none is an insertion or a deletion.
fn edit_of<const SUBSTITUTES: bool>(frame: &[u8], class: u32, alphabet: u32, at: usize) -> Edit
    requires { (SUBSTITUTES ≡ true → substitutes_only class ≡ true) × (at + width_of class ≤ length frame.now) }
    ensures { result ≡ edit_at class alphabet frame.now at }
{
    if SUBSTITUTES {
        return substitution_at(frame, class, alphabet, at);
    }
    edit_at(frame, class, alphabet, at)
}

// The bases of a read's edits, each with the match before it, then of the match behind the last.
// The three walks (of a read whose edits all are substitutions, of another, and of a piece of a read over introns) each have a copy that is
// called from one place, so that the compiler lays it there (docs/BENCHMARK.md).
fn put_edits<const SUBSTITUTES: bool, const PIECE: bool>(
    out: &mut [u8],
    at: usize,
    reference: &[u8],
    first: u32,
    alphabet: u32,
    position: u32,
    start: u32,
    frame: &[u8],
    class: u32,
    run: Run,
) -> usize
    requires substitutes_value { SUBSTITUTES ≡ true → substitutes_only class ≡ true }
    requires class_in_bounds { run.edits_at + run.edits * width_of class ≤ length frame.now }
    requires edits_at_in_bounds { at + 2 * length (bases_from alphabet reference.now first run.mapped (pointers position start) (edit_list_at class alphabet frame.now run.edits run.edits_at)) ≤ length out.old }
    ensures { Laid out.old out.new at result (bases_from alphabet reference.now first run.mapped (pointers position start) (edit_list_at class alphabet frame.now run.edits run.edits_at)) }
{
    let table = alphabet::digits(alphabet);
    let step = width(class);
    let mut here = run.edits_at;
    let mut p = Places::at(position, start);
    let mut next = at;
    for _ in 0..run.edits {
        let e = edit_of::<SUBSTITUTES>(frame, class, alphabet, here);
        next = put_edit(out, next, reference, first, alphabet, &table, p, e);
        p = p.past_edit(e);
        here += step;
    }
    put_matched(out, next, reference, first, alphabet, p, run.mapped)
}

// The bases of a piece of a read over introns, from its position and its start on. One with no edits is one match, and takes no table.
pub fn write_piece(
    out: &mut [u8],
    at: usize,
    reference: &[u8],
    first: u32,
    alphabet: u32,
    position: u32,
    start: u32,
    frame: &[u8],
    class: u32,
    run: Run,
) -> usize
    requires class_in_bounds { run.edits_at + run.edits * width_of class ≤ length frame.now }
    requires edits_at_in_bounds { at + 2 * length (bases_from alphabet reference.now first run.mapped (pointers position start) (edit_list_at class alphabet frame.now run.edits run.edits_at)) ≤ length out.old }
    ensures { Laid out.old out.new at result (bases_from alphabet reference.now first run.mapped (pointers position start) (edit_list_at class alphabet frame.now run.edits run.edits_at)) }
{
    if run.edits == 0 {
        let p = Places::at(position, start);
        return put_matched(out, at, reference, first, alphabet, p, run.mapped);
    }
    put_edits::<false, true>(
        out, at, reference, first, alphabet, position, start, frame, class, run,
    )
}

// The bases of a read without splices, from its first mapped base on. One with no edits is one match, and takes no table. The class picks a copy of the one walk.
fn put_run(
    out: &mut [u8],
    at: usize,
    reference: &[u8],
    first: u32,
    alphabet: u32,
    pos: u32,
    frame: &[u8],
    class: u32,
    run: Run,
) -> usize
    requires class_in_bounds { run.edits_at + run.edits * width_of class ≤ length frame.now }
    requires edits_at_in_bounds { at + 2 * length (mapped_bases class alphabet frame.now reference.now first pos run.mapped run.edits run.edits_at) ≤ length out.old }
    ensures { Laid out.old out.new at result (mapped_bases class alphabet frame.now reference.now first pos run.mapped run.edits run.edits_at) }
{
    if run.edits == 0 {
        let p = Places::beginning(pos);
        return put_matched(out, at, reference, first, alphabet, p, run.mapped);
    }
    if substitutes(class) {
        return put_edits::<true, false>(
            out, at, reference, first, alphabet, pos, 0, frame, class, run,
        );
    }
    put_edits::<false, false>(
        out, at, reference, first, alphabet, pos, 0, frame, class, run,
    )
}

// The soft-clipped bases of one side; most reads have none, and no loop is set up for them.
fn put_soft(
    out: &mut [u8],
    at: usize,
    frame: &[u8],
    alphabet: u32,
    start: usize,
    end: usize,
) -> usize
    requires start_le_end { (start ≤ end) × (end ≤ length frame.now) }
    requires start_in_bounds { at + 2 * (end - start) ≤ length out.old }
    ensures { Laid out.old out.new at result (letters_at alphabet frame.now start (end - start)) }
{
    if end <= start {
        return at;
    }
    put_letters(out, at, frame, alphabet, start, end)
}

// A whole read, laid as digits: left soft clip, run, right soft clip.
pub fn write(
    out: &mut [u8],
    at: usize,
    reference: &[u8],
    first: u32,
    alphabet: u32,
    position: u32,
    frame: &[u8],
    class: u32,
    block: Block,
) -> usize
    requires clips_in_bounds { (block.soft_at + soft_bases block.clips ≤ length frame.now) × (block.edits_at + block.edits * width_of class ≤ length frame.now) }
    requires block_in_bounds { at + 2 * length (bases_text class alphabet frame.now reference.now first position block) ≤ length out.old }
    ensures { Laid out.old out.new at result (bases_text class alphabet frame.now reference.now first position block) }
{
    let clips = block.clips;
    let run = run_of(block);
    let left = block.soft_at;
    let right = left + clips.left_soft as usize;
    let end = right + clips.right_soft as usize;
    let mapped = put_soft(out, at, frame, alphabet, left, right);
    let behind = put_run(
        out, mapped, reference, first, alphabet, position, frame, class, run,
    );
    put_soft(out, behind, frame, alphabet, right, end)
}
