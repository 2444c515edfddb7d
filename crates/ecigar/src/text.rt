// The text of a segment, laid as digits. What `check` accepted fits, so nothing fails here.
ghost use Rattle.std.specs.Prelude.{◌≡◌, true, false, ◌++◌, ◌+◌, ◌-◌, ◌*◌, ◌<◌, ◌≤◌, length};
ghost use Rattle.writing.specs.Lay.{Laid};
ghost use Rattle.alphabet.specs.Table35.{size_of};
ghost use Rattle.alphabet.specs.Code.Digits.{digits_of};
ghost use Rattle.edits.specs.Edits.{width_of, edit_list_at, Sound, block_edits};
ghost use Rattle.edits.specs.Code.Runs.{substitutes_only};
ghost use Rattle.edits.specs.Lengths.{most_edits, mapped_length};
ghost use Rattle.ecigar.specs.Table90.{counted, print_all};
ghost use Rattle.ecigar.specs.Ecigar.{set_out_at, open_run, matches, gap, mark, ending, operations_from, ecigar_of, ecigar_text};

use crate::clip::put_clip;
use crate::walk::{Walk, advance, joins};
use alphabet::letter::put_letter;
use edits::edit::{Edit, edit_at, substitutes, substitution_at, width};
use edits::{Block, Run, run_of};
use unit::Unit;
use writing::decimal::put_decimal;
use writing::lay::put_byte;

// A count and its sign. No Display, as for `put_decimal`.
pub(crate) fn put_count(out: &mut [u8], at: usize, n: u32, sign: u8) -> usize
    requires { at + 2 * length (counted n sign) ≤ length out.old }
    ensures { Laid out.old out.new at result (counted n sign) }
{
    let next = put_decimal(out, at, n);
    put_byte(out, next, sign)
}

fn put_matches(out: &mut [u8], at: usize, n: u32) -> usize
    requires { at + 2 * length (print_all (matches n)) ≤ length out.old }
    ensures { Laid out.old out.new at result (print_all (matches n)) }
{
    if n == 0 {
        return at;
    }
    put_count(out, at, n, b'=')
}

// The run that is open, if one is.
fn put_closed(out: &mut [u8], at: usize, w: Walk) -> usize
    requires { at + 2 * length (print_all (open_run w)) ≤ length out.old }
    ensures { Laid out.old out.new at result (print_all (open_run w)) }
{
    if w.kind == Edit::INSERTION {
        return put_count(out, at, w.run, b'+');
    }
    if w.kind == Edit::DELETION {
        return put_count(out, at, w.run, b'-');
    }
    at
}

// What stands between the last edit and this one.
fn put_gap(out: &mut [u8], at: usize, w: Walk, e: Edit) -> usize
    requires { (w.next ≤ e.offset) × (at + 2 * length (print_all (gap w e)) ≤ length out.old) }
    ensures { Laid out.old out.new at result (print_all (gap w e)) }
{
    if joins(w, e) {
        return at;
    }
    let next = put_closed(out, at, w);
    put_matches(out, next, e.offset as u32 - w.next)
}

// The letter of a substitution. The letter - of alphabet 1 is one like the others.
fn put_mark(
    out: &mut [u8],
    at: usize,
    alphabet: u32,
    table: &[u8; alphabet::DIGITS],
    e: Edit,
) -> usize
    requires { (table.now ≡ digits_of alphabet) × (at + 2 * length (print_all (mark alphabet e)) ≤ length out.old) }
    ensures { Laid out.old out.new at result (print_all (mark alphabet e)) }
{
    if e.kind == Edit::SUBSTITUTION {
        return put_letter(out, at, table, e.symbol);
    }
    at
}

// What one edit adds to the text.
fn put_edit(
    out: &mut [u8],
    at: usize,
    alphabet: u32,
    table: &[u8; alphabet::DIGITS],
    w: Walk,
    e: Edit,
) -> usize
    requires { (table.now ≡ digits_of alphabet) × ((w.next ≤ e.offset) × (at + 2 * length (print_all (gap w e ++ mark alphabet e)) ≤ length out.old)) }
    ensures { Laid out.old out.new at result (print_all (gap w e ++ mark alphabet e)) }
{
    let next = put_gap(out, at, w, e);
    put_mark(out, next, alphabet, table, e)
}

// What stands behind the last edit.
fn put_ending(out: &mut [u8], at: usize, w: Walk, mapped: u32) -> usize
    requires { (w.next ≤ mapped) × (at + 2 * length (print_all (ending mapped w)) ≤ length out.old) }
    ensures { Laid out.old out.new at result (print_all (ending mapped w)) }
{
    let next = put_closed(out, at, w);
    put_matches(out, next, mapped - w.next)
}

// The edits of a piece, each with what stands before it, and the match behind the last. It is called from one place, with one class, and the compiler sees which form the edits have (docs/BENCHMARK.md).
fn put_edits(
    out: &mut [u8],
    at: usize,
    frame: &[u8],
    class: u32,
    alphabet: u32,
    start: u32,
    run: Run,
) -> usize
    requires start_le_mapped { (start ≤ run.mapped) × ((run.edits ≤ most_edits) × (run.edits_at + run.edits * width_of class ≤ length frame.now)) }
    requires sound { Sound run.mapped (size_of alphabet) start (edit_list_at class alphabet frame.now run.edits run.edits_at) }
    requires edits_at_in_bounds { at + 2 * length (print_all (operations_from alphabet run.mapped (set_out_at start) (edit_list_at class alphabet frame.now run.edits run.edits_at))) ≤ length out.old }
    ensures { Laid out.old out.new at result (print_all (operations_from alphabet run.mapped (set_out_at start) (edit_list_at class alphabet frame.now run.edits run.edits_at))) }
{
    let table = alphabet::digits(alphabet);
    let step = width(class);
    let mut w = Walk::start_at(start);
    let mut next = at;
    let mut place = run.edits_at;
    for _ in 0..run.edits {
        let e = edit_at(frame, class, alphabet, place);
        next = put_edit(out, next, alphabet, &table, w, e);
        w = advance(w, e);
        place += step;
    }
    put_ending(out, next, w, run.mapped)
}

// The text of a piece that `check_piece` accepted, without clips: its first base stands at offset `start` of the read, and behind its last is `run.mapped`.
// Its class is one whose edits have a type, and these have one form.
pub fn write_piece(
    out: &mut [u8],
    at: usize,
    frame: &[u8],
    class: u32,
    alphabet: u32,
    start: u32,
    run: Run,
) -> usize
    requires class_value { substitutes_only class ≡ false }
    requires start_le_mapped { (start ≤ run.mapped) × ((run.edits ≤ most_edits) × (run.edits_at + run.edits * width_of class ≤ length frame.now)) }
    requires sound { Sound run.mapped (size_of alphabet) start (edit_list_at class alphabet frame.now run.edits run.edits_at) }
    requires edits_at_in_bounds { at + 2 * length (print_all (operations_from alphabet run.mapped (set_out_at start) (edit_list_at class alphabet frame.now run.edits run.edits_at))) ≤ length out.old }
    ensures { Laid out.old out.new at result (print_all (operations_from alphabet run.mapped (set_out_at start) (edit_list_at class alphabet frame.now run.edits run.edits_at))) }
{
    put_edits(out, at, frame, Unit::I, alphabet, start, run)
}

// The same where every edit is a substitution: a match and a letter, and so on. A walk of its own for speed (docs/BENCHMARK.md).
fn put_substitutions(
    out: &mut [u8],
    from: usize,
    frame: &[u8],
    class: u32,
    alphabet: u32,
    run: Run,
) -> usize
    requires class_value { (substitutes_only class ≡ true) × (run.edits_at + run.edits * width_of class ≤ length frame.now) }
    requires sound { Sound run.mapped (size_of alphabet) 0 (edit_list_at class alphabet frame.now run.edits run.edits_at) }
    requires edits_at_in_bounds { from + 2 * length (ecigar_of alphabet run.mapped (edit_list_at class alphabet frame.now run.edits run.edits_at)) ≤ length out.old }
    ensures { Laid out.old out.new from result (ecigar_of alphabet run.mapped (edit_list_at class alphabet frame.now run.edits run.edits_at)) }
{
    let table = alphabet::digits(alphabet);
    let step = width(class);
    let mut done: u32 = 0;
    let mut next = from;
    let mut at = run.edits_at;
    for _ in 0..run.edits {
        let e = substitution_at(frame, class, alphabet, at);
        let offset = e.offset as u32;
        let behind = put_matches(out, next, offset - done);
        next = put_letter(out, behind, &table, e.symbol);
        done = offset + 1;
        at += step;
    }
    put_matches(out, next, run.mapped - done)
}

// The text of a run that `check` accepted, without clips. A run with no edits is one match, and takes no table.
// Two walks, as in `check`.
fn put_run(out: &mut [u8], at: usize, frame: &[u8], class: u32, alphabet: u32, run: Run) -> usize
    requires edits_le_most_edits { (run.edits ≤ most_edits) × (run.edits_at + run.edits * width_of class ≤ length frame.now) }
    requires sound { Sound run.mapped (size_of alphabet) 0 (edit_list_at class alphabet frame.now run.edits run.edits_at) }
    requires edits_at_in_bounds { at + 2 * length (ecigar_of alphabet run.mapped (edit_list_at class alphabet frame.now run.edits run.edits_at)) ≤ length out.old }
    ensures { Laid out.old out.new at result (ecigar_of alphabet run.mapped (edit_list_at class alphabet frame.now run.edits run.edits_at)) }
{
    if run.edits == 0 {
        return put_matches(out, at, run.mapped);
    }
    if substitutes(class) {
        return put_substitutions(out, at, frame, class, alphabet, run);
    }
    write_piece(out, at, frame, class, alphabet, 0, run)
}

// The whole text of a block that `check` accepted: left clip, run, right clip.
pub fn write(
    out: &mut [u8],
    at: usize,
    frame: &[u8],
    class: u32,
    alphabet: u32,
    block: Block,
) -> usize
    requires edits_le_most_edits { (block.edits ≤ most_edits) × (block.edits_at + block.edits * width_of class ≤ length frame.now) }
    requires sound { Sound (mapped_length block.length block.clips) (size_of alphabet) 0 (block_edits class alphabet frame.now block) }
    requires block_in_bounds { at + 2 * length (ecigar_text class alphabet frame.now block) ≤ length out.old }
    ensures { Laid out.old out.new at result (ecigar_text class alphabet frame.now block) }
{
    let clips = block.clips;
    let run = run_of(block);
    let left = put_clip(out, at, clips.left_soft as u32, clips.left_hard as u32);
    let right = put_run(out, left, frame, class, alphabet, run);
    put_clip(out, right, clips.right_soft as u32, clips.right_hard as u32)
}
