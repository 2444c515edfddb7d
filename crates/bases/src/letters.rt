// Letters of symbols that stand one behind the other: lent bases, soft-clipped bases, and the whole of an unaligned read.
ghost use Rattle.std.specs.Prelude.{◌+◌, ◌-◌, ◌*◌, ◌≤◌, length};
ghost use Rattle.writing.specs.Lay.{Laid};
ghost use Rattle.bases.specs.Bases.{letters_at};

use alphabet::five::put_five;
use alphabet::letter::put_letter;

// The letters of the symbols from `start` to `end`. Those of alphabet 0 are laid many at once, those of alphabet 1 from the table of digits:
// no closure for the letter, since each loop says it in a line, and only one of them wants a table.
// Start and end and no slice, in `put_soft` too: the part is cut here once, and `letters_at` (specs/) of the part is that of the whole, where each caller wants the whole.
pub fn put_letters(
    out: &mut [u8],
    at: usize,
    symbols: &[u8],
    alphabet: u32,
    start: usize,
    end: usize,
) -> usize
    requires start_le_end { (start ≤ end) × (end ≤ length symbols.now) }
    requires start_in_bounds { at + 2 * (end - start) ≤ length out.old }
    ensures { Laid out.old out.new at result (letters_at alphabet symbols.now start (end - start)) }
{
    let part = &symbols[start..end];
    if alphabet == 0 {
        return put_fives(out, at, part);
    }
    put_sixteens(out, at, part, alphabet)
}

// A loop of its own for alphabet 0, which the compiler lays eight at a time (docs/BENCHMARK.md).
fn put_fives(out: &mut [u8], at: usize, symbols: &[u8]) -> usize
    requires { at + 2 * length symbols.now ≤ length out.old }
    ensures { Laid out.old out.new at result (letters_at 0 symbols.now 0 (length symbols.now)) }
{
    let mut next = at;
    for symbol in symbols {
        next = put_five(out, next, *symbol);
    }
    next
}

fn put_sixteens(out: &mut [u8], at: usize, symbols: &[u8], alphabet: u32) -> usize
    requires { at + 2 * length symbols.now ≤ length out.old }
    ensures { Laid out.old out.new at result (letters_at alphabet symbols.now 0 (length symbols.now)) }
{
    let table = alphabet::digits(alphabet);
    let mut next = at;
    for symbol in symbols {
        next = put_letter(out, next, &table, *symbol);
    }
    next
}
