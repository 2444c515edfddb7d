// A unit and what is known of a found file, as the numbers that a C caller lends, in the order that its header has: `unit_of` and `keep_of` in specs/ name each.
ghost use Rattle.std.specs.Prelude.{◌≡◌, [], ◌∷◌, length};
ghost use Rattle.lampbuckle.specs.Numbers.{unit_length, keep_length, unit_of, unit_numbers, keep_of, keep_numbers};

use kept::keep::Keep;
use unit::Unit;

// How many numbers a unit is: C lends it as a slice of so many, and the next as well.
pub const UNIT: usize = 8;

// What is known of a found file.
pub const KEEP: usize = 5;

// Each number is its name in specs/: proved, and called by nothing.
fn tied() -> [usize; 2]
    ensures { result ≡ unit_length ∷ keep_length ∷ [] }
{
    [UNIT, KEEP]
}

pub(crate) fn read_unit(n: &[u32]) -> Unit
    requires { length n.now ≡ unit_length }
    ensures { result ≡ unit_of n.now }
{
    Unit {
        class: n[0],
        alphabet: n[1],
        segments: n[2],
        sequence: n[3],
        first: n[4],
        start: n[5],
        end: n[6],
        records: n[7],
    }
}

pub(crate) fn lay_unit(n: &mut [u32], unit: Unit)
    requires { length n.old ≡ unit_length }
    ensures { n.new ≡ unit_numbers unit }
{
    n.copy_from_slice(&[
        unit.class,
        unit.alphabet,
        unit.segments,
        unit.sequence,
        unit.first,
        unit.start,
        unit.end,
        unit.records,
    ]);
}

pub(crate) fn read_keep(n: &[usize]) -> Keep
    requires { length n.now ≡ keep_length }
    ensures { result ≡ keep_of n.now }
{
    Keep {
        first: n[0],
        last: n[1],
        kept: n[2],
        seen: n[3],
        done: n[4] != 0,
    }
}

pub(crate) fn lay_keep(n: &mut [usize], keep: Keep)
    requires { length n.old ≡ keep_length }
    ensures { n.new ≡ keep_numbers keep }
{
    n.copy_from_slice(&[
        keep.first,
        keep.last,
        keep.kept,
        keep.seen,
        usize::from(keep.done),
    ]);
}
