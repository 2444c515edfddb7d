// The splice between two pieces of a read: n/ on the forward strand, n% on the reverse, n* where it has none.
ghost use Rattle.std.specs.Prelude.{◌≡◌, [], ◌∷◌, ◌+◌, ◌*◌, ◌≤◌, length};
ghost use Rattle.writing.specs.Lay.{Laid};
ghost use Rattle.ecigar.specs.Table90.{print_all};
ghost use Rattle.ecigar.specs.Spliced.{splice_of, splice_length};

use crate::check::count_len;
use crate::text::put_count;

// The characters of a splice: its count and its sign.
pub fn splice_len(n: u32) -> u32
    ensures { (result ≡ splice_length n) × (result ≤ 11) }
{
    count_len(n)
}

// A splice, laid as digits. Any rcomp but 0 and 1 is without strand (`splice_of` in specs/): no enum says that.
pub fn put_splice(out: &mut [u8], at: usize, rcomp: u32, n: u32) -> usize
    requires { at + 2 * length (print_all (splice_of rcomp n ∷ [])) ≤ length out.old }
    ensures { Laid out.old out.new at result (print_all (splice_of rcomp n ∷ [])) }
{
    if rcomp == 0 {
        return put_count(out, at, n, b'/');
    }
    if rcomp == 1 {
        return put_count(out, at, n, b'%');
    }
    put_count(out, at, n, b'*')
}
