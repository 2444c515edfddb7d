// A line: lower-case hexadecimal digits, two a byte, ended by 0A.
ghost use Rattle.std.specs.Prelude.{◌≡◌, cond, not, ◌+◌, ◌≤◌, ltb, length, take};
ghost use Rattle.frame.specs.Hex.{is_digit, all_digits};
ghost use Rattle.frame.specs.Line.{line_digits, line_end, line_of, line_within};
ghost use Rattle.frame.specs.Next.{next_line};
ghost use Rattle.frame.specs.Code.Window.{window_of};

use limits::Limit;
use refusal::Refusal;

// A line's measures.
#[derive(Clone, Copy)]
pub struct Line {}

impl Line {
    // The most digits of an input line: those of the longest record.
    pub const DIGITS: usize = 2 * Limit::FRAME;

    // The byte that ends a line.
    pub const END: u8 = b'\n';

    // Each number is its name in specs/: proved, and called by nothing.
    fn tied_digits() -> usize
        ensures { result ≡ line_digits }
    {
        Line::DIGITS
    }

    fn tied_end() -> u8
        ensures { result ≡ line_end }
    {
        Line::END
    }
}

// What stands at the front of a slice. No Result: a line too long or without 0A is handed on all the same, to be refused as such (`bytes_by` in specs of stream).
#[derive(Clone, Copy)]
pub enum Next {
    // A line of so many bytes, its 0A among them.
    Whole(usize),
    // No 0A where the longest line has its own.
    TooLong,
    // The slice ends before a 0A.
    NoEnd,
    Nothing,
}

// 1 where a is below b, else 0: a test without a branch.
fn below(a: u8, b: u8) -> u8
    ensures { (result ≡ cond (ltb a b) 1 0) × (result ≤ 1) }
{
    u8::from(a < b)
}

// How often a byte is on the wrong side of two others: 0 from `first` to `last`, else 1 where first is at most last. A sum and no `&&`, so that `has_other` has no branch.
fn outside(d: u8, first: u8, last: u8) -> u8
    ensures { result ≡ cond (ltb d first) 1 0 + cond (ltb last d) 1 0 }
{
    below(d, first) + below(last, d)
}

// 0 for a digit, else 1.
fn other(d: u8) -> u8
    ensures { result ≡ cond (is_digit d) 0 1 }
{
    outside(d, b'0', b'9').min(outside(d, b'a', b'f'))
}

// Whether one of the first m bytes is no digit. Every one is looked at, with no way out before the last, so that many are looked at at once.
fn has_other(line: &[u8], m: usize) -> bool
    requires { m ≤ length line.now }
    ensures { result ≡ not (all_digits (take m line.now)) }
{
    let mut found: u8 = 0;
    for &d in &line[..m] {
        found = found.max(other(d));
    }
    found != 0
}

// A line of at most so many digits: how many bytes its frame has. Listing lines are longer than input lines, so the limit is the caller's.
pub fn line_within(line: &[u8], most: usize) -> Result<usize, Refusal>
    ensures { result ≡ line_within most line.now }
{
    let n = line.len();
    if n % 2 == 0 {
        return Err(Refusal::Malformed);
    }
    let m = n - 1;
    if most < m {
        return Err(Refusal::Malformed);
    }
    if line[m] != Line::END {
        return Err(Refusal::Malformed);
    }
    if has_other(line, m) {
        return Err(Refusal::Malformed);
    }
    Ok(m / 2)
}

// An input line.
pub fn line_of(line: &[u8]) -> Result<usize, Refusal>
    ensures { result ≡ line_of line.now }
{
    line_within(line, Line::DIGITS)
}

// How much of a slice of n bytes is looked at for a line's end.
fn window(n: usize) -> usize
    ensures { result ≡ window_of n }
{
    n.min(Line::DIGITS + 1)
}

// The first line of s. Nothing behind the longest line's end is looked at, so a caller may hand over as much as it has.
pub fn next_line(s: &[u8]) -> Next
    ensures { result ≡ next_line s.now }
{
    let m = window(s.len());
    if m == 0 {
        return Next::Nothing;
    }
    if let Some(i) = s[..m].iter().position(|&b| b == Line::END) {
        return Next::Whole(i + 1);
    }
    if m <= Line::DIGITS {
        return Next::NoEnd;
    }
    Next::TooLong
}
