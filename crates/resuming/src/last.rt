// What the last kept line says, read from its digits.
ghost use Rattle.std.specs.Prelude.{◌≡◌, length};
ghost use Rattle.frame.specs.Hex.{unhex};
ghost use Rattle.listing.specs.Resuming.{listed_last, frame_last, last_of};
ghost use Rattle.resuming.specs.Last.{said_of};

use frame::field::{Digits, byte_at};
use frame::line::line_within;
use listing::close;
use state::listed::ListedLine;
use state::{State, head};
use unit::kind::Kind;

// What the last kept line says. No Result: three answers, and Bad is an answer like the others, which becomes 16 in `place` alone.
#[derive(Clone, Copy)]
pub enum LastSays {
    // An 04 line: go on behind its record, from this state.
    GoOn(State),
    // An 05 or an 06 line: the listing is whole.
    Whole,
    // Nothing that can be continued.
    Bad,
}

// An 04 line.
fn listed_last(line: &[u8], count: u32, counts: &[u32]) -> LastSays
    ensures { result ≡ said_of (listed_last count counts.now (unhex line.now)) }
{
    match head::behind(line, count, counts) {
        Some(state) => LastSays::GoOn(state),
        None => LastSays::Bad,
    }
}

// A well-formed line of so many bytes, by its kind.
fn frame_last(line: &[u8], bytes: usize, count: u32, counts: &[u32]) -> LastSays
    requires { bytes ≡ length (unhex line.now) }
    ensures { result ≡ said_of (frame_last count counts.now (unhex line.now)) }
{
    let kind = u32::from(byte_at(Digits(line), 0));
    if kind == Kind::LISTED {
        return listed_last(line, count, counts);
    }
    if kind == Kind::REFUSED {
        if bytes == close::BYTES_05 {
            return LastSays::Whole;
        }
        return LastSays::Bad;
    }
    if kind == Kind::DONE {
        if bytes == close::BYTES_06 {
            return LastSays::Whole;
        }
        return LastSays::Bad;
    }
    LastSays::Bad
}

// What the last kept line says of a unit with so many records and symbols. Where the front of the files is refused there is no record: the count is 0.
pub fn last_line(line: &[u8], count: u32, counts: &[u32]) -> LastSays
    ensures { result ≡ said_of (last_of count counts.now line.now) }
{
    match line_within(line, ListedLine::DIGITS) {
        Ok(bytes) => frame_last(line, bytes, count, counts),
        Err(_) => LastSays::Bad,
    }
}
