// The head of an 04 line: how the state is laid into it, and read back from it.
ghost use Rattle.std.specs.Prelude.{◌≡◌};
ghost use Rattle.frame.specs.Hex.{unhex};
ghost use Rattle.state.specs.Listed.{listed_head, state_at, state_back};

use crate::State;
use crate::listed::ListedLine;
use frame::field::{Digits, word_at};
use unit::kind::Kind;

// Kind, record number, and the indexes after the record.
pub fn bytes(number: u32, next: State) -> [u8; ListedLine::HEAD]
    ensures { result ≡ listed_head number next }
{
    let mut head = [0u8; ListedLine::HEAD];
    head[0] = Kind::LISTED as u8;
    let [_, _, high, low] = number.to_be_bytes();
    head[ListedLine::NUMBER] = high;
    head[ListedLine::NUMBER + 1] = low;
    for (i, index) in next.index.iter().enumerate() {
        let [_, _, high, low] = index.to_be_bytes();
        head[ListedLine::INDEX + 2 * i] = high;
        head[ListedLine::INDEX + 2 * i + 1] = low;
    }
    head
}

// The state behind the record of an 04 line.
fn state_at(line: &[u8]) -> State
    ensures { result ≡ state_at (unhex line.now) }
{
    let number = word_at(Digits(line), ListedLine::NUMBER) + 1;
    let mut index = [0u32; State::INDEXES];
    for (j, taken) in index.iter_mut().enumerate() {
        *taken = word_at(Digits(line), ListedLine::INDEX + 2 * j);
    }
    State { number, index }
}

// The state behind the record of an 04 line, lent as its digits, in a unit with so many records and symbols; none where it cannot be continued.
pub fn behind(line: &[u8], count: u32, counts: &[u32]) -> Option<State>
    ensures { result ≡ state_back count counts.now (unhex line.now) }
{
    if line.len() / 2 < ListedLine::LEAST {
        return None;
    }
    let number = word_at(Digits(line), ListedLine::NUMBER);
    if count <= number {
        return None;
    }
    let state = state_at(line);
    if !state.within(counts) {
        return None;
    }
    Some(state)
}
