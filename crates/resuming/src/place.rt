// Where a listing that was stopped goes on, by its first and its last kept line.
ghost use Rattle.std.specs.Prelude.{◌≡◌};
ghost use Rattle.listing.specs.Resuming.{last_of, edges_from, on_last, place_by};
ghost use Rattle.resuming.specs.Last.{placed_of, state_to};

use crate::last::{LastSays, last_line};
use refusal::Refusal;
use state::State;

// Where to go on. No Result: a refused resume is a listing too, its 05 line, so that each caller takes all five apart and none hands a refusal on.
#[derive(Clone, Copy)]
pub enum Go {
    // Nothing is kept: the whole listing is added.
    Afresh,
    // Behind the first line.
    Second,
    // Behind an 04 line, from a state.
    On(State),
    // Behind the last line: nothing is added.
    Over,
    // The resume is refused.
    Refused(Refusal),
}

impl Go {
    // The state to go on from: a fresh one but behind an 04 line.
    pub fn state(self) -> State
        ensures { result ≡ state_to self }
    {
        match self {
            Go::On(state) => state,
            Go::Afresh | Go::Second | Go::Over | Go::Refused(_) => State::fresh(),
        }
    }
}

// Behind a last kept line that is not the listing's first one. No From: what a line says becomes where to go on in this place alone.
fn behind(last: &[u8], count: u32, counts: &[u32]) -> Go
    ensures { result ≡ placed_of (on_last (last_of count counts.now last.now)) }
{
    match last_line(last, count, counts) {
        LastSays::GoOn(state) => Go::On(state),
        LastSays::Whole => Go::Over,
        LastSays::Bad => Go::Refused(Refusal::OtherLast),
    }
}

// Where to go on behind the kept lines from `first` to `last`, which are empty where nothing is kept, in the listing that begins with `listed`.
pub fn place(listed: &[u8], count: u32, counts: &[u32], first: &[u8], last: &[u8]) -> Go
    ensures { result ≡ placed_of (place_by listed.now count counts.now (edges_from first.now last.now)) }
{
    if first.len() == 0 {
        return Go::Afresh;
    }
    if first != listed {
        return Go::Refused(Refusal::OtherFirst);
    }
    if last == listed {
        return Go::Second;
    }
    behind(last, count, counts)
}
