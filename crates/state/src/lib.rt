// What is carried from record to record, and every form that it has: beside the symbol counts, in the head of an 04 line, and as numbers for C.
#![tactic(auto)]

pub mod head;
pub mod listed;
pub mod numbers;

ghost use Rattle.std.specs.Prelude.{◌≡◌};
ghost use Rattle.state.specs.State.{index_count, fresh_state, all_taken, within as withinOf};

use unit::Pairs;

// The next record's number, and how many symbols of each subsequence are taken.
#[derive(Clone, Copy)]
pub struct State {
    pub number: u32,
    pub index: [u32; State::INDEXES],
}

impl State {
    // How many indexes are carried: one a subsequence of pair symbols.
    pub const INDEXES: usize = Pairs::SUBSEQUENCES;

    // The number is its name in specs/: proved, and called by nothing.
    fn tied() -> usize
        ensures { result ≡ index_count }
    {
        State::INDEXES
    }

    // No Default, nor for `Clips::none` and `Keep::new`: these names say what the zeros mean, and specs/ has them too.
    pub fn fresh() -> State
        ensures { result ≡ fresh_state }
    {
        State {
            number: 0,
            index: [0u32; State::INDEXES],
        }
    }

    // No index is above its symbol count.
    pub fn within(self, counts: &[u32]) -> bool
        ensures { result ≡ withinOf self counts.now }
    {
        if counts.len() < State::INDEXES {
            return false;
        }
        self.index
            .iter()
            .zip(counts)
            .all(|(taken, count)| taken <= count)
    }

    // Every symbol is taken.
    pub fn all_taken(self, counts: &[u32]) -> bool
        ensures { result ≡ all_taken self counts.now }
    {
        self.index.as_slice() == counts
    }
}
