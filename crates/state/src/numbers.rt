// A state as the numbers that a C caller lends: the record number, then the indexes.
ghost use Rattle.std.specs.Prelude.{◌≡◌};
ghost use Rattle.state.specs.Numbers.{state_length, no_state, state_of, state_into};

use crate::State;
use unit::Unit;

// How many numbers a state is: C lends it as a slice of so many.
pub const STATE: usize = State::INDEXES + 1;

// The number is its name in specs/: proved, and called by nothing.
fn tied() -> usize
    ensures { result ≡ state_length }
{
    STATE
}

// A state that no unit has: 14 refuses it, after what is refused before. No Option: `state_of` in specs/ is a state, so that the order of refusals stays.
fn no_state() -> State
    ensures { result ≡ no_state }
{
    State {
        number: Unit::RECORDS,
        index: [0u32; State::INDEXES],
    }
}

// The C interface lends numbers: here and in lampbuckle's numbers.rt each struct is read and laid by its own fields.
pub fn read(n: &[u32]) -> State
    ensures { result ≡ state_of n.now }
{
    if n.len() != STATE {
        return no_state();
    }
    let mut index = [0u32; State::INDEXES];
    index.copy_from_slice(&n[1..]);
    State {
        number: n[0],
        index,
    }
}

// Nothing is laid where another number of numbers is lent.
pub fn lay(n: &mut [u32], state: State)
    ensures { n.new ≡ state_into n.old state }
{
    if n.len() != STATE {
        return;
    }
    n[0] = state.number;
    n[1..].copy_from_slice(&state.index);
}
