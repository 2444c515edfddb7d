// Going on with a listing that was stopped: what of it is kept, where to go on, and how far the unit file is passed over.
ghost use Rattle.std.specs.Prelude.{◌≡◌, [], ◌∷◌, ◌<◌, ◌^◌, length};
ghost use Rattle.lampbuckle.specs.Answer.{outcome};
ghost use Rattle.state.specs.Numbers.{state_length};
ghost use Rattle.lampbuckle.specs.Resume.{place_afresh, place_second, place_on, place_over, wanted_length, keep_call, goes_on, place_answered, place_call, pass_call};

use crate::answer::{counted, refused};
use crate::numbers;
use refusal::Refusal;
use resuming::place::Go;
use state::{State, numbers as state_numbers};
use unit::Pairs;

// Where to go on, as a number: the whole listing is added, or all behind its first line, or all behind a record, or nothing. C gets these numbers.
const AFRESH: usize = 0;

const SECOND: usize = 1;

const ON: usize = 2;

const OVER: usize = 3;

// How many numbers say what a pass still wants.
const WANTED: usize = 1;

// Each number is its name in specs/: proved, and called by nothing.
fn tied() -> [usize; 5]
    ensures { result ≡ place_afresh ∷ place_second ∷ place_on ∷ place_over ∷ wanted_length ∷ [] }
{
    [AFRESH, SECOND, ON, OVER, WANTED]
}

// One piece more of a found file. It answers 1 where nothing that follows is kept, else 0.
#[unsafe(no_mangle)]
pub extern "C" fn lampbuckle_keep(piece: &[u8], keep: &mut [usize]) -> i64
    ensures { outcome result (keep.new ∷ []) ≡ keep_call piece.now keep.old }
{
    if keep.len() != numbers::KEEP {
        return refused(Refusal::Missing);
    }
    let before = numbers::read_keep(&keep[..]);
    let after = before.over(piece);
    numbers::lay_keep(keep, after);
    counted(usize::from(after.done))
}

fn go_on(number: usize, next: State, state: &mut [u32]) -> i64
    requires state_len { length state.old ≡ state_length }
    requires number_bound { number < 2 ^ 63 }
    ensures { outcome result (state.new ∷ []) ≡ goes_on number next }
{
    state_numbers::lay(state, next);
    counted(number)
}

// A place that was found, by its number, with the state to go on from; or the refusal. C takes it as an integer and numbers.
fn settle(go: Go, state: &mut [u32]) -> i64
    requires { length state.old ≡ state_length }
    ensures { outcome result (state.new ∷ []) ≡ place_answered go state.old }
{
    let next = go.state();
    match go {
        Go::Afresh => go_on(AFRESH, next, state),
        Go::Second => go_on(SECOND, next, state),
        Go::On(_) => go_on(ON, next, state),
        Go::Over => go_on(OVER, next, state),
        Go::Refused(refusal) => refused(refusal),
    }
}

// Where to go on behind the kept lines from `first` to `last`, in the listing that begins with `listed`.
#[unsafe(no_mangle)]
pub extern "C" fn lampbuckle_place(
    listed: &[u8],
    count: u32,
    counts: &[u32],
    first: &[u8],
    last: &[u8],
    state: &mut [u32],
) -> i64
    ensures { outcome result (state.new ∷ []) ≡ place_call listed.now count counts.now first.now last.now state.old }
{
    if counts.len() != Pairs::SUBSEQUENCES {
        return refused(Refusal::CountOut);
    }
    if state.len() != state_numbers::STATE {
        return refused(Refusal::Missing);
    }
    let go = resuming::place::place(listed, count, counts, first, last);
    settle(go, state)
}

// Passes over a piece of the unit file until 0A went by as often as is wanted; how often it is still wanted is laid. It answers the bytes that are passed over.
#[unsafe(no_mangle)]
pub extern "C" fn lampbuckle_pass(piece: &[u8], wanted: &mut [usize]) -> i64
    ensures { outcome result (wanted.new ∷ []) ≡ pass_call piece.now wanted.old }
{
    if wanted.len() != WANTED {
        return refused(Refusal::Missing);
    }
    let p = resuming::pass::pass(piece, wanted[0]);
    wanted[0] = p.left;
    counted(p.at)
}
