// The record call: from a lent record line to a lent 04 line. Nothing is written before all is known.
#![tactic(auto)]

ghost use Rattle.std.specs.Prelude.{◌≡◌, List, ℕ, ◌<◌, length, Ok};
ghost use Rattle.refusal.specs.Answers.{no_refusal};
ghost use Rattle.unit.specs.Unit.{most_records};
ghost use Rattle.plan.specs.Lent.{lent_refusal};
ghost use Rattle.plan.specs.Code.Ready.{ReadyPlan};
ghost use Rattle.record.specs.Record.{record_of, refused_call, recorded, output, with_room, step_by};
ghost use Rattle.record.specs.Code.Frame.{FrameOf, read_step};

use frame::line::Line;
use plan::read::Plan;
use plan::{lent, read};
use refusal::Refusal;
use state::State;
use state::listed::ListedLine;
use unit::Unit;

mod sized;
mod write;

// How many bytes were written, the 0A among them, or the refusal; and the state after it: the next record's, or as it was given, which `refused_call` (specs/) hands back beside a refusal.
#[derive(Clone, Copy)]
pub struct Recorded {
    pub answer: Result<usize, Refusal>,
    pub state: State,
}

// A refusal, with the state that was given.
fn refused(refusal: Refusal, state: State) -> Recorded
    ensures { result ≡ refused_call refusal state }
{
    Recorded {
        answer: Err(refusal),
        state,
    }
}

// A record that is checked: 17 where there is no room for its line, else the line and the next state.
fn settle(
    unit: Unit,
    reference: &[u8],
    symbols: &[u32],
    state: State,
    moved: State,
    frame: &[u8],
    out: &mut [u8],
    p: Plan,
) -> Recorded
    requires ready_plan { ReadyPlan unit reference.now symbols.now frame.now p }
    requires number_lt_most_records { state.number < most_records }
    ensures value { result ≡ recorded state (with_room (length out.old) (step_by unit reference.now symbols.now frame.now state (Ok (p, moved)))) }
    ensures out_after { out.new ≡ output out.old (with_room (length out.old) (step_by unit reference.now symbols.now frame.now state (Ok (p, moved)))) }
{
    let bytes = ListedLine::LEAST + p.first.bytes() + p.second.bytes();
    if out.len() <= 2 * bytes {
        return refused(Refusal::NoRoom, state);
    }
    let mut next = moved;
    next.number = state.number + 1;
    let end = write::write(out, unit, reference, symbols, frame, state.number, next, p);
    out[end] = Line::END;
    Recorded {
        answer: Ok(end + 1),
        state: next,
    }
}

// A frame of a record line: it is checked whole, then the room; only then is the 04 line laid.
fn of_frame(
    unit: Unit,
    reference: &[u8],
    symbols: &[u32],
    counts: &[u32],
    state: State,
    frame: &[u8],
    out: &mut [u8],
) -> Recorded
    requires state_value { lent_refusal unit (length reference.now) (length symbols.now) counts.now state ≡ no_refusal }
    requires by_index { (line : List ℕ) × FrameOf line frame.now }
    ensures value { result ≡ recorded state (with_room (length out.old) (read_step unit reference.now symbols.now counts.now state frame.now)) }
    ensures out_after { out.new ≡ output out.old (with_room (length out.old) (read_step unit reference.now symbols.now counts.now state frame.now)) }
{
    match read::read(unit, reference, symbols, counts, state, frame) {
        Err(refusal) => refused(refusal, state),
        Ok((p, moved)) => settle(unit, reference, symbols, state, moved, frame, out, p),
    }
}

// One record: what is lent is checked, then the line's digits, then what the frame says.
pub fn record(
    unit: Unit,
    reference: &[u8],
    symbols: &[u32],
    counts: &[u32],
    state: State,
    line: &[u8],
    out: &mut [u8],
) -> Recorded
    ensures value { result ≡ recorded state (record_of unit reference.now symbols.now counts.now state line.now (length out.old)) }
    ensures out_after { out.new ≡ output out.old (record_of unit reference.now symbols.now counts.now state line.now (length out.old)) }
{
    if let Err(refusal) = lent::check(unit, reference, symbols, counts, state) {
        return refused(refusal, state);
    }
    match frame::line::line_of(line) {
        Err(malformed) => refused(malformed, state),
        Ok(size) => sized::of_line(unit, reference, symbols, counts, state, line, out, size),
    }
}
