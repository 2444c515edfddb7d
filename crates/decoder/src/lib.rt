// The decoder as a whole: each line that is added to a listing, by one call a line of the unit file.
#![tactic(auto)]

ghost use Rattle.std.specs.Prelude.{◌≡◌, [], ◌<◌, length};
ghost use Rattle.refusal.specs.Numbers.{number_of};
ghost use Rattle.state.specs.Listed.{most_listed};
ghost use Rattle.listing.specs.Listing.{line05};
ghost use Rattle.listing.specs.Turn.{stop, record_turn, last_turn};
ghost use Rattle.decoder.specs.Decoder.{setup_of};
ghost use Rattle.decoder.specs.Turned.{lent_line, turn_of, turned, printed_into, stopped_by, turned_of, output_of};

use listing::close;
use refusal::Refusal;
use state::State;
use state::listed::ListedLine;
use unit::Unit;

// How many bytes were added, and whether the listing goes on behind them; or that less is lent than the longest line needs. No Result: each caller takes all three apart.
#[derive(Clone, Copy, Debug, PartialEq, Eq)]
pub enum Added {
    Go(usize),
    Stop(usize),
    NoRoom,
}

// The answer, and the state to go on from; where the listing stops, as it was given: `turned_of` in specs/ hands it back beside every answer.
#[derive(Clone, Copy)]
pub struct Turned {
    pub added: Added,
    pub state: State,
}

// A last line that was written, or had no room. No From: it takes two values.
fn stopped(wrote: Result<usize, Refusal>, state: State) -> Turned
    ensures { result ≡ stopped_by wrote state }
{
    match wrote {
        Ok(n) => Turned {
            added: Added::Stop(n),
            state,
        },
        Err(_) => Turned {
            added: Added::NoRoom,
            state,
        },
    }
}

// The listing stops at a refusal.
fn refuse(out: &mut [u8], number: u32, refusal: Refusal, state: State) -> Turned
    requires { most_listed < length out.old }
    ensures value { result ≡ turned state (stop (line05 number (number_of refusal))) }
    ensures out_after { out.new ≡ printed_into out.old (stop (line05 number (number_of refusal))) }
{
    let wrote = close::write_refused(out, number, u32::from(refusal));
    stopped(wrote, state)
}

// No record is wanted: bytes behind the last record line, or pair symbols left over, are refused by 14.
fn last_turn(unit: Unit, counts: &[u32], state: State, line: &[u8], out: &mut [u8]) -> Turned
    requires { most_listed < length out.old }
    ensures value { result ≡ turned state (last_turn (setup_of unit [] [] counts.now [] []) state (lent_line line.now)) }
    ensures out_after { out.new ≡ printed_into out.old (last_turn (setup_of unit [] [] counts.now [] []) state (lent_line line.now)) }
{
    if line.len() != 0 {
        return refuse(out, unit.records, Refusal::Missing, state);
    }
    if state.all_taken(counts) {
        return stopped(close::write_done(out, unit.records), state);
    }
    refuse(out, unit.records, Refusal::Missing, state)
}

// A record is wanted: its 04 line, or the 05 line of its refusal.
fn record_turn(
    unit: Unit,
    reference: &[u8],
    symbols: &[u32],
    counts: &[u32],
    state: State,
    line: &[u8],
    out: &mut [u8],
) -> Turned
    requires { most_listed < length out.old }
    ensures value { result ≡ turned state (record_turn (setup_of unit reference.now symbols.now counts.now [] []) state (lent_line line.now)) }
    ensures out_after { out.new ≡ printed_into out.old (record_turn (setup_of unit reference.now symbols.now counts.now [] []) state (lent_line line.now)) }
{
    if line.len() == 0 {
        return refuse(out, state.number, Refusal::Missing, state);
    }
    let r = record::record(unit, reference, symbols, counts, state, line, out);
    match r.answer {
        Ok(n) => Turned {
            added: Added::Go(n),
            state: r.state,
        },
        Err(refusal) => refuse(out, state.number, refusal, state),
    }
}

// One line of the unit file, lent with its 0A, or its end, an empty slice: the line that it adds to the listing.
pub fn turn(
    unit: Unit,
    reference: &[u8],
    symbols: &[u32],
    counts: &[u32],
    state: State,
    line: &[u8],
    out: &mut [u8],
) -> Turned
    ensures value { result ≡ turned_of out.old state (turn_of unit reference.now symbols.now counts.now state line.now) }
    ensures out_after { out.new ≡ output_of out.old (turn_of unit reference.now symbols.now counts.now state line.now) }
{
    if out.len() <= ListedLine::DIGITS {
        return Turned {
            added: Added::NoRoom,
            state,
        };
    }
    if state.number < unit.records {
        return record_turn(unit, reference, symbols, counts, state, line, out);
    }
    last_turn(unit, counts, state, line, out)
}
