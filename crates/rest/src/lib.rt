// The lines of a listing behind its first, gathered as they are made: one call a line of the unit file.
#![tactic(auto)]

ghost use Rattle.std.specs.Prelude.{◌≡◌, length};
ghost use Rattle.opening.specs.Files.{SameFront};

use decoder::{Added, turn};
use opening::files::{FrontRead, OpenFiles};
use program::sink::Gathered;
use program::system::Failed;
use refusal::Refusal;
use state::State;
use unit::Unit;

// The next line of the unit file, or its end, an empty slice: the line that it adds is gathered. Whether others follow.
fn step(
    unit: Unit,
    files: &mut OpenFiles,
    state: &mut State,
    lines: &mut Gathered,
) -> Result<bool, Failed>
    ensures front { SameFront files.old files.new }
    ensures long { length lines.new.out.now ≡ length lines.old.out.now }
{
    let counts = files.counts;
    let line = files.take(lines.rt)?;
    let at = lines.make_room()?;
    let turned = turn(
        unit,
        files.reference,
        files.symbols,
        &counts,
        *state,
        &files.buf[line],
        &mut lines.out[at..],
    );
    *state = turned.state;
    match turned.added {
        Added::Go(n) => {
            lines.grow(n)?;
            Ok(true)
        }
        Added::Stop(n) => {
            lines.grow(n)?;
            Ok(false)
        }
        // Nothing is written from then on.
        Added::NoRoom => {
            lines.add(Err(Refusal::NoRoom))?;
            Ok(false)
        }
    }
}

// The lines from a state on, where the unit file stands at its record: a turn for each record that is left, and one for the last line.
// No `for`: that every listing ends is the loop's measure, and a turn that is not taken off is refused by it (must-fail/turns_never_end).
fn records(
    unit: Unit,
    files: &mut OpenFiles,
    state: State,
    lines: &mut Gathered,
) -> Result<(), Failed>
    ensures front { SameFront files.old files.new }
    ensures long { length lines.new.out.now ≡ length lines.old.out.now }
{
    let mut left = unit.records.saturating_sub(state.number) as usize + 1;
    let mut state = state;
    while left > 0 {
        if !step(unit, files, &mut state, lines)? {
            break;
        }
        left -= 1;
    }
    Ok(())
}

// The record lines before the state's are passed over; where they run out, the next one is missing.
fn records_from(
    unit: Unit,
    files: &mut OpenFiles,
    state: State,
    lines: &mut Gathered,
) -> Result<(), Failed>
    ensures front { SameFront files.old files.new }
    ensures long { length lines.new.out.now ≡ length lines.old.out.now }
{
    let number = state.number;
    if files.pass_lines(lines.rt, number as usize)? > 0 {
        lines.add_refused(number, u32::from(Refusal::Missing))?;
        return Ok(());
    }
    records(unit, files, state, lines)
}

// The lines behind the first, from a state on. All that is gathered is written.
pub fn rest(files: &mut OpenFiles, state: State, lines: &mut Gathered) -> Result<(), Failed>
    ensures front { SameFront files.old files.new }
    ensures long { length lines.new.out.now ≡ length lines.old.out.now }
{
    match files.front {
        FrontRead::Ready(unit) => records_from(unit, files, state, lines)?,
        FrontRead::Unpaired(_, n) => {
            lines.add_refused(0, n)?;
        }
        FrontRead::Alone(_) | FrontRead::Unread => {}
    }
    lines.flush()
}
