// The 04 line of a record that is checked, laid into the lent line.
ghost use Rattle.std.specs.Prelude.{◌≡◌, ◌+◌, ◌*◌, ◌≤◌, length};
ghost use Rattle.writing.specs.Lay.{Laid};
ghost use Rattle.state.specs.Listed.{listed_head};
ghost use Rattle.plan.specs.Code.Ready.{ReadyPlan};
ghost use Rattle.record.specs.Record.{link_bytes, listed_bytes};

use pairing::Link;
use plan::read::Plan;
use segment::write as segment_write;
use state::listed::ListedLine;
use state::{State, head};
use unit::Unit;
use writing::lay::put_bytes;

// The head: kind, record number, and the state after this record. A function of its own, so that a wrong head is refused by what it lays: whatever the number is, its room is the same.
fn put_head(out: &mut [u8], number: u32, next: State) -> usize
    requires { 2 * length (listed_head number next) ≤ length out.old }
    ensures { Laid out.old out.new 0 result (listed_head number next) }
{
    let bytes = head::bytes(number, next);
    put_bytes(out, 0, &bytes)
}

// What the pair symbols say: read1First, splitMate, the record's segments, and the mate's sequence id and position. Of a position past four bytes, which no accepted record has, these are the low four.
fn link_bytes(unit: Unit, pos: u32, link: Link) -> [u8; ListedLine::LINK]
    ensures { result ≡ link_bytes unit.sequence pos link }
{
    let sequence = link.mate_sequence(unit).to_be_bytes();
    let position = link.mate_position(pos).to_be_bytes();
    [
        link.first.to_be_bytes()[3],
        link.split.to_be_bytes()[3],
        link.segments.to_be_bytes()[3],
        sequence[2],
        sequence[3],
        position[4],
        position[5],
        position[6],
        position[7],
    ]
}

// The bytes of an 04 line: its head, its link, its segments. The rest of the line is lent on for the second segment.
pub(crate) fn write(
    out: &mut [u8],
    unit: Unit,
    reference: &[u8],
    symbols: &[u32],
    frame: &[u8],
    number: u32,
    next: State,
    p: Plan,
) -> usize
    requires ready_plan { ReadyPlan unit reference.now symbols.now frame.now p }
    requires p_in_bounds { 2 * length (listed_bytes unit reference.now symbols.now frame.now number next p) ≤ length out.old }
    ensures { Laid out.old out.new 0 result (listed_bytes unit reference.now symbols.now frame.now number next p) }
{
    let first = p.first;
    let second = p.second;
    let a = put_head(out, number, next);
    let b = put_bytes(out, a, &link_bytes(unit, p.pos, p.link));
    let c = segment_write::write(out, b, frame, unit, reference, symbols, first);
    let d = segment_write::write(&mut out[c..], 0, frame, unit, reference, symbols, second);
    c + d
}
