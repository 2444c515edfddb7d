// The pair descriptor's symbols, and what they say of a record's mate (Table 60).
#![tactic(auto)]

ghost use Rattle.std.specs.Prelude.{◌≡◌, ◌^◌, ◌<◌};
ghost use Rattle.pairing.specs.Table60.{mate_seq_id, mapping_pos};
ghost use Rattle.pairing.specs.Pairing.{pair_of};

use refusal::Refusal;
use state::State;
use taking::take;
use unit::Unit;

mod rows;

// Where the mate lies, as far as it is known before the record's own position is read.
#[derive(Clone, Copy)]
pub enum Mate {
    // No aligned mate.
    Unpaired,
    // In the same record, this far after its first segment.
    Near(u32),
    // In another record: its sequence id and position.
    Far(u32, u32),
}

// What a record's pair symbols say: read1First, splitMate, the record's segments, and its mate. All but the mate are only listed, as these numbers (`link_bytes`).
#[derive(Clone, Copy)]
pub struct Link {
    pub first: u32,
    pub split: u32,
    pub segments: u32,
    pub mate: Mate,
}

impl Link {
    fn new(first: u32, split: u32, segments: u32, mate: Mate) -> Link
        ensures { result ≡ record { first = first; split = split; segments = segments; mate = mate } }
    {
        Link {
            first,
            split,
            segments,
            mate,
        }
    }

    // The listed sequence id of the mate.
    pub fn mate_sequence(self, unit: Unit) -> u32
        ensures { result ≡ mate_seq_id unit.sequence self.mate }
    {
        match self.mate {
            Mate::Unpaired => 0,
            Mate::Near(_) => unit.sequence,
            Mate::Far(sequence, _) => sequence,
        }
    }

    // The listed position of the mate of a record at pos, wider than u32 so that the sum never wraps.
    pub fn mate_position(self, pos: u32) -> u64
        ensures value { result ≡ mapping_pos pos self.mate }
        ensures wide { result < 2 ^ 33 }
    {
        match self.mate {
            Mate::Unpaired => 0,
            Mate::Near(delta) => pos as u64 + delta as u64,
            Mate::Far(_, position) => position as u64,
        }
    }
}

// The record's link and the state with its pair symbols taken, or the first refusal.
pub fn pair(
    unit: Unit,
    symbols: &[u32],
    counts: &[u32],
    state: State,
) -> Result<(Link, State), Refusal>
    ensures { result ≡ pair_of unit symbols.now counts.now state }
{
    if unit.segments < Unit::SEGMENTS {
        return Ok((Link::new(1, 0, 1, Mate::Unpaired), state));
    }
    if unit.class == Unit::HM {
        return rows::half_mapped(symbols, counts, state);
    }
    let (code, next) = take(symbols, counts, state, 0)?;
    rows::by_code(unit.class, unit.sequence, symbols, counts, next, code)
}
