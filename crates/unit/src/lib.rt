// The unit, its pair symbols, and their limits.
#![tactic(auto)]

pub mod kind;

ghost use Rattle.std.specs.Prelude.{◌≡◌, [], ◌∷◌};
ghost use Rattle.unit.specs.Unit.{class_p, class_n, class_m, class_i, class_hm, class_u, last_alphabet, most_segments, largest16, most_records, most_reference, unit_refusal, least_segments};
ghost use Rattle.unit.specs.Pairs.{subsequences, most_symbols, table_length};

use limits::Limit;
use refusal::Refusal;

// The unit line's eight values.
#[derive(Clone, Copy)]
pub struct Unit {
    pub class: u32,
    pub alphabet: u32,
    pub segments: u32,
    pub sequence: u32,
    pub first: u32,
    pub start: u32,
    pub end: u32,
    pub records: u32,
}

impl Unit {
    // The classes, as the unit line numbers them. No enum, nor for alphabets: `class` and `alphabet` are public, C lends any number, and `check` refuses by 3.
    pub const P: u32 = 1;

    pub const N: u32 = 2;

    pub const M: u32 = 3;

    pub const I: u32 = 4;

    pub const HM: u32 = 5;

    pub const U: u32 = 6;

    // The last alphabet of Table 35.
    pub const ALPHABETS: u32 = 1;

    // The most template segments.
    pub const SEGMENTS: u32 = Limit::SEGMENTS as u32;

    // The largest value of 16 bits: no sequence id is above it, and no value used from pair subsequence 1, 4 or 5.
    pub const LARGEST16: u32 = 65_535;

    // The most records.
    pub const RECORDS: u32 = 1_024;

    // The most lent reference bases.
    pub const REFERENCE: usize = 32_768;

    // Each number is its name in specs/: proved, and called by nothing.
    fn tied() -> [u32; 10]
        ensures { result ≡ class_p ∷ class_n ∷ class_m ∷ class_i ∷ class_hm ∷ class_u ∷ last_alphabet ∷ most_segments ∷ largest16 ∷ most_records ∷ [] }
    {
        [
            Unit::P,
            Unit::N,
            Unit::M,
            Unit::I,
            Unit::HM,
            Unit::U,
            Unit::ALPHABETS,
            Unit::SEGMENTS,
            Unit::LARGEST16,
            Unit::RECORDS,
        ]
    }

    fn tied_reference() -> usize
        ensures { result ≡ most_reference }
    {
        Unit::REFERENCE
    }

    // The fewest template segments of a class.
    pub fn least_segments(class: u32) -> u32
        ensures { result ≡ least_segments class }
    {
        if class == Unit::HM { Unit::SEGMENTS } else { 1 }
    }

    // Whether each field is within its values; 3 where one is not.
    pub fn check(self) -> Result<(), Refusal>
        ensures { result ≡ unit_refusal self }
    {
        if self.class < Unit::P {
            return Err(Refusal::UnitOut);
        }
        if Unit::U < self.class {
            return Err(Refusal::UnitOut);
        }
        if Unit::ALPHABETS < self.alphabet {
            return Err(Refusal::UnitOut);
        }
        if Unit::SEGMENTS < self.segments {
            return Err(Refusal::UnitOut);
        }
        if self.segments < Unit::least_segments(self.class) {
            return Err(Refusal::UnitOut);
        }
        if self.end < self.start {
            return Err(Refusal::UnitOut);
        }
        if Unit::RECORDS < self.records {
            return Err(Refusal::UnitOut);
        }
        if Unit::LARGEST16 < self.sequence {
            return Err(Refusal::UnitOut);
        }
        Ok(())
    }
}

// The symbols of a unit's pair descriptor, lent as a flat table: symbol k of subsequence s stands at s * SYMBOLS + k.
#[derive(Clone, Copy)]
pub struct Pairs {}

impl Pairs {
    // How many subsequences there are.
    pub const SUBSEQUENCES: usize = 8;

    // The most symbols of a subsequence.
    pub const SYMBOLS: u32 = 1_024;

    // The places of the flat table.
    pub const TABLE: usize = Pairs::SUBSEQUENCES * (Pairs::SYMBOLS as usize);

    // Each number is its name in specs/: proved, and called by nothing.
    fn tied() -> [usize; 2]
        ensures { result ≡ subsequences ∷ table_length ∷ [] }
    {
        [Pairs::SUBSEQUENCES, Pairs::TABLE]
    }

    fn tied_symbols() -> u32
        ensures { result ≡ most_symbols }
    {
        Pairs::SYMBOLS
    }
}
