// Document 01's refusals and their numbers, in the order of its table.
#![tactic(auto)]

ghost use Rattle.std.specs.Prelude.{◌≡◌};
ghost use Rattle.refusal.specs.Numbers.{number_of};

// Why a line, or a call, is refused.
#[derive(Clone, Copy, Debug, PartialEq, Eq)]
pub enum Refusal {
    // Other digits, odd count, too long a line, or a last line without 0A.
    Malformed,
    // Wrong kind or subsequence number, a frame that ends before a field is complete, bytes left over, reference counts exceeded.
    Misframed,
    // A unit field outside its values.
    UnitOut,
    // A symbol count above its limit.
    CountOut,
    // A pair symbol is wanted and its subsequence is used up.
    UsedUp,
    // A pair code that Table 60 does not have.
    CodeOut,
    // A value taken from subsequence 1, 4 or 5 that does not fit 16 bits.
    ValueOut,
    // Read length 0 or above its limit.
    LengthOut,
    // Soft clips reach the read length.
    ClipsOut,
    // A symbol outside the alphabet, or such a reference byte under a match.
    SymbolOut,
    // Rcomp, edit type, edit count or deletion symbol outside its values.
    FieldOut,
    // Offset out of order or outside the read; a deletion with no match or substitution before it, or none behind it.
    OffsetOut,
    // A position outside the unit, or pos not 0 in class U.
    PositionOut,
    // Lines missing, bytes after the last record line, pair symbols left over, or a state that the unit does not have.
    Missing,
    // The first kept line is not the listing's first line.
    OtherFirst,
    // The last kept line cannot be continued.
    OtherLast,
    // Lent output shorter than the line with its 0A.
    NoRoom,
}

// Its number in the table.
impl From<Refusal> for u32 {
    ghost from_gives = { λ refusal n. n ≡ number_of refusal };

    fn from(refusal: Refusal) -> u32 {
        match refusal {
            Refusal::Malformed => 1,
            Refusal::Misframed => 2,
            Refusal::UnitOut => 3,
            Refusal::CountOut => 4,
            Refusal::UsedUp => 5,
            Refusal::CodeOut => 6,
            Refusal::ValueOut => 7,
            Refusal::LengthOut => 8,
            Refusal::ClipsOut => 9,
            Refusal::SymbolOut => 10,
            Refusal::FieldOut => 11,
            Refusal::OffsetOut => 12,
            Refusal::PositionOut => 13,
            Refusal::Missing => 14,
            Refusal::OtherFirst => 15,
            Refusal::OtherLast => 16,
            Refusal::NoRoom => 17,
        }
    }
}
