// The first byte of a line says what the line is. No enum: a reader compares the byte with the kind that it wants, and every other byte, of no line too, goes one way.
ghost use Rattle.std.specs.Prelude.{◌≡◌, [], ◌∷◌};
ghost use Rattle.unit.specs.Kinds.{kind_unit, kind_pair, kind_record, kind_listed, kind_refused, kind_done, kind_reference};

#[derive(Clone, Copy)]
pub struct Kind {}

impl Kind {
    pub const UNIT: u32 = 1;

    pub const PAIR: u32 = 2;

    pub const RECORD: u32 = 3;

    // A record of the listing.
    pub const LISTED: u32 = 4;

    // The listing's last line, at a refusal.
    pub const REFUSED: u32 = 5;

    // The listing's last line, where nothing is refused.
    pub const DONE: u32 = 6;

    pub const REFERENCE: u32 = 7;

    // Each number is its name in specs/: proved, and called by nothing.
    fn tied() -> [u32; 7]
        ensures { result ≡ kind_unit ∷ kind_pair ∷ kind_record ∷ kind_listed ∷ kind_refused ∷ kind_done ∷ kind_reference ∷ [] }
    {
        [
            Kind::UNIT,
            Kind::PAIR,
            Kind::RECORD,
            Kind::LISTED,
            Kind::REFUSED,
            Kind::DONE,
            Kind::REFERENCE,
        ]
    }
}
