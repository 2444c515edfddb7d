// How much a record may have, and from it how long its frame and its 04 line may be: each sum is made of its parts, so that a new field moves one number.
#![tactic(auto)]

ghost use Rattle.std.specs.Prelude.{◌≡◌, [], ◌∷◌};
ghost use Rattle.limits.specs.Limits.{most_segments, most_read, most_edits, most_pieces, most_splice, most_ecigar, record_fields, block_fields, edit_bytes, most_frame, segment_fields, most_segment_bytes};

#[derive(Clone, Copy)]
pub struct Limit {}

impl Limit {
    // The most segments of a record.
    pub const SEGMENTS: usize = 2;

    // The longest read.
    pub const READ: usize = 1_000;

    // The most edits of a segment.
    pub const EDITS: usize = 1_000;

    // The most pieces of a read over introns.
    pub const PIECES: usize = 16;

    // The longest splice in an E-CIGAR: a count of ten digits, and its sign.
    pub const SPLICE: usize = 11;

    // The longest E-CIGAR: two characters a base and an edit, two clips of seven, and the splices between the pieces.
    pub const ECIGAR: usize = 2 * Limit::READ
        + 2 * Limit::EDITS
        + 14
        + (Limit::PIECES - 1) * Limit::SPLICE;

    // The bytes of a record's frame besides its blocks: kind and pos.
    pub const RECORD_FIELDS: usize = 5;

    // The bytes of a block besides its soft-clipped bases and edits: read length, rcomp, the number of pieces and their lengths, four clips and the edit count.
    pub const BLOCK_FIELDS: usize = 14 + 2 * Limit::PIECES;

    // The bytes of the longest edit: offset, type and symbol.
    pub const EDIT: usize = 4;

    // The longest block: at least one base of the read is not clipped.
    const BLOCK: usize = Limit::BLOCK_FIELDS + (Limit::READ - 1) + Limit::EDITS * Limit::EDIT;

    // The longest frame of a record line.
    pub const FRAME: usize = Limit::RECORD_FIELDS + Limit::SEGMENTS * Limit::BLOCK;

    // The bytes of a listed segment besides its bases and E-CIGAR: position, rcomp, read length and E-CIGAR length.
    pub const SEGMENT_FIELDS: usize = 9;

    // The most bytes that list a segment.
    pub const SEGMENT: usize = Limit::SEGMENT_FIELDS + Limit::READ + Limit::ECIGAR;

    // Each number is its name in specs/: proved, and called by nothing. Every crate with numbers has such a function, since what ties them are names of its own.
    fn tied() -> [usize; 12]
        ensures { result ≡ most_segments ∷ most_read ∷ most_edits ∷ most_pieces ∷ most_splice ∷ most_ecigar ∷ record_fields ∷ block_fields ∷ edit_bytes ∷ most_frame ∷ segment_fields ∷ most_segment_bytes ∷ [] }
    {
        [
            Limit::SEGMENTS,
            Limit::READ,
            Limit::EDITS,
            Limit::PIECES,
            Limit::SPLICE,
            Limit::ECIGAR,
            Limit::RECORD_FIELDS,
            Limit::BLOCK_FIELDS,
            Limit::EDIT,
            Limit::FRAME,
            Limit::SEGMENT_FIELDS,
            Limit::SEGMENT,
        ]
    }
}
