// The lines of a listing: how long they are, and where an 04 line has what is read back from it.
ghost use Rattle.std.specs.Prelude.{◌≡◌, [], ◌∷◌};
ghost use Rattle.state.specs.Listed.{number_place, index_place, head_bytes, link_fields, least_listed, most_listed};

use crate::State;
use limits::Limit;

#[derive(Clone, Copy)]
pub struct ListedLine {}

impl ListedLine {
    // Where an 04 line has its record number, and its first index.
    pub const NUMBER: usize = 1;

    pub const INDEX: usize = 3;

    // The bytes of its head: kind, record number and the indexes.
    pub const HEAD: usize = ListedLine::INDEX + 2 * State::INDEXES;

    // The bytes between the head and the segments: what the pair symbols say.
    pub const LINK: usize = 9;

    // The fewest bytes of an 04 line, those before its segments.
    pub const LEAST: usize = ListedLine::HEAD + ListedLine::LINK;

    // The most digits of a line.
    pub const DIGITS: usize = 2 * (ListedLine::LEAST + Limit::SEGMENTS * Limit::SEGMENT);

    // Each number is its name in specs/: proved, and called by nothing.
    fn tied() -> [usize; 6]
        ensures { result ≡ number_place ∷ index_place ∷ head_bytes ∷ link_fields ∷ least_listed ∷ most_listed ∷ [] }
    {
        [
            ListedLine::NUMBER,
            ListedLine::INDEX,
            ListedLine::HEAD,
            ListedLine::LINK,
            ListedLine::LEAST,
            ListedLine::DIGITS,
        ]
    }
}
