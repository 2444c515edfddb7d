// Reads over introns: the symbols that a read's pieces take (Table 62), where each piece maps, and the pieces one by one.
#![tactic(auto)]

pub mod mapping;
pub mod take;
pub mod walk;

ghost use Rattle.std.specs.Prelude.{◌≡◌};
ghost use Rattle.splices.specs.Located.{unspliced};
ghost use Rattle.splices.specs.Code.Walk.{NarrowSplices};

// How many pieces a read has, where their lengths stand in the frame, and where their symbols stand: how many of subsequences 0, 1 and 3 are taken before them.
// Places and no slices, also in `PieceWalk` and `Mapping`: a table or a frame may end before them, and then 0 stands there (`symbol_at`, `big_at` in specs/).
#[derive(Clone, Copy)]
pub struct Splices {
    pub lengths_at: usize,
    pub count: u32,
    pub codes: u32,
    pub deltas: u32,
    pub places: u32,
}

impl Splices {
    // A read of one piece, in the classes that have no splices. No Option: its pieces are counted like any other's (`unspliced` in specs/).
    pub fn none() -> Splices
        ensures { result ≡ unspliced }
    {
        Splices {
            count: 1,
            lengths_at: 0,
            codes: 0,
            deltas: 0,
            places: 0,
        }
    }

    // How many pieces the read has. That its numbers fit their types is told with it.
    pub fn pieces(self) -> u32
        ensures { (result ≡ self.count) × NarrowSplices self }
    {
        self.count
    }
}
