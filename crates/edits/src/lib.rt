// What a block of a record holds: a segment's length, clips and edits, and where they stand in the frame; where its deletions may stand.
#![tactic(auto)]

pub mod edit;
pub mod flank;
pub mod piece;

ghost use Rattle.std.specs.Prelude.{◌≡◌, [], ◌∷◌};
ghost use Rattle.edits.specs.Lengths.{most_read, most_edits, no_clips, soft_bases, mapped_length};
ghost use Rattle.edits.specs.Code.Runs.{run_of};

use limits::Limit;

// The clipped bases on both sides of a segment.
#[derive(Clone, Copy)]
pub struct Clips {
    pub left_soft: u16,
    pub left_hard: u16,
    pub right_soft: u16,
    pub right_hard: u16,
}

impl Clips {
    // Classes without clips. No Default: the name says what the zeros mean.
    pub fn none() -> Clips
        ensures { result ≡ no_clips }
    {
        Clips {
            left_soft: 0,
            left_hard: 0,
            right_soft: 0,
            right_hard: 0,
        }
    }

    // The soft-clipped bases of both sides.
    pub fn soft(self) -> u32
        ensures { result ≡ soft_bases self }
    {
        self.left_soft as u32 + self.right_soft as u32
    }
}

// An aligned segment as its block gives it. The soft-clipped bases and the edits stay in the frame, each at its place.
// Places and no slices, in `Run` too: `edit_list_at` and `letters_at` (specs/) name them. `rcomp` is a number, since it is listed as one (`aligned_bytes`).
#[derive(Clone, Copy)]
pub struct Block {
    pub length: u32,
    pub rcomp: u32,
    pub clips: Clips,
    pub soft_at: usize,
    pub edits: u32,
    pub edits_at: usize,
}

// A mapped run of a read: so many bases, and the edits of the frame that say where they differ from the reference.
#[derive(Clone, Copy)]
pub struct Run {
    pub mapped: u32,
    pub edits: u32,
    pub edits_at: usize,
}

impl Block {
    // The longest read.
    pub const READ: u32 = Limit::READ as u32;

    // The most edits of a segment.
    pub const EDITS: u32 = Limit::EDITS as u32;
}

// Each limit is its name in specs/: proved, and called by nothing.
fn tied() -> [u32; 2]
    ensures { result ≡ most_read ∷ most_edits ∷ [] }
{
    [Block::READ, Block::EDITS]
}

// The run between the clips. No From, nor for the run of a piece (`run_here`): it is a part of the block, and the block's other fields are lost.
pub fn run_of(block: Block) -> Run
    ensures { result ≡ run_of block }
{
    Run {
        mapped: mapped_length(block.length, block.clips),
        edits: block.edits,
        edits_at: block.edits_at,
    }
}

// The read length less both soft clips; 0 where they reach it.
fn mapped_length(length: u32, clips: Clips) -> u32
    ensures { result ≡ mapped_length length clips }
{
    length.saturating_sub(clips.soft())
}
