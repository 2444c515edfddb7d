// The pieces of a read, one by one: each has its own bases, edits and position.
ghost use Rattle.std.specs.Prelude.{◌≡◌, ℕ, suc, ◌+◌, ◌*◌, ◌^◌, ◌<◌, ◌≤◌, length, get_or};
ghost use Rattle.edits.specs.Edits.{width_of};
ghost use Rattle.edits.specs.Code.Runs.{run_of};
ghost use Rattle.splices.specs.Code.Mapping.{RoomFor};
ghost use Rattle.splices.specs.Code.Walk.{cut_piece, first_piece, next_piece, Walkable, Begun};

use crate::Splices;
use crate::mapping::{Mapping, following_piece};
use edits::edit::width;
use edits::piece::count_before;
use edits::{Block, Run, run_of};
use frame::field::word_at;

// A piece: how many pieces are left from it on, where it begins and ends among the mapped bases, its edits and how many are behind them, where its length stands, and where it maps.
#[derive(Clone, Copy)]
pub struct PieceWalk {
    pub left: u32,
    pub start: u32,
    pub until: u32,
    pub edits: u32,
    pub edits_at: usize,
    pub behind: u32,
    pub lengths_at: usize,
    pub mapping: Mapping,
}

// A piece that ends at `until` and has the edits before it; the last ends with the mapped bases, and has all edits that are left.
fn cut_piece(
    frame: &[u8],
    class: u32,
    run: Run,
    left: u32,
    start: u32,
    until: u32,
    lengths_at: usize,
    mapping: Mapping,
) -> PieceWalk
    requires { run.edits_at + run.edits * width_of class ≤ length frame.now }
    ensures { result ≡ cut_piece class frame.now run left start until lengths_at mapping }
{
    if left < 2 {
        return PieceWalk {
            left,
            start,
            until: run.mapped,
            edits: run.edits,
            edits_at: run.edits_at,
            behind: 0,
            lengths_at,
            mapping,
        };
    }
    let edits = count_before(frame, class, run.edits_at, run.edits, until);
    PieceWalk {
        left,
        start,
        until,
        edits,
        edits_at: run.edits_at,
        behind: run.edits - edits,
        lengths_at,
        mapping,
    }
}

// The first piece of a read.
pub fn first_piece(
    frame: &[u8],
    class: u32,
    block: Block,
    splices: Splices,
    position: u64,
) -> PieceWalk
    requires { Begun class frame.now block splices }
    ensures { result ≡ first_piece class frame.now block splices position }
{
    let clips = block.clips;
    let run = run_of(block);
    let at = splices.lengths_at;
    let until = word_at(frame, at) - clips.left_soft as u32;
    let mapping = Mapping {
        above: position,
        below: 0,
        codes: splices.codes as usize,
        deltas: splices.deltas as usize,
        places: splices.places as usize,
    };
    cut_piece(frame, class, run, splices.count, 0, until, at, mapping)
}

// The piece behind one that is not the last.
pub fn next_piece(frame: &[u8], symbols: &[u32], class: u32, mapped: u32, w: PieceWalk) -> PieceWalk
    requires { Walkable class frame.now w }
    ensures { (result ≡ next_piece class frame.now symbols.now mapped w) × ((left : ℕ) → RoomFor (suc left) w.mapping → RoomFor left result.mapping) }
{
    let at = w.lengths_at;
    let behind = at + 2;
    let m = w.mapping;
    let length = word_at(frame, at);
    let mapping = following_piece(symbols, m, length);
    let run = Run {
        mapped,
        edits: w.behind,
        edits_at: w.edits_at + w.edits as usize * width(class),
    };
    let until = w.until + word_at(frame, behind);
    cut_piece(
        frame,
        class,
        run,
        w.left - 1,
        w.until,
        until,
        behind,
        mapping,
    )
}
