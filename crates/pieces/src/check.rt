// The pieces of a read, checked one by one behind its last edit: 13 for its place, then 10 for the reference. Nothing is written before all is known, so the check also answers how long the text will be.
ghost use Rattle.std.specs.Prelude.{◌≡◌, ◌+◌, ◌^◌, ◌<◌, ◌≤◌};
ghost use Rattle.limits.specs.Limits.{most_splice};
ghost use Rattle.edits.specs.Pieces.{begins_at, spliced_seg_mapped_length};
ghost use Rattle.splices.specs.Located.{pieces_in};
ghost use Rattle.splices.specs.Code.Walk.{piece_here};
ghost use Rattle.bases.specs.Spliced.{piece_refusal};
ghost use Rattle.pieces.specs.Code.Checked.{run_here, splice_text, piece_found, pieces_found, Within, ReadyPiece, Looked, WalkBegun};

use crate::place;
use ecigar::check::Extent;
use ecigar::splice::splice_len;
use edits::{Block, Run, run_of};
use refusal::Refusal;
use splices::Splices;
use splices::walk::{PieceWalk, first_piece, next_piece};
use unit::Unit;

// What an accepted piece comes to: the position behind it and the length of its text with the splice in front of it.
#[derive(Clone, Copy)]
pub struct PieceFound {
    pub end: u64,
    pub text: u32,
}

// A piece's bases and edits. No From, as for `run_of`.
pub(crate) fn run_here(w: PieceWalk) -> Run
    ensures { result ≡ run_here w }
{
    Run {
        mapped: w.until,
        edits: w.edits,
        edits_at: w.edits_at,
    }
}

// Refusal 10 of the reference under the matches of a piece: every position that it takes is looked at at once, and the matches alone only where that finds something.
fn under_piece(
    frame: &[u8],
    unit: Unit,
    reference: &[u8],
    position: u32,
    taken: u32,
    w: PieceWalk,
) -> Result<(), Refusal>
    requires ready_piece { ReadyPiece unit.class unit.alphabet frame.now w }
    requires position_value { (position ≡ begins_at (piece_here unit.class unit.alphabet frame.now w)) × (taken ≡ spliced_seg_mapped_length (piece_here unit.class unit.alphabet frame.now w)) }
    ensures { result ≡ piece_refusal unit.alphabet reference.now unit.first (piece_here unit.class unit.alphabet frame.now w) }
{
    if bases::check_positions(reference, unit.first, unit.alphabet, position, taken).is_ok() {
        return Ok(());
    }
    let run = run_here(w);
    bases::check_piece(
        reference,
        unit.first,
        unit.alphabet,
        position,
        w.start,
        frame,
        unit.class,
        run,
    )
}

// The characters of the splice in front of a piece; the first piece has none. It is known by the 0 with which `pieces_found` (specs/) begins, here and in `put_text`.
fn splice_text(position: u64, least: u64) -> u32
    requires { (position < 2 ^ 32) × (least ≤ position) }
    ensures { (result ≡ splice_text position least) × (result ≤ most_splice) }
{
    if least == 0 {
        return 0;
    }
    splice_len((position + 1 - least) as u32)
}

// A piece that takes so many positions, behind the least position that it may have.
fn settle_piece(
    frame: &[u8],
    unit: Unit,
    reference: &[u8],
    w: PieceWalk,
    least: u64,
    position: u64,
    extent: Extent,
) -> Result<PieceFound, Refusal>
    requires ready_piece { ReadyPiece unit.class unit.alphabet frame.now w }
    requires looked { Looked unit.alphabet (piece_here unit.class unit.alphabet frame.now w) least position extent.taken extent.text }
    ensures { (result ≡ piece_found unit reference.now least (piece_here unit.class unit.alphabet frame.now w)) × Within result }
{
    place::check(unit, position, extent.taken)?;
    under_piece(frame, unit, reference, position as u32, extent.taken, w)?;
    Ok(PieceFound {
        end: position + extent.taken as u64,
        text: splice_text(position, least) + extent.text,
    })
}

// One piece: where it starts, what its edits take, where it ends, and the reference under it.
fn check_piece(
    frame: &[u8],
    unit: Unit,
    reference: &[u8],
    w: PieceWalk,
    least: u64,
) -> Result<PieceFound, Refusal>
    requires { ReadyPiece unit.class unit.alphabet frame.now w }
    ensures { (result ≡ piece_found unit reference.now least (piece_here unit.class unit.alphabet frame.now w)) × Within result }
{
    let m = w.mapping;
    if m.above < m.below {
        return Err(Refusal::PositionOut);
    }
    let position = m.above - m.below;
    if position < least {
        return Err(Refusal::PositionOut);
    }
    let run = run_here(w);
    let extent = ecigar::check::check_piece(frame, unit.class, unit.alphabet, w.start, run)?;
    settle_piece(frame, unit, reference, w, least, position, extent)
}

// All pieces of a read at a position, in order: the length of its E-CIGAR without clips.
pub fn check_pieces(
    frame: &[u8],
    unit: Unit,
    reference: &[u8],
    symbols: &[u32],
    block: Block,
    splices: Splices,
    position: u64,
) -> Result<u32, Refusal>
    requires { WalkBegun unit.class unit.alphabet frame.now symbols.now block splices position }
    ensures { result ≡ pieces_found unit reference.now 0 0 (pieces_in unit.class unit.alphabet frame.now symbols.now block splices position) }
{
    let run = run_of(block);
    let mut w = first_piece(frame, unit.class, block, splices, position);
    let mut least: u64 = 0;
    let mut text: u32 = 0;
    loop {
        let found = check_piece(frame, unit, reference, w, least)?;
        text += found.text;
        if w.left <= 1 {
            return Ok(text);
        }
        least = found.end + 1;
        w = next_piece(frame, symbols, unit.class, run.mapped, w);
    }
}
