// The bases and the text of a read's pieces, laid one behind the other. What `check` accepted fits, so nothing fails here.
ghost use Rattle.std.specs.Prelude.{◌≡◌, ◌+◌, ◌*◌, ◌^◌, ◌<◌, ◌≤◌, length};
ghost use Rattle.limits.specs.Limits.{most_read, most_edits};
ghost use Rattle.writing.specs.Lay.{Laid};
ghost use Rattle.edits.specs.Pieces.{begins_at, spliced_seg_mapped_length, EachPiece};
ghost use Rattle.splices.specs.Located.{pieces_in};
ghost use Rattle.splices.specs.Code.Walk.{piece_here};
ghost use Rattle.bases.specs.Spliced.{piece_bases, pieces_bases};
ghost use Rattle.ecigar.specs.Table90.{print_all};
ghost use Rattle.pieces.specs.Placed.{least_behind};
ghost use Rattle.pieces.specs.Code.Checked.{operations_behind, ReadyPiece, WalkBegun};
ghost use Rattle.pieces.specs.Code.Written.{Standing, Ordered, operations_of_piece, gain_of};

use crate::check::run_here;
use ecigar::splice::put_splice;
use edits::edit::{Edit, edit_at, width};
use edits::{Block, run_of};
use splices::Splices;
use splices::walk::{PieceWalk, first_piece, next_piece};
use unit::Unit;

// The bases of one piece.
fn put_bases(
    out: &mut [u8],
    at: usize,
    frame: &[u8],
    unit: Unit,
    reference: &[u8],
    w: PieceWalk,
) -> usize
    requires ready_piece { ReadyPiece unit.class unit.alphabet frame.now w }
    requires standing { Standing (piece_here unit.class unit.alphabet frame.now w) }
    requires w_in_bounds { at + 2 * length (piece_bases unit.alphabet reference.now unit.first (piece_here unit.class unit.alphabet frame.now w)) ≤ length out.old }
    ensures { Laid out.old out.new at result (piece_bases unit.alphabet reference.now unit.first (piece_here unit.class unit.alphabet frame.now w)) }
{
    let m = w.mapping;
    let position = m.above - m.below;
    let run = run_here(w);
    bases::write_piece(
        out,
        at,
        reference,
        unit.first,
        unit.alphabet,
        position as u32,
        w.start,
        frame,
        unit.class,
        run,
    )
}

// The mapped bases of a read: those of its pieces, one behind the other.
pub fn write_bases(
    out: &mut [u8],
    at: usize,
    frame: &[u8],
    unit: Unit,
    reference: &[u8],
    symbols: &[u32],
    block: Block,
    splices: Splices,
    position: u32,
) -> usize
    requires walk_begun { WalkBegun unit.class unit.alphabet frame.now symbols.now block splices position }
    requires each_piece { EachPiece Standing (pieces_in unit.class unit.alphabet frame.now symbols.now block splices position) }
    requires position_in_bounds { at + 2 * length (pieces_bases unit.alphabet reference.now unit.first (pieces_in unit.class unit.alphabet frame.now symbols.now block splices position)) ≤ length out.old }
    ensures { Laid out.old out.new at result (pieces_bases unit.alphabet reference.now unit.first (pieces_in unit.class unit.alphabet frame.now symbols.now block splices position)) }
{
    let run = run_of(block);
    let mut w = first_piece(frame, unit.class, block, splices, position as u64);
    let mut next = at;
    for _ in 1..splices.count {
        next = put_bases(out, next, frame, unit, reference, w);
        w = next_piece(frame, symbols, unit.class, run.mapped, w);
    }
    put_bases(out, next, frame, unit, reference, w)
}

// What an edit takes of the reference less what it brings to the read, and one more.
fn gain(e: Edit) -> u32
    ensures { (result ≡ gain_of e) × (result ≤ 2) }
{
    if e.kind == Edit::INSERTION {
        return 0;
    }
    if e.kind == Edit::DELETION {
        return 2;
    }
    1
}

// The reference positions that a piece takes.
fn taken_by(frame: &[u8], unit: Unit, w: PieceWalk) -> u32
    requires { ReadyPiece unit.class unit.alphabet frame.now w }
    ensures { (result ≡ spliced_seg_mapped_length (piece_here unit.class unit.alphabet frame.now w)) × (result ≤ most_read + most_edits) }
{
    let step = width(unit.class);
    let mut taken = w.until - w.start;
    let mut at = w.edits_at;
    for _ in 0..w.edits {
        let e = edit_at(frame, unit.class, unit.alphabet, at);
        taken += gain(e);
        at += step;
    }
    taken - w.edits
}

// The least position that the piece behind one may have.
fn least_behind(frame: &[u8], unit: Unit, w: PieceWalk) -> u64
    requires ready_piece { ReadyPiece unit.class unit.alphabet frame.now w }
    requires standing { Standing (piece_here unit.class unit.alphabet frame.now w) }
    ensures { result ≡ least_behind (piece_here unit.class unit.alphabet frame.now w) }
{
    let taken = taken_by(frame, unit, w);
    let m = w.mapping;
    let position = m.above - m.below;
    position + taken as u64 + 1
}

// The text of one piece, with the splice in front of it; the first piece has none.
fn put_text(
    out: &mut [u8],
    at: usize,
    frame: &[u8],
    unit: Unit,
    rcomp: u32,
    w: PieceWalk,
    least: u64,
) -> usize
    requires ready_piece { ReadyPiece unit.class unit.alphabet frame.now w }
    requires standing { Standing (piece_here unit.class unit.alphabet frame.now w) × (least ≤ begins_at (piece_here unit.class unit.alphabet frame.now w)) }
    requires w_in_bounds { at + 2 * length (print_all (operations_of_piece unit.alphabet rcomp least (piece_here unit.class unit.alphabet frame.now w))) ≤ length out.old }
    ensures { Laid out.old out.new at result (print_all (operations_of_piece unit.alphabet rcomp least (piece_here unit.class unit.alphabet frame.now w))) }
{
    let run = run_here(w);
    let class = unit.class;
    let alphabet = unit.alphabet;
    if least == 0 {
        return ecigar::text::write_piece(out, at, frame, class, alphabet, w.start, run);
    }
    let m = w.mapping;
    let position = m.above - m.below;
    let next = put_splice(out, at, rcomp, (position + 1 - least) as u32);
    ecigar::text::write_piece(out, next, frame, class, alphabet, w.start, run)
}

// The text of a read without its clips: that of its pieces, each behind the splice in front of it.
pub fn write_text(
    out: &mut [u8],
    at: usize,
    frame: &[u8],
    unit: Unit,
    symbols: &[u32],
    block: Block,
    splices: Splices,
    position: u32,
) -> usize
    requires walk_begun { WalkBegun unit.class unit.alphabet frame.now symbols.now block splices position }
    requires each_piece { EachPiece Standing (pieces_in unit.class unit.alphabet frame.now symbols.now block splices position) × Ordered 0 (pieces_in unit.class unit.alphabet frame.now symbols.now block splices position) }
    requires position_in_bounds { at + 2 * length (print_all (operations_behind unit.alphabet block.rcomp 0 (pieces_in unit.class unit.alphabet frame.now symbols.now block splices position))) ≤ length out.old }
    ensures { Laid out.old out.new at result (print_all (operations_behind unit.alphabet block.rcomp 0 (pieces_in unit.class unit.alphabet frame.now symbols.now block splices position))) }
{
    let run = run_of(block);
    let mut w = first_piece(frame, unit.class, block, splices, position as u64);
    let mut least: u64 = 0;
    let mut next = at;
    for _ in 1..splices.count {
        next = put_text(out, next, frame, unit, block.rcomp, w, least);
        least = least_behind(frame, unit, w);
        w = next_piece(frame, symbols, unit.class, run.mapped, w);
    }
    put_text(out, next, frame, unit, block.rcomp, w, least)
}
