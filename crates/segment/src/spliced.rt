// A read over introns, written: its pieces one behind the other, and its clips around them.
ghost use Rattle.std.specs.Prelude.{◌≡◌, ◌+◌, ◌*◌, ◌≤◌, length};
ghost use Rattle.writing.specs.Lay.{Laid};
ghost use Rattle.splices.specs.Code.Walk.{NarrowSplices};
ghost use Rattle.segment.specs.Segment.{table94, bases_listed};
ghost use Rattle.segment.specs.Code.Ready.{ReadyAligned};

use crate::Placed;
use bases::letters::put_letters;
use ecigar::clip::put_clip;
use pieces::write::{write_bases, write_text};
use unit::Unit;

// The bases: left soft clip, pieces, right soft clip. Clips stand around a whole run in `bases::write` also: the middle differs, and to hand it over as a function is no plainer.
pub(crate) fn put_bases(
    out: &mut [u8],
    at: usize,
    frame: &[u8],
    unit: Unit,
    reference: &[u8],
    symbols: &[u32],
    p: Placed,
) -> usize
    requires ready_aligned { ReadyAligned unit symbols.now frame.now p × ((2 ≤ p.splices.count) × NarrowSplices p.splices) }
    requires p_in_bounds { at + 2 * length (bases_listed unit reference.now symbols.now frame.now p) ≤ length out.old }
    ensures { Laid out.old out.new at result (bases_listed unit reference.now symbols.now frame.now p) }
{
    let block = p.block;
    let clips = block.clips;
    let left = block.soft_at;
    let right = left + clips.left_soft as usize;
    let end = right + clips.right_soft as usize;
    let mapped = put_letters(out, at, frame, unit.alphabet, left, right);
    let behind = write_bases(
        out, mapped, frame, unit, reference, symbols, block, p.splices, p.position,
    );
    put_letters(out, behind, frame, unit.alphabet, right, end)
}

// The text: left clip, pieces with their splices, right clip; beside `ecigar::text::write` for the same reason.
pub(crate) fn put_ecigar(
    out: &mut [u8],
    at: usize,
    frame: &[u8],
    unit: Unit,
    symbols: &[u32],
    p: Placed,
) -> usize
    requires ready_aligned { ReadyAligned unit symbols.now frame.now p × ((2 ≤ p.splices.count) × NarrowSplices p.splices) }
    requires p_in_bounds { at + 2 * length (table94 unit symbols.now frame.now p) ≤ length out.old }
    ensures { Laid out.old out.new at result (table94 unit symbols.now frame.now p) }
{
    let block = p.block;
    let clips = block.clips;
    let left = put_clip(out, at, clips.left_soft as u32, clips.left_hard as u32);
    let right = write_text(
        out, left, frame, unit, symbols, block, p.splices, p.position,
    );
    put_clip(out, right, clips.right_soft as u32, clips.right_hard as u32)
}
