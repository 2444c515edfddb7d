// An aligned block behind its head: clips, soft-clipped bases, edits. Its place in the unit and the reference under it are looked at in segment.
ghost use Rattle.std.specs.Prelude.{◌≡◌};
ghost use Rattle.block.specs.Aligned.{aligned_at};
ghost use Rattle.block.specs.Code.Flow.{clips_by, edit_count};

use crate::checked::read_count;
use crate::clips::read_clips;
use crate::head::BlockHead;
use crate::symbols::read_symbols;
use edits::{Block, Clips, run_of};
use frame::field::Cursor;
use refusal::Refusal;
use splices::Splices;
use unit::Unit;

// A segment that its block gives, its pieces, the reference positions that it takes, the length of its E-CIGAR without splices, and the place behind the block.
#[derive(Clone, Copy)]
pub struct AlignedBlock {
    pub block: Block,
    pub splices: Splices,
    pub taken: u32,
    pub text: u32,
    pub next: Cursor,
}

// Only classes I and HM have clips.
fn clips_of(
    frame: &[u8],
    class: u32,
    length: u32,
    splices: Splices,
    c: Cursor,
) -> Result<(Cursor, Clips), Refusal>
    ensures { result ≡ clips_by class frame.now length splices c.at }
{
    if class < Unit::I {
        return Ok((c, Clips::none()));
    }
    read_clips(frame, length, splices, c)
}

// Class P has no edits.
fn edit_count(frame: &[u8], class: u32, c: Cursor) -> Result<(u32, Cursor), Refusal>
    ensures { result ≡ edit_count class frame.now c.at }
{
    if class == Unit::P {
        return Ok((0, c));
    }
    read_count(frame, c)
}

// The fields of an aligned block behind its head. One way for every class, with no clips where it has none: each step is called from one place, and the compiler lays all of them into one (docs/BENCHMARK.md).
pub fn read_block(
    frame: &[u8],
    class: u32,
    alphabet: u32,
    head: BlockHead,
) -> Result<AlignedBlock, Refusal>
    ensures { result ≡ aligned_at class alphabet frame.now head }
{
    let (bases, clips) = clips_of(frame, class, head.length, head.splices, head.next)?;
    let (_, behind) = read_symbols(frame, alphabet, clips.soft(), bases)?;
    let (edits, first) = edit_count(frame, class, behind)?;
    let block = Block {
        length: head.length,
        rcomp: head.rcomp,
        clips,
        soft_at: bases.at,
        edits,
        edits_at: first.at,
    };
    let extent = ecigar::check::check(frame, class, alphabet, run_of(block))?;
    Ok(AlignedBlock {
        block,
        splices: head.splices,
        taken: extent.taken,
        text: extent.text + ecigar::clip::clips_len(clips),
        next: Cursor {
            at: first.at + edits as usize * edits::edit::width(class),
        },
    })
}
