// A segment of a record: read and checked whole, then written.
#![tactic(auto)]

mod spliced;
pub mod write;

ghost use Rattle.std.specs.Prelude.{◌≡◌, List, ℕ, ◌+◌, ◌^◌, ◌<◌, ◌≤◌};
ghost use Rattle.splices.specs.Code.Walk.{NarrowSplices};
ghost use Rattle.ecigar.specs.Ecigar.{clips_length};
ghost use Rattle.block.specs.Code.Ready.{ReadyHead};
ghost use Rattle.segment.specs.Segment.{placed_at, placed, plain_at};
ghost use Rattle.segment.specs.Code.Length.{segment_length};
ghost use Rattle.segment.specs.Code.Ready.{Tallied};
ghost use Rattle.segment.specs.Code.Whole.{under_matches, whole_at};

use block::aligned::{AlignedBlock, read_block};
use block::head::BlockHead;
use block::unaligned;
use block::unaligned::UnalignedBlock;
use edits::{Block, Clips, run_of};
use frame::field::Cursor;
use limits::Limit;
use pieces::check::check_pieces;
use refusal::Refusal;
use splices::Splices;
use unit::Unit;

// An aligned segment at its position, with its pieces and the length of its E-CIGAR.
#[derive(Clone, Copy)]
pub struct Placed {
    pub block: Block,
    pub splices: Splices,
    pub position: u32,
    pub text: u32,
}

// What a record has of a segment.
#[derive(Clone, Copy)]
pub enum Segment {
    Aligned(Placed),
    Unaligned(UnalignedBlock),
    Absent,
}

impl Segment {
    // How many bytes list it.
    pub fn bytes(self) -> usize
        ensures { result ≡ segment_length self }
    {
        match self {
            Segment::Aligned(p) => {
                Limit::SEGMENT_FIELDS + p.block.length as usize + p.text as usize
            }
            Segment::Unaligned(s) => Limit::SEGMENT_FIELDS + s.length as usize,
            Segment::Absent => 0,
        }
    }
}

// An aligned segment behind the head of its block: the block's fields, then piece by piece its place in the unit (13) and the reference under its matches (10).
pub fn read_aligned(
    frame: &[u8],
    unit: Unit,
    reference: &[u8],
    symbols: &[u32],
    position: u64,
    head: BlockHead,
) -> Result<(Segment, Cursor), Refusal>
    requires ready_head { ReadyHead unit.class frame.now head }
    requires position_bound { position < 2 ^ 33 }
    ensures { result ≡ placed_at unit reference.now symbols.now frame.now position head }
{
    // No `?`: where the call has a case for a refusal, one that tells another number is refused by the number (must-fail/position_for_the_blocks_refusal).
    match read_block(frame, unit.class, unit.alphabet, head) {
        Err(refusal) => Err(refusal),
        Ok(a) => place_block(frame, unit, reference, symbols, position, a),
    }
}

// A read over introns goes piece by piece. A test and two calls, here and in `write`: they take other values and promise other things, so no closure is plainer.
fn place_block(
    frame: &[u8],
    unit: Unit,
    reference: &[u8],
    symbols: &[u32],
    position: u64,
    a: AlignedBlock,
) -> Result<(Segment, Cursor), Refusal>
    requires tallied { Tallied unit.class unit.alphabet frame.now a }
    requires position_bound { position < 2 ^ 33 }
    ensures { result ≡ placed unit reference.now symbols.now frame.now position a }
{
    if a.splices.pieces() < 2 {
        return place_whole(frame, unit, reference, position, a);
    }
    place_pieces(frame, unit, reference, symbols, position, a)
}

// Refusal 10 of the reference under the matches of a block that was accepted.
// Every position that it takes is looked at at once, and the matches alone only where that finds something.
// pieces' `under_piece` does the same of a piece; one function for both would take ten values, which is no plainer.
fn under_matches(
    frame: &[u8],
    unit: Unit,
    reference: &[u8],
    position: u32,
    a: AlignedBlock,
) -> Result<(), Refusal>
    requires { Tallied unit.class unit.alphabet frame.now a }
    ensures { result ≡ under_matches unit reference.now frame.now position a.block }
{
    let found = bases::check_positions(reference, unit.first, unit.alphabet, position, a.taken);
    if found.is_ok() {
        return found;
    }
    let run = run_of(a.block);
    bases::check_reference(
        reference,
        unit.first,
        unit.alphabet,
        position,
        frame,
        unit.class,
        run,
    )
}

// A segment at its position, with the length of its E-CIGAR.
fn whole(a: AlignedBlock, position: u32, text: u32) -> (Segment, Cursor)
    ensures { result ≡ whole_at a position text }
{
    let whole = Placed {
        block: a.block,
        splices: a.splices,
        position,
        text,
    };
    (Segment::Aligned(whole), a.next)
}

// A block of one piece: what its edits take and how long its text is was counted when they were read.
fn place_whole(
    frame: &[u8],
    unit: Unit,
    reference: &[u8],
    position: u64,
    a: AlignedBlock,
) -> Result<(Segment, Cursor), Refusal>
    requires { Tallied unit.class unit.alphabet frame.now a × (a.splices.count < 2) }
    ensures { (symbols : List ℕ) → result ≡ placed unit reference.now symbols frame.now position a }
{
    pieces::place::check(unit, position, a.taken)?;
    let start = position as u32;
    under_matches(frame, unit, reference, start, a)?;
    Ok(whole(a, start, a.text))
}

// The length of a text, and of the clips around it.
fn with_clips(text: u32, clips: Clips) -> u32
    requires { text ≤ 5000 }
    ensures { result ≡ text + clips_length clips }
{
    text + ecigar::clip::clips_len(clips)
}

// A read over introns: each piece in its turn.
fn place_pieces(
    frame: &[u8],
    unit: Unit,
    reference: &[u8],
    symbols: &[u32],
    position: u64,
    a: AlignedBlock,
) -> Result<(Segment, Cursor), Refusal>
    requires tallied { Tallied unit.class unit.alphabet frame.now a × ((2 ≤ a.splices.count) × NarrowSplices a.splices) }
    requires position_bound { position < 2 ^ 33 }
    ensures { result ≡ placed unit reference.now symbols.now frame.now position a }
{
    let text = check_pieces(
        frame, unit, reference, symbols, a.block, a.splices, position,
    )?;
    Ok(whole(a, position as u32, with_clips(text, a.block.clips)))
}

// An unaligned segment.
pub fn read_unaligned(frame: &[u8], unit: Unit, c: Cursor) -> Result<(Segment, Cursor), Refusal>
    ensures { result ≡ plain_at unit frame.now c.at }
{
    let u = unaligned::read(frame, unit.alphabet, c)?;
    Ok((Segment::Unaligned(u), u.next))
}
