// The four clips of a block of class I or HM.
ghost use Rattle.std.specs.Prelude.{◌≡◌, ◌≤◌};
ghost use Rattle.block.specs.Clips.{clips_at, clips_in, clips_in_read, clips_in_pieces};

use edits::Clips;
use frame::field::{Cursor, read_u16, word_at};
use refusal::Refusal;
use splices::Splices;

// Left soft, left hard, right soft, right hard; refused once all four are read where the soft ones leave the read, or a piece of it, no base.
// The place behind them stands first in the answer, as the wider field: the compiler then keeps both out of memory (docs/BENCHMARK.md).
pub(crate) fn read_clips(
    frame: &[u8],
    length: u32,
    splices: Splices,
    c: Cursor,
) -> Result<(Cursor, Clips), Refusal>
    ensures { result ≡ clips_at frame.now length splices c.at }
{
    let (left_soft, c1) = read_u16(frame, c)?;
    let (left_hard, c2) = read_u16(frame, c1)?;
    let (right_soft, c3) = read_u16(frame, c2)?;
    let (right_hard, c4) = read_u16(frame, c3)?;
    let clips = Clips {
        left_soft: left_soft as u16,
        left_hard: left_hard as u16,
        right_soft: right_soft as u16,
        right_hard: right_hard as u16,
    };
    within(frame, clips, length, splices, c4)
}

fn within(
    frame: &[u8],
    clips: Clips,
    length: u32,
    splices: Splices,
    next: Cursor,
) -> Result<(Cursor, Clips), Refusal>
    ensures { result ≡ clips_in clips frame.now length splices next.at }
{
    if splices.count < 2 {
        return within_read(clips, length, next);
    }
    within_pieces(frame, clips, splices, next)
}

// A read of one piece: the soft clips together do not reach its length.
fn within_read(clips: Clips, length: u32, next: Cursor) -> Result<(Cursor, Clips), Refusal>
    ensures { result ≡ clips_in_read clips length next.at }
{
    if length <= clips.soft() {
        return Err(Refusal::ClipsOut);
    }
    Ok((next, clips))
}

// A read over introns: the left soft clip does not reach the first piece's length, nor the right one the last's.
fn within_pieces(
    frame: &[u8],
    clips: Clips,
    splices: Splices,
    next: Cursor,
) -> Result<(Cursor, Clips), Refusal>
    requires { 2 ≤ splices.count }
    ensures { result ≡ clips_in_pieces clips frame.now splices next.at }
{
    let first = splices.lengths_at;
    if word_at(frame, first) <= u32::from(clips.left_soft) {
        return Err(Refusal::ClipsOut);
    }
    let last = first + 2 * (splices.count as usize - 1);
    if word_at(frame, last) <= u32::from(clips.right_soft) {
        return Err(Refusal::ClipsOut);
    }
    Ok((next, clips))
}
