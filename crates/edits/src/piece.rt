// Which edits belong to a piece of a read: those before its end. It is a function of its own, since the frame may come to say it otherwise.
ghost use Rattle.std.specs.Prelude.{◌≡◌, ℕ, ◌+◌, ◌*◌, ◌≤◌, length};
ghost use Rattle.edits.specs.Edits.{width_of, edit_list_at};
ghost use Rattle.edits.specs.Pieces.{edits_before};

use crate::edit::{offset_at, width};

// How many of so many edits stand before an offset, from the first on.
pub fn count_before(frame: &[u8], class: u32, at: usize, count: u32, offset: u32) -> u32
    requires { at + count * width_of class ≤ length frame.now }
    ensures { (result ≤ count) × ((alphabet : ℕ) → result ≡ length (edits_before offset (edit_list_at class alphabet frame.now count at))) }
{
    let step = width(class);
    let mut here = at;
    for before in 0..count {
        if offset <= u32::from(offset_at(frame, here)) {
            return before;
        }
        here += step;
    }
    count
}
