// Passing over lines by their 0A, in pieces of any size.
ghost use Rattle.std.specs.Prelude.{◌≡◌};
ghost use Rattle.resuming.specs.Pass.{pass_over};

use frame::line::Line;

// How many bytes of a piece are passed over, and how many 0A are wanted behind it.
#[derive(Clone, Copy)]
pub struct Passed {
    pub at: usize,
    pub left: usize,
}

// Passes over the bytes of a piece until 0A went by `want` times.
pub fn pass(piece: &[u8], want: usize) -> Passed
    ensures { result ≡ pass_over want piece.now }
{
    if want == 0 {
        return Passed { at: 0, left: 0 };
    }
    let mut left = want;
    for (i, &b) in piece.iter().enumerate() {
        if b == Line::END {
            left -= 1;
            if left == 0 {
                return Passed { at: i + 1, left };
            }
        }
    }
    Passed {
        at: piece.len(),
        left,
    }
}
