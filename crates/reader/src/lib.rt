// A reading place that remembers the frame it reads and how far it has come: a struct that holds the frame's slice.
// Each function over it takes it apart and calls one on the slice and the number.
#![tactic(auto)]

pub mod head;

ghost use Rattle.std.specs.Prelude.{◌≡◌};
ghost use Rattle.frame.specs.Field.{field_at};
ghost use Rattle.reader.specs.Code.Reading.{width_bytes, behind, at_front, further};

use frame::field::Cursor;
use refusal::Refusal;

// The frame, and how many of its bytes are read.
#[derive(Clone, Copy)]
pub struct Reader<'a>(&'a [u8], usize);

// How wide a field is.
#[derive(Clone, Copy)]
pub enum Width {
    U8,
    U16,
    U32,
}

// The field at a place of the frame.
fn field_at(frame: &[u8], at: usize, w: Width) -> Result<(u32, Cursor), Refusal>
    ensures { result ≡ field_at (width_bytes w) frame.now at }
{
    match w {
        Width::U8 => frame::field::read_u8(frame, Cursor { at }),
        Width::U16 => frame::field::read_u16(frame, Cursor { at }),
        Width::U32 => frame::field::read_u32(frame, Cursor { at }),
    }
}

// The place behind a field; where the frame ended before it, the place as it was.
fn place_behind(f: Result<(u32, Cursor), Refusal>, at: usize) -> usize
    ensures { result ≡ behind f at }
{
    f.map_or(at, |(_, c)| c.at)
}

impl<'a> Reader<'a> {
    // At the front of a frame.
    pub fn front(frame: &'a [u8]) -> Reader<'a>
        ensures { result ≡ at_front frame.entry }
    {
        Reader(frame, 0)
    }

    // The next field, and the place moves behind it; where the frame ends before it is complete, the place stays.
    pub fn field(&mut self, w: Width) -> Result<(u32, Cursor), Refusal>
        ensures { (result ≡ field_at (width_bytes w) self.old.0.now self.old.1) × (self.new ≡ further self.old result) }
    {
        let at = self.1;
        let f = field_at(self.0, at, w);
        self.1 = place_behind(f, at);
        f
    }
}
