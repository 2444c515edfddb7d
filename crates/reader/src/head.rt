// The first fields of a record line, read with the held reader. Whoever calls it lends a plain slice.
ghost use Rattle.std.specs.Prelude.{◌≡◌};
ghost use Rattle.reader.specs.Head.{record_head};

use crate::{Reader, Width};
use frame::field::Cursor;
use refusal::Refusal;

// Kind and pos, each complete or short.
#[derive(Clone, Copy)]
pub struct Head {
    pub kind: Result<(u32, Cursor), Refusal>,
    pub pos: Result<(u32, Cursor), Refusal>,
}

pub fn read(frame: &[u8]) -> Head
    ensures { result ≡ record_head frame.now }
{
    let mut r = Reader::front(frame);
    let kind = r.field(Width::U8);
    let pos = r.field(Width::U32);
    Head { kind, pos }
}
