// The edits of an aligned block: read from the frame in place, and refused one by one.
ghost use Rattle.std.specs.Prelude.{◌≡◌, true, [], ◌∷◌, ◌+◌, ◌<◌, ◌≤◌, length};
ghost use Rattle.edits.specs.Edits.{substitution, insertion, deletion, no_symbol, width_of, offset_at, edit_at, next_offset, edit_refusal, deletion_refusal};
ghost use Rattle.edits.specs.Code.Runs.{substitutes_only};

use limits::Limit;
use refusal::Refusal;
use unit::Unit;

// One edit, as Table 93 has it: mmOffsets[i], mmTypes[i], and the index of mms[i].
#[derive(Clone, Copy)]
pub struct Edit {
    pub offset: u16,
    pub kind: u8,
    pub symbol: u8,
}

impl Edit {
    // The types. No enum: `edit_at` (specs/) takes any byte of the frame as `kind`, and only `check` refuses it, by 11, in the order of refusals.
    pub const SUBSTITUTION: u8 = 0;

    pub const INSERTION: u8 = 1;

    pub const DELETION: u8 = 2;

    // The symbol that a deletion carries.
    pub const NONE: u8 = 0;
}

// Each type, and no symbol, is its name in specs/: proved, and called by nothing.
fn tied() -> [u8; 4]
    ensures { result ≡ substitution ∷ insertion ∷ deletion ∷ no_symbol ∷ [] }
{
    [
        Edit::SUBSTITUTION,
        Edit::INSERTION,
        Edit::DELETION,
        Edit::NONE,
    ]
}

// How many bytes an edit takes in a class.
pub fn width(class: u32) -> usize
    ensures { result ≡ width_of class }
{
    match class {
        Unit::N => 2,
        Unit::M => 3,
        _ => Limit::EDIT,
    }
}

// The offset of the edit at a place of the frame. Not frame's word_at: a test for each byte makes 144,508 instructions of 105,510 for 1,000 edits (docs/BENCHMARK.md).
pub(crate) fn offset_at(frame: &[u8], at: usize) -> u16
    requires { at + 2 ≤ length frame.now }
    ensures { result ≡ offset_at frame.now at }
{
    u16::from_be_bytes([frame[at], frame[at + 1]])
}

// Whether every edit of a class is a substitution.
pub fn substitutes(class: u32) -> bool
    ensures { result ≡ substitutes_only class }
{
    class == Unit::N || class == Unit::M
}

// The edit at a place of the frame, where every edit is a substitution. In class N it has no symbol of its own: the letter is N.
// It and the walks over it stand apart from those of `edit_at` for speed: as one, 1,000 edits of class M took 199,451 instructions, not 105,510 (docs/BENCHMARK.md).
pub fn substitution_at(frame: &[u8], class: u32, alphabet: u32, at: usize) -> Edit
    requires { (substitutes_only class ≡ true) × (at + width_of class ≤ length frame.now) }
    ensures { result ≡ edit_at class alphabet frame.now at }
{
    let offset = offset_at(frame, at);
    if class == Unit::N {
        return Edit {
            offset,
            kind: Edit::SUBSTITUTION,
            symbol: alphabet::index_of_n(alphabet) as u8,
        };
    }
    Edit {
        offset,
        kind: Edit::SUBSTITUTION,
        symbol: frame[at + 2],
    }
}

// The edit at a place of the frame.
pub fn edit_at(frame: &[u8], class: u32, alphabet: u32, at: usize) -> Edit
    requires { at + width_of class ≤ length frame.now }
    ensures { result ≡ edit_at class alphabet frame.now at }
{
    if substitutes(class) {
        return substitution_at(frame, class, alphabet, at);
    }
    Edit {
        offset: offset_at(frame, at),
        kind: frame[at + 2],
        symbol: frame[at + 3],
    }
}

// The least offset that may follow an edit.
pub fn next_offset(e: Edit) -> u32
    ensures { result ≡ next_offset e }
{
    if e.kind == Edit::DELETION {
        return e.offset as u32;
    }
    e.offset as u32 + 1
}

impl Edit {
    // Refusal 11, 10 or 12 of a complete edit, where the least offset that may stand here is `next`.
    pub fn check(self, next: u32, mapped: u32, symbols: u32) -> Result<(), Refusal>
        ensures { result ≡ edit_refusal mapped symbols next self }
    {
        let offset = self.offset as u32;
        if Edit::DELETION < self.kind {
            return Err(Refusal::FieldOut);
        }
        if self.kind == Edit::DELETION {
            return check_deletion(self.symbol, offset, next, mapped);
        }
        if symbols <= self.symbol as u32 {
            return Err(Refusal::SymbolOut);
        }
        if offset < next {
            return Err(Refusal::OffsetOut);
        }
        if mapped <= offset {
            return Err(Refusal::OffsetOut);
        }
        Ok(())
    }
}

// The same of a deletion, which brings no symbol, and whose offset may be the mapped length as far as this edit alone goes: whether it has a base behind it is told behind the last edit (flank.rt).
fn check_deletion(symbol: u8, offset: u32, next: u32, mapped: u32) -> Result<(), Refusal>
    ensures { result ≡ deletion_refusal mapped next symbol offset }
{
    if symbol != Edit::NONE {
        return Err(Refusal::FieldOut);
    }
    if offset < next {
        return Err(Refusal::OffsetOut);
    }
    if mapped < offset {
        return Err(Refusal::OffsetOut);
    }
    Ok(())
}
