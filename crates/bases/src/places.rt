// Pointer R and pointer r of 10.6.1, and how each row of Table 90 moves them.
ghost use Rattle.std.specs.Prelude.{◌≡◌, ◌+◌, ◌-◌, ◌^◌, ◌<◌, ◌≤◌};
ghost use Rattle.bases.specs.Bases.{R, r, pointers, beginning, past_match, past_substitution, past_insertion, past_deletion, past_edit};
ghost use Rattle.bases.specs.Code.Helpers.{farthest};

use edits::edit::Edit;

// A position of the reference. It may lie behind the last position that 32 bits hold.
#[derive(Clone, Copy)]
pub struct RefPlace(pub u64);

// A place of the read, counted from its first mapped base.
#[derive(Clone, Copy)]
pub struct ReadPlace(pub u32);

// Both pointers.
#[derive(Clone, Copy)]
pub struct Places {
    pub reference: RefPlace,
    pub read: ReadPlace,
}

impl Places {
    // R at a piece's position, r at the mapped base that it begins with.
    pub(crate) fn at(position: u32, start: u32) -> Places
        ensures { result ≡ pointers position start }
    {
        let reference = RefPlace(position as u64);
        let read = ReadPlace(start);
        Places { reference, read }
    }

    // R at the segment's position, r at its first mapped base.
    pub(crate) fn beginning(position: u32) -> Places
        ensures { result ≡ beginning position }
    {
        Places::at(position, 0)
    }

    // How many bases match up to a place of the read.
    pub(crate) fn until(self, to: u32) -> u64
        ensures { result ≡ to - r self }
    {
        let read = self.read;
        u64::from(to).saturating_sub(u64::from(read.0))
    }

    // A match moves both.
    fn past_match(self, to: u32) -> Places
        requires { R self ≤ farthest }
        ensures { result ≡ past_match to self }
    {
        Places {
            reference: RefPlace(self.reference.0 + self.until(to)),
            read: ReadPlace(to),
        }
    }

    // A substitution moves both.
    fn past_substitution(self) -> Places
        requires { (R self + 1 < 2 ^ 64) × (r self + 1 < 2 ^ 32) }
        ensures { result ≡ past_substitution self }
    {
        Places {
            reference: RefPlace(self.reference.0 + 1),
            read: ReadPlace(self.read.0 + 1),
        }
    }

    // An insertion moves r alone.
    fn past_insertion(self) -> Places
        requires { r self + 1 < 2 ^ 32 }
        ensures { result ≡ past_insertion self }
    {
        Places {
            read: ReadPlace(self.read.0 + 1),
            ..self
        }
    }

    // A deletion moves R alone.
    fn past_deletion(self) -> Places
        requires { R self + 1 < 2 ^ 64 }
        ensures { result ≡ past_deletion self }
    {
        Places {
            reference: RefPlace(self.reference.0 + 1),
            ..self
        }
    }

    // The match up to an edit, then the edit's own row.
    pub(crate) fn past_edit(self, e: Edit) -> Places
        requires { R self ≤ farthest }
        ensures { result ≡ past_edit e self }
    {
        let met = self.past_match(e.offset as u32);
        if e.kind == Edit::INSERTION {
            return met.past_insertion();
        }
        if e.kind == Edit::DELETION {
            return met.past_deletion();
        }
        met.past_substitution()
    }
}
