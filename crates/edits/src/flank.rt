// Whether every deletion of a read has a match or a substitution before it and one behind it, told while the edits are gone over one by one.
ghost use Rattle.std.specs.Prelude.{◌≡◌};
ghost use Rattle.edits.specs.Code.Flank.{past_base, past_deleted, flank_of, flank_past, open_end, flank_end};

use crate::edit::Edit;
use refusal::Refusal;

// How the deletions stand so far.
#[derive(Clone, Copy)]
pub enum Flank {
    // There is none, and no match or substitution before the place that was come to.
    Before,
    // Each has one before it and one behind it.
    Based,
    // The last of them has none behind it yet.
    Open,
    // Some deletion has none before it.
    Bare,
}

impl Flank {
    // Past a match or a substitution.
    fn past_base(self) -> Flank
        ensures { result ≡ past_base self }
    {
        match self {
            Flank::Before | Flank::Based | Flank::Open => Flank::Based,
            Flank::Bare => Flank::Bare,
        }
    }

    // Past a deletion.
    fn past_deleted(self) -> Flank
        ensures { result ≡ past_deleted self }
    {
        match self {
            Flank::Before | Flank::Bare => Flank::Bare,
            Flank::Based | Flank::Open => Flank::Open,
        }
    }

    // Past an edit of this kind. An inserted base is none that lies on the reference.
    fn past_kind(self, kind: u8) -> Flank
        ensures { result ≡ flank_of self kind }
    {
        if kind == Edit::DELETION {
            return self.past_deleted();
        }
        if kind == Edit::INSERTION {
            return self;
        }
        self.past_base()
    }

    // Past an edit, where the bases before offset `next` are behind us: with the match before it, if there is one.
    pub fn past(self, next: u32, e: Edit) -> Flank
        ensures { result ≡ flank_past self next e }
    {
        if next < e.offset as u32 {
            return self.past_base().past_kind(e.kind);
        }
        self.past_kind(e.kind)
    }

    // Refusal 12 behind the last edit, with the match behind it, if there is one.
    pub fn check(self, next: u32, mapped: u32) -> Result<(), Refusal>
        ensures { result ≡ flank_end self next mapped }
    {
        match self {
            Flank::Before | Flank::Based => Ok(()),
            Flank::Open => check_open(next, mapped),
            Flank::Bare => Err(Refusal::OffsetOut),
        }
    }
}

// The same where a deletion waits for a base behind it.
fn check_open(next: u32, mapped: u32) -> Result<(), Refusal>
    ensures { result ≡ open_end next mapped }
{
    if next < mapped {
        return Ok(());
    }
    Err(Refusal::OffsetOut)
}
