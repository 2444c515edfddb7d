// Where Table 93 stands between two edits.
ghost use Rattle.std.specs.Prelude.{◌≡◌, ◌<◌};
ghost use Rattle.edits.specs.Lengths.{most_edits};
ghost use Rattle.ecigar.specs.Ecigar.{set_out_at, joins_run, past};

use edits::edit::{Edit, next_offset};

// Table 93's previousOffset, and the run of insertions or deletions that is open: its type, as `Edit` has it, and how many edits it has.
#[derive(Clone, Copy)]
pub struct Walk {
    pub next: u32,
    pub kind: u8,
    pub run: u32,
}

impl Walk {
    // Before the first edit of a run whose first base stands at this offset.
    pub(crate) fn start_at(start: u32) -> Walk
        ensures { result ≡ set_out_at start }
    {
        Walk {
            next: start,
            kind: Edit::SUBSTITUTION,
            run: 0,
        }
    }
}

// Whether an edit goes on with the run that is open.
pub(crate) fn joins(w: Walk, e: Edit) -> bool
    ensures { result ≡ joins_run w e }
{
    if e.kind == Edit::SUBSTITUTION {
        return false;
    }
    if e.kind != w.kind {
        return false;
    }
    if e.offset as u32 != w.next {
        return false;
    }
    true
}

// The walk past an edit.
pub(crate) fn advance(w: Walk, e: Edit) -> Walk
    requires { w.run < most_edits }
    ensures { result ≡ past w e }
{
    let next = next_offset(e);
    if joins(w, e) {
        return Walk {
            next,
            kind: e.kind,
            run: w.run + 1,
        };
    }
    Walk {
        next,
        kind: e.kind,
        run: 1,
    }
}
