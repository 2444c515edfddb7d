// The listing's first line, by what the front of the files is.
ghost use Rattle.std.specs.Prelude.{◌≡◌, length};
ghost use Rattle.program.specs.Sink.{place_in};
ghost use Rattle.opening.specs.First.{first_wrote, first_into};

use crate::files::FrontRead;
use front::unit_line;
use listing::close;
use program::sink::Gathered;
use program::system::Failed;
use refusal::Refusal;

// The listing's first line, at the front of what is lent.
#[tactic(auto, unfolding(crate::specs::First::first_wrote, crate::specs::First::first_into))]
pub fn write_first(out: &mut [u8], front: FrontRead) -> Result<usize, Refusal>
    ensures value { result ≡ first_wrote out.old front }
    ensures out_after { out.new ≡ first_into out.old front }
{
    match front {
        FrontRead::Alone(n) => close::write_refused(out, 0, n),
        FrontRead::Unpaired(unit, _) | FrontRead::Ready(unit) => unit_line::write(out, unit),
        FrontRead::Unread => Err(Refusal::NoRoom),
    }
}

// That line is gathered. The answer is how many bytes are.
pub fn add_first(lines: &mut Gathered, front: FrontRead) -> Result<usize, Failed>
    ensures long { length lines.new.out.now ≡ length lines.old.out.now }
    ensures place { result ≡ place_in lines.new.sink.used }
{
    let at = lines.make_room()?;
    let wrote = write_first(&mut lines.out[at..], front);
    lines.add(wrote)
}
