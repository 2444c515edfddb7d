// A file that is read through a lent buffer, and never whole. The buffer is filled again as soon as it has less left than a longest line, so that a line always lies in it in one part.
ghost use Rattle.std.specs.Prelude.{◌≡◌, ◌+◌, length, IfOk, OnErr};
ghost use Rattle.frame.specs.Line.{line_digits};
ghost use Rattle.stream.specs.Source.{last_place, unread, handed_on, waiting_part, Held, WaitsFor, FailureTold, StaysFailed, line_bytes, HandedLine, HandedAll};
ghost use Rattle.stream.specs.Code.Filling.{Filled, Refilled};

use frame::line::{Line, Next, next_line};
use resuming::pass::pass;
use std::io::{Error, ErrorKind, Read, Result, Seek, SeekFrom};
use std::ops::Range;

// The last byte of a file that can be gone to.
const PLACES: usize = 9_223_372_036_854_775_807;

// The bytes of the buffer from `at` to `end` are read and not handed on yet; also behind an error, which tells of what follows them. Places and no slice: the buffer is lent at each call, since one serves all files (fixed memory).
#[derive(Drop)]
pub struct Source<R> {
    pub file: R,
    pub at: usize,
    pub end: usize,
    // There is nothing behind `end`: the file ends there, or cannot be read on. No value hangs on it, and `WaitsFor` in specs/ names it.
    pub ended: bool,
    // Why it cannot be read on. It is told at every call from then on, so that nobody takes the place for the file's end.
    pub failed: Option<Error>,
}

impl<R> Source<R> {
    // The number is its name in specs/: proved, and called by nothing.
    fn tied() -> usize
        ensures { result ≡ last_place }
    {
        PLACES
    }

    // A file from where it stands.
    pub fn new(file: R) -> Source<R>
        ensures { result ≡ unread file }
    {
        Source {
            file,
            at: 0,
            end: 0,
            ended: false,
            failed: None,
        }
    }

    // All that stands in the buffer and is not handed on yet. Nothing is read.
    pub fn waiting(&mut self) -> Range<usize>
        ensures { (result ≡ waiting_part self.old) × (self.new ≡ handed_on self.old) }
    {
        let part = self.at..self.end;
        self.at = part.end;
        part
    }
}

impl<R: Seek> Source<R> {
    fn seek_to(&mut self, place: usize) -> Result<u64> {
        if PLACES < place {
            return Err(Error::from(ErrorKind::InvalidInput));
        }
        self.file.seek(SeekFrom::Start(place as u64))
    }

    // The file from a byte on. What waited is dropped.
    pub fn go_to(&mut self, place: usize) -> Result<()>
        ensures held { Held 0 self.new }
        ensures told { FailureTold result self.new }
    {
        let gone = self.seek_to(place);
        self.at = 0;
        self.end = 0;
        self.ended = gone.is_err();
        self.failed = gone.err();
        gone.map(|_| ())
    }
}

// How many of these bytes are the first line. Where it is too long or has no 0A, they are enough to have it refused.
#[tactic(auto, unfolding(crate::specs::Source::line_bytes))]
fn line_bytes(left: &[u8]) -> usize
    ensures { result ≡ line_bytes left.now }
{
    match next_line(left) {
        Next::Whole(n) => n,
        Next::TooLong => Line::DIGITS + 1,
        Next::NoEnd => left.len(),
        Next::Nothing => 0,
    }
}

impl<R: Read> Source<R> {
    // Reads until the buffer is full or the file ends: a pipe hands over less than it is asked for.
    fn fill(&mut self, buf: &mut [u8]) -> Result<()>
        requires { Held (length buf.old) self.old }
        ensures { Filled buf.old self.old buf.new self.new }
    {
        self.ended = true;
        while self.end < buf.len() {
            let n = self.file.read(&mut buf[self.end..])?;
            if n == 0 {
                return Ok(());
            }
            self.end += n;
        }
        self.ended = false;
        Ok(())
    }

    // What is not handed on yet moves to the front of the buffer, and more is read behind it.
    fn refill(&mut self, buf: &mut [u8]) -> Result<()>
        requires { Held (length buf.old) self.old }
        ensures { Refilled buf.old self.old buf.new self.new }
    {
        buf.copy_within(self.at..self.end, 0);
        self.end -= self.at;
        self.at = 0;
        self.fill(buf)
    }

    // Sees to it that so many bytes stand in the buffer, or all that the file has left, or all that there is room for.
    pub fn ready(&mut self, buf: &mut [u8], wanted: usize) -> Result<()>
        ensures waits { WaitsFor wanted buf.old self.old buf.new self.new }
        ensures told { FailureTold result self.new }
        ensures stays_failed { StaysFailed (length buf.old) self.old result self.new }
    {
        if self.end < self.at || buf.len() < self.end {
            let cause = Error::from(ErrorKind::InvalidInput);
            self.at = 0;
            self.end = 0;
            self.ended = true;
            self.failed = Some(cause);
            return Err(cause);
        }
        if let Some(cause) = self.failed {
            self.ended = true;
            return Err(cause);
        }
        if self.ended || wanted <= self.end - self.at {
            return Ok(());
        }
        let read = self.refill(buf);
        self.failed = read.err();
        read
    }

    // The next line, where the buffer has room for a longest one; empty at the file's end. `take`, `piece` and `pass_piece` share `ready`: how much each hands on is all that is left of them.
    pub fn take(&mut self, buf: &mut [u8]) -> Result<Range<usize>>
        ensures ok { IfOk result (λ t. HandedLine buf.old self.old buf.new t self.new) }
        ensures err { OnErr result (WaitsFor (line_digits + 1) buf.old self.old buf.new self.new) }
        ensures told { FailureTold result self.new }
        ensures stays_failed { StaysFailed (length buf.old) self.old result self.new }
    {
        self.ready(buf, Line::DIGITS + 1)?;
        let from = self.at;
        let to = from + line_bytes(&buf[from..self.end]);
        self.at = to;
        Ok(from..to)
    }

    // All that stands in the buffer, which is filled where nothing does; empty at the file's end.
    pub fn piece(&mut self, buf: &mut [u8]) -> Result<Range<usize>>
        ensures ok { IfOk result (λ t. HandedAll buf.old self.old buf.new t self.new) }
        ensures err { OnErr result (WaitsFor 1 buf.old self.old buf.new self.new) }
        ensures told { FailureTold result self.new }
        ensures stays_failed { StaysFailed (length buf.old) self.old result self.new }
    {
        self.ready(buf, 1)?;
        Ok(self.waiting())
    }

    // Passes over what stands in the buffer, until 0A went by so many times. The answer is how many are still wanted.
    fn pass_piece(&mut self, buf: &mut [u8], want: usize) -> Result<usize> {
        self.ready(buf, 1)?;
        let passed = pass(&buf[self.at..self.end], want);
        self.at += passed.at;
        Ok(passed.left)
    }

    // Passes over so many lines by their 0A. The answer is how many the file has too few. Nothing says that a file ends, so the turns are counted, up to a number that no run reaches.
    pub fn pass_lines(&mut self, buf: &mut [u8], want: usize) -> Result<usize> {
        // What cannot be read on is told where no line is wanted, too.
        if self.failed.is_some() {
            self.ready(buf, 1)?;
        }
        let mut left = want;
        for _ in 0..u64::MAX {
            if left == 0 {
                break;
            }
            left = self.pass_piece(buf, left)?;
            if self.ended {
                break;
            }
        }
        Ok(left)
    }
}
