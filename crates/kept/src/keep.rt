// What of a found file is kept: everything up to the last 0A before the first zero byte. The file is read in pieces of any size.
ghost use Rattle.std.specs.Prelude.{◌≡◌, ◌+◌, ◌<◌, ◌≤◌};
ghost use Rattle.kept.specs.Keep.{most_bytes, fresh, kept_no_more as stoppedAt, line_kept, passed_by, keep_byte, keep_all};
ghost use Rattle.kept.specs.Code.Run.{keep_run};

use frame::line::Line;

// What is known of the bytes that are read so far. Numbers and a flag, no Option: C carries them from call to call, as `keep_of` and `keep_numbers` have them.
#[derive(Clone, Copy)]
pub struct Keep {
    // The length of the first kept line, or 0.
    pub first: usize,
    // Where the last kept line starts.
    pub last: usize,
    // How many bytes are kept.
    pub kept: usize,
    // How many bytes are counted.
    pub seen: usize,
    // Nothing that follows is kept: a zero byte was read, or all that can be counted is.
    pub done: bool,
}

impl Keep {
    // The most bytes that are counted.
    pub const BYTES: usize = 18_446_744_073_709_551_615;

    // The number is its name in specs/: proved, and called by nothing.
    fn tied() -> usize
        ensures { result ≡ most_bytes }
    {
        Keep::BYTES
    }

    // No Default: the name says that it is a file of which nothing is read (`fresh` in specs/).
    pub fn new() -> Keep
        ensures { result ≡ fresh }
    {
        Keep {
            first: 0,
            last: 0,
            kept: 0,
            seen: 0,
            done: false,
        }
    }

    fn stopped(self) -> Keep
        ensures { result ≡ stoppedAt self }
    {
        Keep { done: true, ..self }
    }

    fn passed_by(self, n: usize) -> Keep
        requires { self.seen + n ≤ most_bytes }
        ensures { result ≡ passed_by self n }
    {
        Keep {
            seen: self.seen + n,
            done: false,
            ..self
        }
    }

    fn line_kept(self) -> Keep
        requires { self.seen < most_bytes }
        ensures { result ≡ line_kept self }
    {
        let end = self.seen + 1;
        Keep {
            first: if self.first == 0 { end } else { self.first },
            last: self.kept,
            kept: end,
            seen: end,
            done: false,
        }
    }

    // One byte more.
    pub fn byte(self, b: u8) -> Keep
        ensures { result ≡ keep_byte self b }
    {
        if self.done {
            return self;
        }
        if b == 0 {
            return self.stopped();
        }
        if Keep::BYTES <= self.seen {
            return self.stopped();
        }
        if b == Line::END {
            return self.line_kept();
        }
        self.passed_by(1)
    }

    // A run of n bytes above 0A.
    fn run(self, n: usize) -> Keep
        ensures { result ≡ keep_run self n }
    {
        if self.done {
            return self;
        }
        let left = Keep::BYTES - self.seen;
        if n <= left {
            return self.passed_by(n);
        }
        self.passed_by(left).stopped()
    }

    // The bytes of a piece, one after the other.
    pub fn over(self, piece: &[u8]) -> Keep
        ensures { result ≡ keep_all self piece.now }
    {
        let mut k = self;
        let mut rest = piece;
        while !k.done {
            // Every digit is above 0A, so that a run of them takes one test a byte.
            let Some(end) = rest.iter().position(|&b| b <= Line::END) else {
                return k.run(rest.len());
            };
            k = k.run(end).byte(rest[end]);
            rest = &rest[end + 1..];
        }
        k
    }
}
