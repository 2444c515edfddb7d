// Lines gathered in a lent buffer for standard output, and written in large pieces.
ghost use Rattle.std.specs.Prelude.{◌≡◌, length, IfSome, MatchResult};
ghost use Rattle.program.specs.Sink.{empty, stopped_sink, longer_by, with_line, sink_by, place_in, Roomy};

use crate::system::{Failed, fail};
use listing::close;
use refusal::Refusal;
use state::listed::ListedLine;

// How many bytes at the front of a buffer are to be written: none any more, once a line found no room or a write failed. Nothing is written from then on.
#[derive(Clone, Copy)]
pub struct Sink {
    pub used: Option<usize>,
}

// All of it is written to standard output.
pub fn write(rt: &HostRuntime, bytes: &[u8]) -> Result<(), Failed> {
    rt.write_all(bytes)
        .map_err(|cause| fail(rt, b"standard output", cause))
}

impl Sink {
    pub fn new() -> Sink
        ensures { result ≡ empty }
    {
        Sink { used: Some(0) }
    }

    pub fn stopped() -> Sink
        ensures { result ≡ stopped_sink }
    {
        Sink { used: None }
    }

    // How many bytes are gathered, where the sink is not stopped.
    pub fn place(self) -> Result<usize, Failed>
        ensures { result ≡ place_in self.used }
    {
        self.used.ok_or(Failed)
    }

    // Everything that is gathered is written.
    pub fn flushed(self, rt: &HostRuntime, out: &[u8]) -> Sink
        ensures emptied { IfSome result.used (λ k. k ≡ 0) }
        ensures stays_stopped { self ≡ stopped_sink → result ≡ stopped_sink }
    {
        let Some(used) = self.used else {
            return self;
        };
        if out.len() < used {
            return Sink::stopped();
        }
        match write(rt, &out[..used]) {
            Ok(()) => Sink::new(),
            Err(Failed) => Sink::stopped(),
        }
    }

    // There is room for a longest line behind what is gathered.
    pub fn roomy(self, rt: &HostRuntime, out: &[u8]) -> Sink
        ensures room { IfSome result.used (λ k. Roomy (length out.now) k) }
        ensures stays_stopped { self ≡ stopped_sink → result ≡ stopped_sink }
    {
        let Some(used) = self.used else {
            return self;
        };
        if used <= out.len() && ListedLine::DIGITS < out.len() - used {
            return self;
        }
        self.flushed(rt, out)
    }

    // n bytes more are gathered.
    #[tactic(auto, unfolding(crate::specs::Sink::longer_by))]
    pub fn longer(self, n: usize, out: &[u8]) -> Sink
        ensures { result ≡ sink_by (longer_by n (length out.now)) self }
    {
        let Some(used) = self.used else {
            return self;
        };
        if out.len() < used || out.len() - used < n {
            return Sink::stopped();
        }
        Sink {
            used: Some(used + n),
        }
    }

    // A line more is gathered, which was written behind the others.
    pub fn with(self, wrote: Result<usize, Refusal>, out: &[u8]) -> Sink
        ensures { result ≡ sink_by (with_line wrote (length out.now)) self }
    {
        match wrote {
            Ok(n) => self.longer(n, out),
            Err(_) => Sink::stopped(),
        }
    }
}

// A sink, the buffer that it tells of, and where the bytes go. No Vec: the memory is fixed, and no slice: more is written behind what is gathered.
// What is gathered stays as it is in every call, and so does the rest of the buffer but for a line that is laid behind it (a clause of each but `add_refused`): so each call lends the whole buffer on (`&mut *`), which is known to come back.
#[derive(Drop)]
pub struct Gathered<'r, 'o> {
    pub rt: &'r HostRuntime,
    pub out: &'o mut [u8],
    pub sink: Sink,
}

impl<'r, 'o> Gathered<'r, 'o> {
    pub fn new(rt: &'r HostRuntime, out: &'o mut [u8]) -> Gathered<'r, 'o>
        ensures { (result.sink ≡ empty) × (result.out.now ≡ out.old) }
    {
        Gathered {
            rt,
            out,
            sink: Sink::new(),
        }
    }

    // Everything that is gathered is written.
    pub fn flush(&mut self) -> Result<(), Failed>
        ensures buffer { self.new.out.now ≡ self.old.out.now }
        ensures sink { MatchResult result (λ _. self.new.sink ≡ empty) (λ _. self.new.sink ≡ stopped_sink) }
        ensures stays_stopped { self.old.sink ≡ stopped_sink → self.new.sink ≡ stopped_sink }
    {
        let out = &mut *self.out;
        self.sink = self.sink.flushed(self.rt, out);
        self.sink.place()?;
        Ok(())
    }

    // There is room for a longest line behind what is gathered. The answer is where that line begins.
    pub fn make_room(&mut self) -> Result<usize, Failed>
        ensures buffer { self.new.out.now ≡ self.old.out.now }
        ensures place { result ≡ place_in self.new.sink.used }
        ensures room { IfSome self.new.sink.used (λ k. Roomy (length self.new.out.now) k) }
        ensures stays_stopped { self.old.sink ≡ stopped_sink → self.new.sink ≡ stopped_sink }
    {
        let out = &mut *self.out;
        self.sink = self.sink.roomy(self.rt, out);
        self.sink.place()
    }

    // n bytes more are gathered. The answer is how many there are.
    pub fn grow(&mut self, n: usize) -> Result<usize, Failed>
        ensures buffer { self.new.out.now ≡ self.old.out.now }
        ensures sink { self.new.sink ≡ sink_by (longer_by n (length self.old.out.now)) self.old.sink }
        ensures place { result ≡ place_in self.new.sink.used }
    {
        let out = &mut *self.out;
        self.sink = self.sink.longer(n, out);
        self.sink.place()
    }

    // A line more is gathered, which was written behind the others. The answer is how many bytes there are.
    pub fn add(&mut self, wrote: Result<usize, Refusal>) -> Result<usize, Failed>
        ensures buffer { self.new.out.now ≡ self.old.out.now }
        ensures sink { self.new.sink ≡ sink_by (with_line wrote (length self.old.out.now)) self.old.sink }
        ensures place { result ≡ place_in self.new.sink.used }
    {
        let out = &mut *self.out;
        self.sink = self.sink.with(wrote, out);
        self.sink.place()
    }

    // An 05 line more. The answer is how many bytes are gathered.
    pub fn add_refused(&mut self, number: u32, refusal: u32) -> Result<usize, Failed>
        ensures long { length self.new.out.now ≡ length self.old.out.now }
        ensures place { result ≡ place_in self.new.sink.used }
    {
        let at = self.make_room()?;
        let wrote = close::write_refused(&mut self.out[at..], number, refusal);
        self.add(wrote)
    }
}
