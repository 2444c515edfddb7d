// The front of the two files: the reference, which is read first and whole, then the unit line and the pair lines.
ghost use Rattle.std.specs.Prelude.{◌≡◌, ◌≤◌, length, IfOk};
ghost use Rattle.stream.specs.Source.{HandedLine};
ghost use Rattle.opening.specs.Files.{SameFront};

use front::{pair_line, reference_line, unit_line};
use program::system::{Failed, fail, open_read};
use refusal::Refusal;
use std::fs::File;
use std::io;
use std::ops::Range;
use stream::source::Source;
use unit::{Pairs, Unit};

// How far the front can be read. A refusal is its number, as in an 05 line: `write_first` answers for any number.
#[derive(Clone, Copy)]
pub enum FrontRead {
    // A file cannot be read. `open` says so and answers Failed, so that nothing builds it there; `write_first` answers for it, as docs/PROMISES.md has it.
    Unread,
    // A reference line is refused, or the unit line is refused or missing: the 05 line with this number stands alone.
    Alone(u32),
    // A pair line behind this unit line is refused or missing.
    Unpaired(Unit, u32),
    Ready(Unit),
}

// How many symbols each pair line laid. Beside the symbols and not with them, as the calls that C has too take both.
type Counts = [u32; Pairs::SUBSEQUENCES];

// What the two files come to: the bases of the reference, none where a line of it is refused, and the symbols of the pair lines.
// The counts stand beside a refused front too, as zeros: a resume asks for them then as well (`find` of found).
#[derive(Drop)]
pub struct OpenFiles<'f, 'b> {
    pub front: FrontRead,
    pub reference: &'f [u8],
    pub symbols: &'f [u32],
    pub counts: Counts,
    // The unit file behind its pair lines, and the buffer that it is read through.
    pub unit_path: &'f [u8],
    pub source: Source<File>,
    pub buf: &'b mut [u8],
}

impl OpenFiles<'_, '_> {
    // The next line of the unit file, or its end, an empty part of the buffer. Where it cannot be read, that is said.
    pub fn take(&mut self, rt: &HostRuntime) -> Result<Range<usize>, Failed>
        ensures line { IfOk result (λ t. HandedLine self.old.buf.now self.old.source self.new.buf.now t self.new.source) }
        ensures others { SameFront self.old self.new }
    {
        let path = self.unit_path;
        let buf = &mut *self.buf;
        self.source.take(buf).map_err(|cause| fail(rt, path, cause))
    }

    // Passes over so many lines of the unit file; the answer is how many it has too few. Where it cannot be read, that is said.
    pub fn pass_lines(&mut self, rt: &HostRuntime, want: usize) -> Result<usize, Failed>
        ensures { SameFront self.old self.new }
    {
        let path = self.unit_path;
        let buf = &mut *self.buf;
        self.source
            .pass_lines(buf, want)
            .map_err(|cause| fail(rt, path, cause))
    }
}

// How many bases the reference has, or why a line of it is refused. Every line adds a base, and there is a most of them, so that the loop ends.
fn read_reference(
    rt: &HostRuntime,
    path: &[u8],
    buf: &mut [u8],
    reference: &mut [u8],
) -> io::Result<Result<usize, Refusal>>
    ensures { IfOk result (λ r. IfOk r (λ n. n ≤ length reference.new)) }
{
    let mut source = Source::new(open_read(rt, path)?);
    let mut bases: usize = 0;
    loop {
        let line = source.take(buf)?;
        if line.is_empty() {
            return Ok(Ok(bases));
        }
        match reference_line::read(&buf[line], reference, bases) {
            Ok(n) => bases = n,
            Err(refusal) => return Ok(Err(refusal)),
        }
    }
}

// The pair lines, behind a unit line. A file that ends where one is wanted is refused as the line would be.
fn read_pairs(
    source: &mut Source<File>,
    buf: &mut [u8],
    symbols: &mut [u32],
) -> io::Result<Result<Counts, Refusal>> {
    let mut counts = [0u32; Pairs::SUBSEQUENCES];
    for (i, count) in counts.iter_mut().enumerate() {
        let line = source.take(buf)?;
        if line.is_empty() {
            return Ok(Err(Refusal::Missing));
        }
        match pair_line::read(&buf[line], i as u32, symbols) {
            Ok(n) => *count = n,
            Err(refusal) => return Ok(Err(refusal)),
        }
    }
    Ok(Ok(counts))
}

// The unit file up to its record lines. Laid into no caller: where a file is opened the stack is at its highest, and none of this is on it then.
#[inline(never)]
fn read_unit(
    source: &mut Source<File>,
    buf: &mut [u8],
    symbols: &mut [u32],
) -> io::Result<(FrontRead, Counts)> {
    let none = [0u32; Pairs::SUBSEQUENCES];
    let line = source.take(buf)?;
    if line.is_empty() {
        return Ok((FrontRead::Alone(u32::from(Refusal::Missing)), none));
    }
    match unit_line::read(&buf[line]) {
        Ok(unit) => match read_pairs(source, buf, symbols)? {
            Ok(counts) => Ok((FrontRead::Ready(unit), counts)),
            Err(refusal) => Ok((FrontRead::Unpaired(unit, u32::from(refusal)), none)),
        },
        Err(refusal) => Ok((FrontRead::Alone(u32::from(refusal)), none)),
    }
}

// Opens both files, and reads as far as is told by them. The reference is closed again before the unit file is opened, so that one program may write both into pipes, one after the other.
pub fn open<'f, 'b>(
    rt: &HostRuntime,
    reference_path: &[u8],
    unit_path: &'f [u8],
    buf: &'b mut [u8],
    reference: &'f mut [u8],
    symbols: &'f mut [u32],
) -> Result<OpenFiles<'f, 'b>, Failed>
    ensures { IfOk result (λ f. (length f.buf.now ≡ length buf.old) × ((length f.symbols.now ≡ length symbols.old) × (f.unit_path.now ≡ unit_path.now))) }
{
    let based = read_reference(rt, reference_path, buf, reference).map_err(|cause| fail(
        rt,
        reference_path,
        cause,
    ));
    let file = open_read(rt, unit_path).map_err(|cause| fail(rt, unit_path, cause))?;
    let mut source = Source::new(file);
    let (bases, front, counts) = match based? {
        Ok(bases) => {
            let (front, counts) = read_unit(&mut source, buf, symbols).map_err(|cause| fail(
                rt, unit_path, cause,
            ))?;
            (bases, front, counts)
        }
        Err(refusal) => (
            0,
            FrontRead::Alone(u32::from(refusal)),
            [0u32; Pairs::SUBSEQUENCES],
        ),
    };
    Ok(OpenFiles {
        front,
        reference: &reference[..bases],
        symbols,
        counts,
        unit_path,
        source,
        buf,
    })
}
