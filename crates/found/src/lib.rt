// The found file: what of it is kept, where the listing goes on behind it, and the kept bytes written again.
#![tactic(auto)]

ghost use Rattle.std.specs.Prelude.{◌≤◌, length, IfOk};

use front::unit_line::UnitLine;
use kept::keep::Keep;
use opening::files::FrontRead;
use opening::first::write_first;
use program::sink::write;
use program::system::{Failed, fail};
use resuming::place::{Go, place};
use state::listed::ListedLine;
use std::fs::File;
use std::io;
use std::io::{Error, ErrorKind};
use stream::source::Source;

// As much of a kept line as decides where to go on (law `edges_by_a_buffer`): more than any line of a listing has.
const EDGE: usize = ListedLine::DIGITS + 2;

// The bytes of a unit line, which is the longest first line, with its 0A.
const FIRST: usize = 2 * UnitLine::BYTES + 1;

// Where the listing goes on, and how many bytes are kept.
#[derive(Clone, Copy)]
pub struct Found {
    pub go: Go,
    pub kept: usize,
}

// What is known of the file, up to its end or its first zero byte. Nothing says that a file ends, so the turns are counted, up to a number that no run reaches.
fn scan(file: &File, buf: &mut [u8]) -> io::Result<Keep> {
    let mut source = Source::new(file);
    let mut keep = Keep::new();
    for _ in 0..u64::MAX {
        let part = source.piece(buf)?;
        keep = keep.over(&buf[part]);
        if source.ended || keep.done {
            break;
        }
    }
    Ok(keep)
}

// So much of the bytes from a place up to another as there is room for: how many they are.
fn read_edge(file: &File, from: usize, to: usize, edge: &mut [u8]) -> io::Result<usize>
    ensures { IfOk result (λ n. n ≤ length edge.new) }
{
    let wanted = edge.len();
    let mut source = Source::new(file);
    source.go_to(from)?;
    source.ready(edge, wanted)?;
    Ok(to.saturating_sub(from).min(source.end))
}

// The record count by which a last line is looked at. Where the front is refused there is no record.
fn record_count(front: FrontRead) -> u32 {
    match front {
        FrontRead::Ready(unit) => unit.records,
        FrontRead::Unpaired(_, _) | FrontRead::Alone(_) | FrontRead::Unread => 0,
    }
}

// The first and the last kept line are read again, and put beside the listing's first line. Arrays, and how much of them is used: the memory is fixed. On its own, so that they lie on the stack while it runs and no longer.
#[inline(never)]
#[tactic(auto, using(opening::proofs::FirstLaws::first_within))]
fn look(file: &File, keep: Keep, front: FrontRead, counts: &[u32]) -> io::Result<Found> {
    let mut first = [0u8; EDGE];
    let a = read_edge(file, 0, keep.first, &mut first)?;
    let mut last = [0u8; EDGE];
    let z = read_edge(file, keep.last, keep.kept, &mut last)?;
    let mut listed = [0u8; FIRST];
    let Ok(n) = write_first(&mut listed, front) else {
        return Err(Error::from(ErrorKind::InvalidInput));
    };
    let count = record_count(front);
    let go = place(&listed[0..n], count, counts, &first[..a], &last[..z]);
    Ok(Found {
        go,
        kept: keep.kept,
    })
}

// What a found file comes to, for a front with these symbol counts.
pub fn find(file: &File, front: FrontRead, counts: &[u32], buf: &mut [u8]) -> io::Result<Found> {
    look(file, scan(file, buf)?, front, counts)
}

// The file could not be read on, or ended before all that was kept of it.
fn say_short(rt: &HostRuntime, path: &[u8], read: io::Result<()>) -> Failed {
    if let Err(cause) = read {
        return fail(rt, path, cause);
    }
    let _ = rt.stderr().write_all(path);
    let _ = rt.stderr().write_all(b": shorter than it was\n");
    Failed
}

// Writes the first `kept` bytes of the file. Where it cannot be read on, all that was read of them before is written first.
pub fn copy(
    rt: &HostRuntime,
    file: &File,
    kept: usize,
    path: &[u8],
    buf: &mut [u8],
) -> Result<(), Failed> {
    let mut source = Source::new(file);
    // Where it cannot be gone to its start, the first read says so again.
    let _ = source.go_to(0);
    let mut left = kept;
    // No `for`: what is left goes down by as much as was read, which no range steps by.
    while left > 0 {
        let read = source.ready(buf, 1);
        let part = source.waiting();
        let n = left.min(part.end - part.start);
        if n == 0 {
            return Err(say_short(rt, path, read));
        }
        write(rt, &buf[part.start..part.start + n])?;
        left -= n;
    }
    Ok(())
}
