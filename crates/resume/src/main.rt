// Goes on with a listing that was stopped: writes the kept lines of the found file to standard output, then the missing ones.
// A refused resume is an answer like any other. What goes wrong outside of the lines, such as a file that is not there, is said on standard error.
#![tactic(auto)]

use found::{copy, find};
use listing::close::NO_RECORD;
use opening::files::{OpenFiles, open};
use opening::first::add_first;
use program::args::{count, path, say_usage};
use program::buffer::{path_buffer, piece_buffer};
use program::sink::Gathered;
use program::system::{Failed, fail, open_read};
use rest::rest;
use resuming::place::Go;
use unit::{Pairs, Unit};

const USAGE: [&[u8]; 3] = [
    b"usage: resume [REFERENCE UNIT FOUND]\n",
    b"Writes a listing that was stopped to standard output, whole.\n",
    b"Without paths it reads reference.hex, unit.hex and found.hex.\n",
];

// Nothing is written before it is known where to go on: then the kept lines, and the missing ones behind them.
fn go_on(
    rt: &HostRuntime,
    files: &mut OpenFiles,
    found_path: &[u8],
    out: &mut [u8],
) -> Result<(), Failed> {
    let file = open_read(rt, found_path).map_err(|cause| fail(rt, found_path, cause))?;
    let found = find(&file, files.front, &files.counts, out).map_err(|cause| fail(
        rt, found_path, cause,
    ))?;
    if let Go::Refused(refusal) = found.go {
        let mut lines = Gathered::new(rt, out);
        lines.add_refused(NO_RECORD, u32::from(refusal))?;
        return lines.flush();
    }
    copy(rt, &file, found.kept, found_path, out)?;
    if let Go::Over = found.go {
        return Ok(());
    }
    let mut lines = Gathered::new(rt, out);
    if let Go::Afresh = found.go {
        add_first(&mut lines, files.front)?;
    }
    rest(files, found.go.state(), &mut lines)
}

fn resume(
    rt: &HostRuntime,
    reference_path: &[u8],
    unit_path: &[u8],
    found_path: &[u8],
) -> Result<(), Failed> {
    let mut buf = piece_buffer();
    let mut out = piece_buffer();
    let mut reference = [0u8; Unit::REFERENCE];
    let mut symbols = [0u32; Pairs::TABLE];
    let mut files = open(
        rt,
        reference_path,
        unit_path,
        &mut buf,
        &mut reference,
        &mut symbols,
    )?;
    go_on(rt, &mut files, found_path, &mut out)
}

// Its own arrays, as in list: no memory is asked for.
#[inline(never)]
fn resume_named(rt: &HostRuntime) -> Result<(), Failed> {
    let mut reference = path_buffer();
    let mut unit = path_buffer();
    let mut found = path_buffer();
    let reference_path = path(rt, 1, &mut reference)?;
    let unit_path = path(rt, 2, &mut unit)?;
    let found_path = path(rt, 3, &mut found)?;
    resume(rt, reference_path, unit_path, found_path)
}

// What went wrong was said, and the status is that of any listing.
fn main(rt: HostRuntime) {
    let _ = match count(&rt) {
        0 | 1 => resume(&rt, b"reference.hex", b"unit.hex", b"found.hex"),
        4 => resume_named(&rt),
        _ => {
            say_usage(&rt, &USAGE);
            Ok(())
        }
    };
}
