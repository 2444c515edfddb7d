// Lists a unit: reads the reference and the unit file, and writes the listing to standard output.
// A listing that ends in 05 is an answer like any other. What goes wrong outside of the lines, such as a file that is not there, is said on standard error.
#![tactic(auto)]

use opening::files::open;
use opening::first::add_first;
use program::args::{count, path, say_usage};
use program::buffer::{path_buffer, piece_buffer};
use program::sink::Gathered;
use program::system::Failed;
use rest::rest;
use state::State;
use unit::{Pairs, Unit};

const USAGE: [&[u8]; 3] = [
    b"usage: list [REFERENCE UNIT]\n",
    b"Writes the listing of a unit to standard output.\n",
    b"Without paths it reads reference.hex and unit.hex.\n",
];

fn list(rt: &HostRuntime, reference_path: &[u8], unit_path: &[u8]) -> Result<(), Failed> {
    let mut buf = piece_buffer();
    let mut out = piece_buffer();
    let mut reference = [0u8; Unit::REFERENCE];
    let mut symbols = [0u32; Pairs::TABLE];
    let mut files = open(
        rt,
        reference_path,
        unit_path,
        &mut buf,
        &mut reference,
        &mut symbols,
    )?;
    let mut lines = Gathered::new(rt, &mut out);
    add_first(&mut lines, files.front)?;
    rest(&mut files, State::fresh(), &mut lines)
}

// The same in resume, and no function for both: the paths lie in arrays of each program, since no memory is asked for. On its own, so that they lie on the stack only where paths are given.
#[inline(never)]
fn list_named(rt: &HostRuntime) -> Result<(), Failed> {
    let mut reference = path_buffer();
    let mut unit = path_buffer();
    let reference_path = path(rt, 1, &mut reference)?;
    let unit_path = path(rt, 2, &mut unit)?;
    list(rt, reference_path, unit_path)
}

// What went wrong was said, and the status is that of any listing.
fn main(rt: HostRuntime) {
    let _ = match count(&rt) {
        0 | 1 => list(&rt, b"reference.hex", b"unit.hex"),
        3 => list_named(&rt),
        _ => {
            say_usage(&rt, &USAGE);
            Ok(())
        }
    };
}
