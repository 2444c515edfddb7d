// Files opened by their paths, and what is wrong said on standard error.
use std::fs::File;
use std::io::{Error, Result};

// The program goes no further, and what is wrong outside of it was said on standard error.
#[derive(Clone, Copy)]
pub struct Failed;

// Opens a file for reading. Its path is UTF-8.
pub fn open_read(rt: &HostRuntime, path: &[u8]) -> Result<File> {
    // The system's number EILSEQ.
    let text = str::from_utf8(path).map_err(|_| Error::from_raw_os_error(84))?;
    File::open(rt, text)
}

// The error's words, without the system's number behind them. Where there is no memory for them the number stays.
fn say(rt: &HostRuntime, cause: Error) {
    let Ok(text) = cause.to_string(rt.alloc()) else {
        let _ = rt.stderr().print(cause);
        return;
    };
    let whole = text.as_str();
    let words = whole
        .split_once(" (os error ")
        .map_or(whole, |(words, _)| words);
    let _ = rt.stderr().print(words);
}

// Writes a line to standard error: what failed, as the caller names it, a colon and what is wrong with it.
pub fn fail(rt: &HostRuntime, what: &[u8], cause: Error) -> Failed {
    let _ = rt.stderr().write_all(what);
    let _ = rt.stderr().write_all(b": ");
    say(rt, cause);
    let _ = rt.stderr().write_all(b"\n");
    Failed
}
