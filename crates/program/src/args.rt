// The programs' arguments.
ghost use Rattle.std.specs.Prelude.{◌≤◌, length, IfOk};

use crate::system::{Failed, fail};
use std::env::FillError;
use std::io::Error;
use std::rt::Env;

fn is_given(rt: &HostRuntime, i: usize) -> bool {
    !matches!(rt.arg(i, &mut []), Err(FillError::NotPresent))
}

// How many arguments the program was started with, its own name among them.
pub fn count(rt: &HostRuntime) -> usize {
    (0..usize::MAX).take_while(|i| is_given(rt, *i)).count()
}

// Whether the first argument asks for help.
pub fn asks_help(rt: &HostRuntime) -> bool {
    let mut word = [0u8; 6];
    matches!(rt.arg(1, &mut word), Ok(6)) && word == *b"--help"
}

fn say_lines(out: &impl Print, lines: &[&[u8]]) {
    for line in lines {
        let _ = out.write_all(line);
    }
}

// Writes how a program is used, line by line: to standard output where that is asked for, else to standard error.
pub fn say_usage(rt: &HostRuntime, usage: &[&[u8]]) {
    if asks_help(rt) {
        say_lines(&rt.stdout(), usage);
    } else {
        say_lines(&rt.stderr(), usage);
    }
}

// An argument, read into a lent buffer; where it is not whole, that is said.
pub fn path<'b>(rt: &HostRuntime, i: usize, buf: &'b mut [u8]) -> Result<&'b [u8], Failed>
    ensures { IfOk result (λ s. length s.now ≤ length buf.old) }
{
    match rt.arg(i, buf) {
        Ok(n) => Ok(&buf[..n]),
        Err(cause) => {
            // The system's numbers EINVAL and ENAMETOOLONG.
            let number = match cause {
                FillError::NotPresent => 22,
                FillError::TooLong => 36,
            };
            Err(fail(rt, b"path", Error::from_raw_os_error(number)))
        }
    }
}
