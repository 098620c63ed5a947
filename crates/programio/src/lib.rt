// What the programs share: reading standard input or a file that an argument names, printing, and the usage line.
// No contract can say which bytes are read or written: those of the readers bound how many are read.
#![tactic(auto)]

ghost use Rattle.std.specs.Prelude.{◌≤◌, length, IfOk};

use std::env::{Env, FillError};
use std::fs::Files;
use std::io::{ErrorKind, Input, Read};
use std::rt::Stderr;
use std::{fs, io};

// Reads to the input's end, or until the buffer is full, and answers how many bytes stand at its start. A read that fails is not the input's end.
fn read_all<R: Read>(file: &mut R, buffer: &mut [u8]) -> io::Result<usize>
    ensures { IfOk result (λ n. n ≤ length buffer.new) }
{
    let mut at = 0;
    // No `for`: how far a turn goes is what its read gives.
    while at < buffer.len() {
        match file.read(&mut buffer[at..])? {
            0 => break,
            got => at += got,
        }
    }
    Ok(at)
}

// Standard input. A caller that may take n bytes lends n + 1, and knows by the last one that there are too many.
pub fn read_input(rt: &impl Input, buffer: &mut [u8]) -> io::Result<usize>
    ensures { IfOk result (λ n. n ≤ length buffer.new) }
{
    read_all(&mut rt.reader(), buffer)
}

fn has_argument(rt: &impl Env, argument: usize) -> bool {
    !matches!(rt.arg(argument, &mut []), Err(FillError::NotPresent))
}

// How many arguments the program was started with, its own name among them.
pub fn argument_count(rt: &impl Env) -> usize {
    (0..usize::MAX)
        .take_while(|argument| has_argument(rt, *argument))
        .count()
}

// The file that the argument of this number names, where the program's own name is argument 0. A file that cannot be opened counts as
// empty, and so does one whose name is missing or too long; one that opens and cannot be read, as a directory, is a failed read. The
// library opens names in UTF-8 alone: behind any other name may stand a file, and it is a failed read too.
pub fn read_named(rt: &(impl Env + Files), argument: usize, buffer: &mut [u8]) -> io::Result<usize>
    ensures { IfOk result (λ n. n ≤ length buffer.new) }
{
    let mut name = [0u8; 4096];
    let Ok(size) = rt.arg(argument, &mut name) else {
        return Ok(0);
    };
    let Ok(path) = str::from_utf8(&name[..size]) else {
        return Err(ErrorKind::InvalidInput.into());
    };
    let Ok(mut file) = fs::open(rt, path) else {
        return Ok(0);
    };
    read_all(&mut file, buffer)
}

// All of the bytes, to standard output. A failed write is seen only by what is missing: a report's last line.
pub fn print(rt: &impl Print, bytes: &[u8]) {
    let _ = rt.write_all(bytes);
}

// The line, with its newline, to standard error, where nobody takes it for a report.
pub fn print_usage(stderr: &Stderr, line: &[u8]) {
    let _ = stderr.write_all(line);
}
