// The program check: reads a launch file from standard input and prints its report, or the report of its refusal.
#![tactic(auto)]

use std::io;
use std::io::Input;

// One byte over the limit is enough to know that a file is too long.
// Not inlined: the usage needs none of these buffers.
#[inline(never)]
fn report_input(rt: &(impl Input + Print)) -> io::Result<()> {
    let mut input = [0u8; 32769];
    let mut output = [0u8; 24576];
    let size = programio::read_input(rt, &mut input)?;
    let written = filereport::report_file(&input[..size], &mut output);
    programio::print(rt, &output[..written]);
    Ok(())
}

// The program's own name counts as an argument. Beside it there is none to take: a report speaks of standard input only, and must
// not be taken for that of a file that an argument names.
fn main(rt: HostRuntime) {
    if programio::argument_count(&rt) > 1 {
        programio::print_usage(&rt.stderr(), b"usage: check < LAUNCH-FILE\n");
    } else {
        // Where the input cannot be read nothing is printed, so that no report is taken for it.
        let _ = report_input(&rt);
    }
}
