// The program pair: reads the files of a filter, a trigger and their common table, and prints both kernels' reports.
#![tactic(auto)]

use std::env::Env;
use std::fs::Files;
use std::io;

// Of a kernel's file one byte over its limit is enough to know that it is too long, and 4,119 bytes of a common file decide every report. A file that can't
// be opened counts as empty.
// Not inlined: the usage needs none of these buffers.
#[inline(never)]
fn report_files(rt: &(impl Env + Files + Print)) -> io::Result<()> {
    let mut filter = [0u8; 32769];
    let mut trigger = [0u8; 32769];
    let mut common = [0u8; 4119];
    let mut output = [0u8; 49152];
    let first = programio::read_named(rt, 1, &mut filter)?;
    let second = programio::read_named(rt, 2, &mut trigger)?;
    let third = programio::read_named(rt, 3, &mut common)?;
    let written = pairfiles::report_pair(
        &filter[..first],
        &trigger[..second],
        &common[..third],
        &mut output,
    );
    programio::print(rt, &output[..written]);
    Ok(())
}

// The program's own name counts as an argument.
fn main(rt: HostRuntime) {
    if programio::argument_count(&rt) == 4 {
        // Where a file can't be read nothing is printed, so that no report is taken for it.
        let _ = report_files(&rt);
    } else {
        programio::print_usage(&rt.stderr(), b"usage: pair FILTER TRIGGER COMMON\n");
    }
}
