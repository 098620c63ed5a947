// Holds what check and pair would print of the files that the arguments name against the reports that they name. A launch file and its report make two
// arguments; behind the word `pair` stand four: the files of a filter, a trigger and their common table, and the report of both.
#![tactic(auto)]

ghost use Rattle.std.specs.Prelude.{◌≡◌, ◌<◌, ◌≤◌, length, take};

use std::env::Env;
use std::fs::Files;

// The bytes of the file that argument i names, at the start of the buffer; none where it cannot be opened or read.
fn read_named(rt: &(impl Env + Files), i: usize, buffer: &mut [u8]) -> usize
    ensures inside { result ≤ length buffer.new }
    ensures long { result ≡ length (take result buffer.new) }
{
    programio::read_named(rt, i, buffer).unwrap_or(0)
}

// Argument i at the start of the buffer; none where it is missing or longer.
fn name_of(rt: &impl Env, i: usize, name: &mut [u8]) -> usize
    ensures { result ≤ length name.new }
{
    rt.arg(i, name).unwrap_or(0)
}

fn print_name(rt: &(impl Env + Print), i: usize) {
    let mut name = [0u8; 4096];
    let size = name_of(rt, i, &mut name);
    programio::print(rt, &name[..size]);
}

fn is_word(rt: &impl Env, i: usize, word: &[u8]) -> bool {
    let mut name = [0u8; 4096];
    let size = name_of(rt, i, &mut name);
    &name[..size] == word
}

// The end of an example's line: whether it gives what the file has that argument i names. Where it does not, what it gives.
fn compare_with(rt: &(impl Env + Files + Print), report: &[u8], i: usize) {
    let mut wanted = [0u8; 65536];
    let long = read_named(rt, i, &mut wanted);
    if report == &wanted[..long] {
        programio::print(rt, b" gives its report\n");
    } else {
        programio::print(rt, b" gives\n");
        programio::print(rt, report);
    }
}

fn compare(rt: &(impl Env + Files + Print), launch: usize, report: usize) {
    let mut input = [0u8; 65536];
    let mut output = [0u8; 24576];
    print_name(rt, launch);
    let size = read_named(rt, launch, &mut input);
    let written = filereport::report_file(&input[..size], &mut output);
    compare_with(rt, &output[..written], report);
}

// The words of a pair's command.
fn print_command(rt: &(impl Env + Print), first: usize, second: usize, table: usize) {
    programio::print(rt, b"pair ");
    print_name(rt, first);
    programio::print(rt, b" ");
    print_name(rt, second);
    programio::print(rt, b" ");
    print_name(rt, table);
}

fn compare_pair(
    rt: &(impl Env + Files + Print),
    first: usize,
    second: usize,
    table: usize,
    report: usize,
) {
    let mut filter = [0u8; 65536];
    let mut trigger = [0u8; 65536];
    let mut common = [0u8; 65536];
    let mut output = [0u8; 49152];
    print_command(rt, first, second, table);
    let filter_size = read_named(rt, first, &mut filter);
    let trigger_size = read_named(rt, second, &mut trigger);
    let common_size = read_named(rt, table, &mut common);
    let written = pairfiles::report_pair(
        &filter[..filter_size],
        &trigger[..trigger_size],
        &common[..common_size],
        &mut output,
    );
    compare_with(rt, &output[..written], report);
}

// The example that begins with argument k, of `count` arguments. It answers the number of the argument behind the example.
fn compare_at(rt: &(impl Env + Files + Print), k: usize, count: usize) -> usize
    requires { k < count }
    ensures { k < result }
{
    let left = count - k;
    if left < 2 {
        return count;
    }
    if left < 5 || !is_word(rt, k, b"pair") {
        compare(rt, k, k + 1);
        return k + 2;
    }
    compare_pair(rt, k + 1, k + 2, k + 3, k + 4);
    k + 5
}

fn main(rt: HostRuntime) {
    let count = programio::argument_count(&rt);
    let mut k = 1;
    // No `for`: an example has two arguments or five, and only a look at the first of them tells how far the next example is.
    while k < count {
        k = compare_at(&rt, k, count);
    }
}
