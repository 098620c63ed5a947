// The number lines of a launch file: one loop over a table of keys, limits and refusals.
#![tactic(auto)]

ghost use Rattle.std.specs.Prelude.{◌≡◌, ◌+◌, ◌<◌, ◌≤◌, length};
ghost use Rattle.numberlines.specs.Answered.{line_count, lines_from, lines_behind, line_at, IsLine, NumbersRead};

use spec::Refusal;

// How many lines give the sizes, and how many the limit and the number of rows, which come behind them; the place of each among its kind.
pub const SIZES: usize = 4;

pub const THREADS: usize = 0;

pub const CELLS: usize = 1;

pub const GROUPS: usize = 2;

pub const GLOBAL: usize = 3;

pub const LENGTHS: usize = 2;

pub const LIMIT: usize = 0;

pub const ROWS: usize = 1;

pub const COUNT: usize = SIZES + LENGTHS;

// A line with one number: its key, the least and the greatest number that it may give, and what any other number is refused with.
#[derive(Clone, Copy)]
struct NumberLine {
    key: &'static [u8],
    least: u32,
    greatest: u32,
    refusal: Refusal,
}

const LINES: [NumberLine; COUNT] = [
    NumberLine {
        key: b"threads",
        least: 1,
        greatest: 32,
        refusal: Refusal::ThreadsOutOfRange(2),
    },
    NumberLine {
        key: b"cells",
        least: 1,
        greatest: 1024,
        refusal: Refusal::CellsOutOfRange(3),
    },
    NumberLine {
        key: b"groups",
        least: 1,
        greatest: 8,
        refusal: Refusal::GroupsOutOfRange(4),
    },
    NumberLine {
        key: b"global",
        least: 0,
        greatest: 1024,
        refusal: Refusal::TooManyCells(5),
    },
    NumberLine {
        key: b"limit",
        least: 0,
        greatest: 1000000,
        refusal: Refusal::LimitOutOfRange(6),
    },
    NumberLine {
        key: b"rows",
        least: 0,
        greatest: 256,
        refusal: Refusal::TooManyRows(7),
    },
];

fn line_at(at: usize) -> NumberLine
    requires { at < 6 }
    ensures { IsLine (line_at at) result }
{
    LINES[at]
}

// Reads as many number lines as there is room for, from place `from` among all of them on, up to the first that is refused.
pub fn read_numbers(file: &[u8], from: usize, numbers: &mut [u32]) -> Result<(), Refusal>
    requires { from + length numbers.old ≤ line_count }
    ensures { NumbersRead (lines_from from (length numbers.old)) (2 + from) file.now numbers.old numbers.new result }
{
    let mut rest = file;
    for i in 0..numbers.len() {
        let line = line_at(from + i);
        let Some(found) = filelines::number_line(rest, line.key) else {
            return Err(Refusal::LineNotDue((2 + from + i) as u32));
        };
        if !admission::within(found, line.least, line.greatest) {
            return Err(line.refusal);
        }
        numbers[i] = found;
        rest = filelines::next(rest);
    }
    Ok(())
}

// What is left of a file behind n lines.
#[tactic(auto, using(crate::proofs::Loop::next_behind), unfolding(crate::specs::Answered::lines_behind))]
pub fn behind_lines<'a>(file: &'a [u8], n: usize) -> &'a [u8]
    ensures { result.now ≡ lines_behind n file.now }
{
    let mut rest = file;
    for _ in 0..n {
        rest = filelines::next(rest);
    }
    rest
}
