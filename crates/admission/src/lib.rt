// What a launch is refused for before its rows are looked at, and the lent buffers after them.
#![tactic(auto)]

ghost use Rattle.std.specs.Prelude.{◌≡◌, ◌&&◌, ◌+◌, ◌*◌, leb};
ghost use Rattle.spec.specs.Shape.{sizes};
ghost use Rattle.spec.specs.Entries.{bare_numbers, file_lent};
ghost use Rattle.admission.specs.Refusing.{refusal_of, LentIs};

use spec::Refusal;

// Whether x is neither less nor greater than it may be.
pub fn within(x: u32, low: u32, high: u32) -> bool
    ensures { result ≡ (leb low x && leb x high) }
{
    (low..=high).contains(&x)
}

// The own cells of all groups. Any two words have a product that fits.
pub fn own_cells(groups: u32, cells: u32) -> usize
    ensures { result ≡ groups * cells }
{
    groups as usize * cells as usize
}

// These and the global ones.
pub fn all_cells(groups: u32, cells: u32, global: u32) -> usize
    ensures { result ≡ groups * cells + global }
{
    own_cells(groups, cells) + global as usize
}

// Refusals 1, 2, 8, 9, 32, 33 and 10 of a bare launch.
#[tactic(auto, using(std::proofs::lemmas::Bool::Decides::nat_tests), unfolding(crate::proofs::Opened::opened))]
pub fn numbers(
    bytes: usize,
    threads: u32,
    cells: u32,
    groups: u32,
    global: u32,
    limit: u32,
) -> Result<(), Refusal>
    ensures { refusal_of result ≡ bare_numbers bytes (sizes threads cells groups global) limit }
{
    if bytes % 4 != 0 {
        return Err(Refusal::TableLength);
    }
    if 256 < bytes / 4 {
        return Err(Refusal::TooManyRows(0));
    }
    if !within(threads, 1, 32) {
        return Err(Refusal::ThreadsOutOfRange(0));
    }
    if !within(cells, 1, 1024) {
        return Err(Refusal::CellsOutOfRange(0));
    }
    if !within(groups, 1, 8) {
        return Err(Refusal::GroupsOutOfRange(0));
    }
    let total = all_cells(groups, cells, global);
    if 1024 < total {
        return Err(Refusal::TooManyCells(0));
    }
    if 1000000 < limit {
        return Err(Refusal::LimitOutOfRange(0));
    }
    Ok(())
}

// Refusals 20, 21 and 30 of a bare launch, by the lengths of its own cells, global cells, log and records. Eight times the cells need not fit: the log's
// length is divided.
#[tactic(auto, using(std::proofs::lemmas::Bool::Decides::nat_tests), unfolding(crate::proofs::Opened::opened))]
pub fn lent(
    groups: u32,
    cells: u32,
    global: u32,
    held: usize,
    shared: usize,
    logged: usize,
    recorded: usize,
) -> Result<(), Refusal>
    ensures { LentIs groups cells global held shared logged recorded (refusal_of result) }
{
    if held != own_cells(groups, cells) || shared != global as usize {
        return Err(Refusal::CellsLength);
    }
    if logged % 8 != 0 || logged / 8 != all_cells(groups, cells, global) {
        return Err(Refusal::LogLength);
    }
    if recorded < 3075 {
        return Err(Refusal::RecordsLength);
    }
    Ok(())
}

// Refusals 20, 21, 30 and 24 of a launch file, by the lengths of the lent buffers.
#[tactic(auto, using(std::proofs::lemmas::Bool::Decides::nat_tests), unfolding(crate::proofs::Opened::opened))]
pub fn lent_for_file(
    held: usize,
    shared: usize,
    logged: usize,
    recorded: usize,
    room: usize,
) -> Result<(), Refusal>
    ensures { refusal_of result ≡ file_lent held shared logged recorded room }
{
    if held != 1024 || shared != 1024 {
        return Err(Refusal::CellsLength);
    }
    if logged != 8192 {
        return Err(Refusal::LogLength);
    }
    if recorded < 3075 {
        return Err(Refusal::RecordsLength);
    }
    if room < 24576 {
        return Err(Refusal::OutputLength);
    }
    Ok(())
}
