// The answers of document 01. The definitions in specs/ and all code share these types.
#![tactic(auto)]

// The kind of a race: what the other thread did to the cell, then what the acting thread does to it.
#[derive(Clone, Copy, Debug, PartialEq, Eq)]
pub enum AccessKind {
    ReadWrite,
    WriteRead,
    WriteWrite,
    ReadAdd,
    AddRead,
    WriteAdd,
    AddWrite,
}

// How a launch ended.
// Race: the acting thread, the lowest conflicting one of its group, the kind, the cell.
// GroupRace: the acting thread, the lowest other group that it conflicts with, the kind, the global cell.
// Outside: the thread, the number that it used.
// Common: the thread that would have changed a common cell, the number that it used.
// Diverged: the lowest enabled thread, the lowest one not enabled.
#[derive(Clone, Copy, Debug, PartialEq, Eq)]
pub enum Verdict {
    Passed,
    Race(u32, u32, AccessKind, u32),
    GroupRace(u32, u32, AccessKind, u32),
    Outside(u32, u32),
    Common(u32, u32),
    Diverged(u32, u32),
    Spent,
}

// What a report says beside the steps of each thread and the cells: the verdict, the row and the group where the run stopped, and the counts.
#[derive(Clone, Copy, Debug, PartialEq, Eq)]
pub struct Outcome {
    pub verdict: Verdict,
    pub row: u32,
    pub group: u32,
    pub rows: u32,
    pub barriers: u32,
    pub conflicts: u32,
}

// Why an input is turned back. A case holds its place where that is no constant:
// a line, a row, or the length that was needed.
#[derive(Clone, Copy, Debug, PartialEq, Eq)]
pub enum Refusal {
    TableLength,
    TooManyRows(u32),
    UnknownOp(u32),
    BadOperand(u32),
    Misplaced(u32),
    TooDeep(u32),
    LeftOpen(u32),
    ThreadsOutOfRange(u32),
    CellsOutOfRange(u32),
    LimitOutOfRange(u32),
    LineNotDue(u32),
    FileTooLong,
    CellsLength,
    LogLength,
    ReportTooLong(u32),
    ReportLines,
    OutputLength,
    RecordsLength,
    GroupsOutOfRange(u32),
    TooManyCells(u32),
    CommonFile(u32),
}

// What a report is made of: the outcome of a run, or a refusal's number and place. It is no Result over Refusal: from C come any two words
// (`sekufoyi_write_refusal`), and a report of a refusal is no failure.
#[derive(Clone, Copy, Debug, PartialEq, Eq)]
pub enum Subject {
    Ran(Outcome),
    Refused(u32, u32),
}

// What a line of a report says behind its `=`.
#[derive(Clone, Copy, Debug, PartialEq, Eq)]
pub enum Value {
    Hyphen,
    Number(u32),
    Verdict(Verdict),
    Kind(AccessKind),
    Report,
}

// What a report says of where a run stopped.
#[derive(Clone, Copy, Debug, PartialEq, Eq)]
pub struct Details {
    pub row: Value,
    pub group: Value,
    pub othergroup: Value,
    pub thread: Value,
    pub other: Value,
    pub kind: Value,
    pub at: Value,
}
