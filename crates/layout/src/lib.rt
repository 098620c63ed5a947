// The run's own state, and how its buffers stand for the lock-step definition's (specs/).
// regs holds register r of thread t at r * 32 + t; log holds all reader masks, then all writer masks, all adder masks, all first values and
// all marks.
#![tactic(auto)]

ghost use Rattle.std.specs.Prelude.{◌≡◌, ◌≤◌};
ghost use Rattle.layout.specs.Ops.{number, construct_number};

// The ops of access rows, on own cells or on global ones.
#[derive(Clone, Copy)]
pub enum AccessOp {
    Load,
    Store,
    Add,
}

impl AccessOp {
    // The op of own cells with this byte.
    pub fn of(byte: u8) -> AccessOp
        requires { (16 ≤ byte) × (byte ≤ 18) }
        ensures { number result ≡ byte }
    {
        match byte {
            16 => AccessOp::Load,
            17 => AccessOp::Store,
            _ => AccessOp::Add,
        }
    }

    // The byte of the op on own cells.
    pub fn byte(self) -> u8
        ensures { result ≡ number self }
    {
        match self {
            AccessOp::Load => 16,
            AccessOp::Store => 17,
            AccessOp::Add => 18,
        }
    }
}

// The ops of constructs.
#[derive(Clone, Copy)]
pub enum ConstructOp {
    If,
    Else,
    EndIf,
    While,
    EndWhile,
}

impl ConstructOp {
    // The op with this byte.
    pub fn of(byte: u8) -> ConstructOp
        requires { (32 ≤ byte) × (byte ≤ 36) }
        ensures { construct_number result ≡ byte }
    {
        match byte {
            32 => ConstructOp::If,
            33 => ConstructOp::Else,
            34 => ConstructOp::EndIf,
            35 => ConstructOp::While,
            _ => ConstructOp::EndWhile,
        }
    }
}

// The bytes of a row behind its op.
#[derive(Clone, Copy)]
pub struct Operands {
    pub d: usize,
    pub a: usize,
    pub b: usize,
}

// A row of accesses: its op and its registers.
#[derive(Clone, Copy)]
pub struct AccessRow {
    pub op: AccessOp,
    pub d: usize,
    pub a: usize,
}

// A thread's turn in a row of accesses: the thread, its bit, and the number of the cell that it accesses.
#[derive(Clone, Copy)]
pub struct Turn {
    pub thread: u32,
    pub bit: u32,
    pub cell: u32,
}

// The turn at which a row's accesses halt, that of the number of threads where none does; and a number that no cell which they accessed is above.
// Four words: with two, the registers would lie between two vectors' places in the run's frame, and an Option would make five.
#[derive(Clone, Copy)]
pub struct Halt {
    pub turn: Turn,
    pub reach: u32,
}

// What a row's accesses come to, and a number that no cell which they accessed is above.
#[derive(Clone, Copy)]
pub struct Turns {
    pub access: Result<(), spec::Verdict>,
    pub reach: u32,
}

// What all groups of a launch run by: the table with the row where each of its loops ends, the threads and the own cells of each group, how many groups there
// are, the limit, and the common cells.
#[derive(Clone, Copy)]
pub struct Kernel<'a> {
    pub table: &'a [u8],
    pub ends: &'a [u8; 256],
    pub threads: u32,
    pub each: usize,
    pub groups: u32,
    pub limit: u32,
    pub common: &'a [u32],
}

// The mask and the row of each open construct, the innermost last below the depth. Lent, not copied.
#[derive(Drop)]
pub struct OpenConstructs {
    pub masks: [u32; 8],
    pub rows: [usize; 8],
}

// The small part of the state, which goes by value. Above the cell numbered `reach` nothing has been logged since the log was cleared.
// `since` is how many steps each enabled thread has made under the present mask that are not in the step counts yet.
#[derive(Clone, Copy)]
pub struct State {
    pub mask: u32,
    pub reach: u32,
    pub row: usize,
    pub since: u32,
    pub rows: u32,
    pub barriers: u32,
    pub depth: usize,
}

// Where a row stopped, and with what verdict. The state comes first, so that its words have the places that they have where the row goes on:
// otherwise two of them share a register in the run's loop, and have to be told apart in every row.
#[derive(Clone, Copy)]
pub struct Stopped {
    pub state: State,
    pub verdict: spec::Verdict,
}

// What a row comes to: the state after it, or where the run stopped.
pub type Next = Result<State, Stopped>;
