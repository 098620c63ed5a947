// One thread's LOAD, STORE or ATOMIC ADD: one path for all three.
#![tactic(auto)]

ghost use Rattle.std.specs.Prelude.{Ok, ◌≡◌, true, false, ◌+◌, ◌*◌, ◌^◌, ◌<◌, ◌≤◌, length, get_or};
ghost use Rattle.layout.specs.Ops.{number};
ghost use Rattle.layout.specs.Logging.{SameBut};
ghost use Rattle.spec.specs.Shape.{in_common};
ghost use Rattle.layout.specs.Memory.{AccessAsks, AccessOne, AccessMade, AccessStopped, TurnMade, takes_common, KeptBut, Transferred, CellRegister, CellNumber, TestAsks, goes_on};

// One more than the highest thread of this mask of n: a loop over threads ends there.
pub fn reaching(mask: u32, n: u32) -> u32
    requires { (n ≤ 32) × (mask < 2 ^ n) }
    ensures { (mask < 2 ^ result) × (result ≤ n) × (2 ^ result ≤ 2 * mask + 1) }
{
    32 - mask.leading_zeros()
}

// The access itself: what a LOAD puts in its register, what a STORE or an ATOMIC ADD puts in its cell.
fn transfer(regs: &mut [u32; 512], cells: &mut [u32], j: usize, i: usize, row: layout::AccessRow)
    requires { (j < 32) × (i < length cells.old) × (row.d < 16) × (row.a < 16) }
    ensures { Transferred (number row.op) (row.d * 32 + j) (row.a * 32 + j) i regs.old cells.old regs.new cells.new }
{
    match row.op {
        layout::AccessOp::Load => regs[row.d * 32 + j] = cells[i],
        layout::AccessOp::Store => cells[i] = regs[row.a * 32 + j],
        layout::AccessOp::Add => cells[i] = words::add(cells[i], regs[row.a * 32 + j]),
    }
}

// The register with the cell's number: a LOAD has it in Ra, the others in Rd. By the op's byte, and for any other byte too, as docs/ has these two.
pub fn cell_register(op: u8, d: usize, a: usize) -> usize
    requires { (d < 16) × (a < 16) }
    ensures { CellRegister op d a result }
{
    if op == 16 { a } else { d }
}

// The number of the cell that a thread accesses.
pub fn cell_number(regs: &[u32; 512], thread: u32, op: u8, d: usize, a: usize) -> u32
    requires { (thread < 32) × (d < 16) × (a < 16) }
    ensures { CellNumber op d a thread regs.now result }
{
    regs[cell_register(op, d, a) * 32 + thread as usize]
}

// The same of a row of accesses.
pub fn accessed_cell(regs: &[u32; 512], thread: u32, row: layout::AccessRow) -> u32
    requires { (thread < 32) × (row.d < 16) × (row.a < 16) }
    ensures { CellNumber (number row.op) row.d row.a thread regs.now result }
{
    cell_number(regs, thread, row.op.byte(), row.d, row.a)
}

// Whether a thread's access goes on. The thread's bit is handed down, so that it is not shifted into place for each access.
pub fn goes_on(
    regs: &[u32; 512],
    cells: &[u32],
    log: &[u32],
    turn: layout::Turn,
    row: layout::AccessRow,
) -> bool
    requires { (turn.thread < 32) × TestAsks (number row.op) row.a cells.now log.now }
    ensures { result ≡ goes_on (number row.op) (get_or regs.now (row.a * 32 + turn.thread) 0) turn.bit turn.cell cells.now log.now }
{
    let i = turn.cell as usize;
    let n = cells.len();
    if n <= i {
        return false;
    }
    let v = regs[row.a * 32 + turn.thread as usize];
    accesslog::met(log, n, i, turn.bit, v, row.op) == turn.bit
}

// The access itself, and its thread in the log.
pub fn make(
    regs: &mut [u32; 512],
    cells: &mut [u32],
    log: &mut [u32],
    turn: layout::Turn,
    row: layout::AccessRow,
)
    requires { (turn.thread < 32) × AccessAsks (number row.op) row.d row.a cells.old log.old × (turn.bit ≡ 2 ^ turn.thread)
        × CellNumber (number row.op) row.d row.a turn.thread regs.old turn.cell
        × (goes_on (number row.op) (get_or regs.old (row.a * 32 + turn.thread) 0) turn.bit turn.cell cells.old log.old ≡ true) }
    ensures { AccessMade (number row.op) turn.thread row.d row.a regs.old cells.old log.old
        regs.new cells.new log.new × KeptBut row.d (turn.thread + 1) regs.old regs.new
        × SameBut turn.cell (length cells.old) log.old log.new }
{
    let j = turn.thread as usize;
    let i = turn.cell as usize;
    let n = cells.len();
    let v = regs[row.a * 32 + j];
    // The log comes last, where a LOAD of a common cell has nothing like it: so the compiler keeps the two apart.
    transfer(regs, cells, j, i, row);
    logentry::enter(log, n, i, turn.bit, v, row.op);
}

// Whether x is the number of a common cell.
pub fn is_common(common: &[u32], x: u32) -> bool
    ensures { result ≡ in_common common.now x }
{
    65536 <= x && ((x - 65536) as usize) < common.len()
}

// A thread's LOAD of a common cell: nothing is logged.
pub fn take(
    regs: &mut [u32; 512],
    cells: &[u32],
    log: &[u32],
    common: &[u32],
    turn: layout::Turn,
    row: layout::AccessRow,
)
    requires { (turn.thread < 32) × AccessAsks 16 row.d row.a cells.now log.now × CellNumber 16 row.d row.a turn.thread regs.old turn.cell
        × (in_common common.now turn.cell ≡ true) }
    ensures { AccessOne 16 turn.thread row.d row.a common.now regs.old cells.now log.now (Ok tt)
        regs.new cells.now log.now × KeptBut row.d (turn.thread + 1) regs.old regs.new }
{
    regs[row.d * 32 + turn.thread as usize] = common[(turn.cell - 65536) as usize];
}

// Why a thread's access does not go on, where its number is no common cell's.
pub fn verdict(
    regs: &[u32; 512],
    cells: &[u32],
    log: &[u32],
    turn: layout::Turn,
    row: layout::AccessRow,
) -> spec::Verdict
    requires { (turn.thread < 32) × AccessAsks (number row.op) row.d row.a cells.now log.now × (turn.bit ≡ 2 ^ turn.thread)
        × CellNumber (number row.op) row.d row.a turn.thread regs.now turn.cell
        × (goes_on (number row.op) (get_or regs.now (row.a * 32 + turn.thread) 0) turn.bit turn.cell cells.now log.now ≡ false) }
    ensures { AccessStopped (number row.op) turn.thread row.d row.a turn.cell regs.now cells.now log.now result }
{
    let i = turn.cell as usize;
    let n = cells.len();
    if n <= i {
        return spec::Verdict::Outside(turn.thread, turn.cell);
    }
    let v = regs[row.a * 32 + turn.thread as usize];
    let met = accesslog::met(log, n, i, turn.bit, v, row.op);
    let other = masks::lowest(met - turn.bit);
    let kind = accesslog::race_kind(log, n, i, other, v, row.op);
    spec::Verdict::Race(turn.thread, other, kind, turn.cell)
}

// Whether an access by op that does not go on is a LOAD of a common cell.
fn takes(common: &[u32], x: u32, op: layout::AccessOp) -> bool
    ensures { result ≡ takes_common (number op) x common.now }
{
    match op {
        layout::AccessOp::Load => is_common(common, x),
        _ => false,
    }
}

// A thread's access: whether it went on. Common cells are looked at only where it does not go on among the others.
// It stands in the loop of each op, in which what the op decides is known.
#[inline(always)]
pub fn turn(
    regs: &mut [u32; 512],
    cells: &mut [u32],
    log: &mut [u32],
    common: &[u32],
    turn: layout::Turn,
    row: layout::AccessRow,
) -> bool
    requires { (turn.thread < 32) × AccessAsks (number row.op) row.d row.a cells.old log.old × (turn.bit ≡ 2 ^ turn.thread)
        × CellNumber (number row.op) row.d row.a turn.thread regs.old turn.cell }
    ensures { TurnMade (number row.op) turn.thread row.d row.a turn.cell turn.bit common.now regs.old cells.old log.old result
        regs.new cells.new log.new }
{
    if goes_on(regs, cells, log, turn, row) {
        make(regs, cells, log, turn, row);
        return true;
    }
    if takes(common, turn.cell, row.op) {
        take(regs, cells, log, common, turn, row);
        return true;
    }
    false
}
