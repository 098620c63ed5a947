// A row's accesses, thread by thread. The cells' numbers are put together bit by bit on the way: none is above what comes out.
#![tactic(auto)]

ghost use Rattle.std.specs.Prelude.{◌≡◌, Bool, true, eqb, ◌-◌, ◌%◌, ◌^◌, ◌<◌, ◌≤◌};
ghost use Rattle.spec.specs.Limits.{common_from};
ghost use Rattle.layout.specs.Ops.{number};
ghost use Rattle.layout.specs.Memory.{AccessRowAsks, AccessLoop, AccessRow};

// Whether the lowest of the threads that are left is enabled. Where ALL are, the mask is not looked at.
fn is_enabled<const ALL: bool>(left: u32) -> bool
    requires { ALL ≡ true → left % 2 ≡ 1 }
    ensures { result ≡ eqb (left % 2) 1 }
{
    ALL || left % 2 == 1
}

// The accesses of the enabled threads, lowest first, up to one that does not go on.
// Inlined into each arm of `row_by_op`, where the op is known.
#[inline(always)]
fn accesses<const ALL: bool>(
    regs: &mut [u32; 512],
    cells: &mut [u32],
    log: &mut [u32],
    common: &[u32],
    n: u32,
    mask: u32,
    row: layout::AccessRow,
) -> layout::Halt
    requires { (ALL ≡ true → mask ≡ 2 ^ n - 1) × (mask < 2 ^ n) × AccessRowAsks (number row.op) n row.d row.a regs.old cells.old log.old }
    ensures { AccessLoop (number row.op) n mask row.d row.a common.now regs.old cells.old log.old result
        regs.new cells.new log.new }
{
    let mut left = mask;
    let mut bit: u32 = 1;
    let mut reach: u32 = 0;
    for thread in 0..access::reaching(mask, n) {
        if is_enabled::<ALL>(left) {
            let cell = access::accessed_cell(regs, thread, row);
            let turn = layout::Turn { thread, bit, cell };
            reach = reach | cell;
            if !access::turn(regs, cells, log, common, turn, row) {
                return layout::Halt { turn, reach };
            }
        }
        left = left / 2;
        bit = bit << 1;
    }
    let none = layout::Turn {
        thread: n,
        bit,
        cell: 0,
    };
    layout::Halt { turn: none, reach }
}

// With a loop for each op, so that what the op decides is decided once a row.
fn row_by_op<const ALL: bool>(
    regs: &mut [u32; 512],
    cells: &mut [u32],
    log: &mut [u32],
    common: &[u32],
    n: u32,
    mask: u32,
    row: layout::AccessRow,
) -> layout::Halt
    requires { (ALL ≡ true → mask ≡ 2 ^ n - 1) × (mask < 2 ^ n) × AccessRowAsks (number row.op) n row.d row.a regs.old cells.old log.old }
    ensures { AccessLoop (number row.op) n mask row.d row.a common.now regs.old cells.old log.old result
        regs.new cells.new log.new }
{
    match row.op {
        layout::AccessOp::Load => {
            let loads = layout::AccessRow {
                op: layout::AccessOp::Load,
                ..row
            };
            accesses::<ALL>(regs, cells, log, common, n, mask, loads)
        }
        layout::AccessOp::Store => {
            let stores = layout::AccessRow {
                op: layout::AccessOp::Store,
                ..row
            };
            accesses::<ALL>(regs, cells, log, common, n, mask, stores)
        }
        layout::AccessOp::Add => {
            let adds = layout::AccessRow {
                op: layout::AccessOp::Add,
                ..row
            };
            accesses::<ALL>(regs, cells, log, common, n, mask, adds)
        }
    }
}

// Where all threads are enabled, no thread is looked up in the mask.
fn enabled_row(
    regs: &mut [u32; 512],
    cells: &mut [u32],
    log: &mut [u32],
    common: &[u32],
    n: u32,
    mask: u32,
    row: layout::AccessRow,
) -> layout::Halt
    requires { (mask < 2 ^ n) × AccessRowAsks (number row.op) n row.d row.a regs.old cells.old log.old }
    ensures { AccessLoop (number row.op) n mask row.d row.a common.now regs.old cells.old log.old result
        regs.new cells.new log.new }
{
    if mask == masks::all(n) {
        return row_by_op::<true>(regs, cells, log, common, n, mask, row);
    }
    row_by_op::<false>(regs, cells, log, common, n, mask, row)
}

// What the numbers of own cells are put together to. Common cells, from 65,536 on, are not logged, so that nothing is to be cleared for them.
fn own_reach(reach: u32) -> u32
    ensures { result ≡ reach % common_from }
{
    reach % 65536
}

// The accesses of a row, and why they stop.
pub fn access_row(
    regs: &mut [u32; 512],
    cells: &mut [u32],
    log: &mut [u32],
    common: &[u32],
    n: u32,
    mask: u32,
    row: layout::AccessRow,
) -> layout::Turns
    requires { (mask < 2 ^ n) × AccessRowAsks (number row.op) n row.d row.a regs.old cells.old log.old }
    ensures { AccessRow (number row.op) n mask row.d row.a common.now regs.old cells.old log.old result
        regs.new cells.new log.new }
{
    let halt = enabled_row(regs, cells, log, common, n, mask, row);
    let reach = own_reach(halt.reach);
    let turn = halt.turn;
    if turn.thread == n {
        return layout::Turns {
            access: Ok(()),
            reach,
        };
    }
    // What stopped it is looked for once, outside the loops.
    if access::is_common(common, turn.cell) {
        return layout::Turns {
            access: Err(spec::Verdict::Common(turn.thread, turn.cell)),
            reach,
        };
    }
    layout::Turns {
        access: Err(access::verdict(regs, cells, log, turn, row)),
        reach,
    }
}
