// A row's accesses of global cells, thread by thread: those of the group's own threads are looked at first, then those of other groups.
#![tactic(auto)]

ghost use Rattle.std.specs.Prelude.{◌≡◌, ◌+◌, ◌^◌, ◌<◌, ◌≤◌, length};
ghost use Rattle.std.specs.Int.Count.{count_trailing_zeros};
ghost use Rattle.spec.specs.declared.Verdict.TheVariants.{GroupRace};
ghost use Rattle.layout.specs.Ops.{number};
ghost use Rattle.layout.specs.Logging.{SameBut};
ghost use Rattle.layout.specs.Memory.{KeptBut, CellNumber};
ghost use Rattle.layout.specs.Shared.{GroupAsks, GlobalAsks, GlobalOne, GlobalTurn, GlobalRow, group_kind_word};

// The verdict where a thread's access meets the groups `others`: the lowest is named.
fn group_race(
    masks: &[u32],
    cells: usize,
    turn: layout::Turn,
    others: u32,
    op: layout::AccessOp,
) -> spec::Verdict
    requires { (0 < others) × GroupAsks (number op) cells turn.cell masks.now }
    ensures { result ≡ GroupRace turn.thread (count_trailing_zeros 32 others)
        (group_kind_word (number op) cells turn.cell (count_trailing_zeros 32 others) masks.now) turn.cell }
{
    let other = masks::lowest(others);
    let kind = groupmasks::race_kind(masks, cells, turn.cell as usize, other, op);
    spec::Verdict::GroupRace(turn.thread, other, kind, turn.cell)
}

// A thread's access, by the group of the bit `own`.
#[inline(always)]
fn access_one(
    regs: &mut [u32; 512],
    cells: &mut [u32],
    log: &mut [u32],
    masks: &mut [u32],
    turn: layout::Turn,
    own: u32,
    row: layout::AccessRow,
) -> Result<(), spec::Verdict>
    requires { (turn.thread < 32) × (turn.bit ≡ 2 ^ turn.thread) × CellNumber (number row.op) row.d row.a turn.thread regs.old turn.cell
        × GlobalAsks (number row.op) row.d row.a cells.old log.old masks.old }
    ensures { GlobalOne (number row.op) turn.thread row.d row.a own regs.old cells.old log.old masks.old result
        regs.new cells.new log.new masks.new × KeptBut row.d (turn.thread + 1) regs.old regs.new
        × SameBut turn.cell (length cells.old) log.old log.new }
{
    if !access::goes_on(regs, cells, log, turn, row) {
        // Of a copy: handed on itself, the turn would be put into memory for each access that goes on too.
        return Err(access::verdict(regs, cells, log, layout::Turn { ..turn }, row));
    }
    let i = turn.cell as usize;
    let k = cells.len();
    let others = groupmasks::rivals(masks, k, i, own, row.op);
    if others != 0 {
        return Err(group_race(masks, k, turn, others, row.op));
    }
    access::make(regs, cells, log, turn, row);
    groupmasks::enter(masks, k, i, own, row.op);
    Ok(())
}

// The turn of a thread, the lowest of those that are left: nothing where it is not enabled.
#[inline(always)]
fn turn(
    regs: &mut [u32; 512],
    cells: &mut [u32],
    log: &mut [u32],
    masks: &mut [u32],
    left: u32,
    thread: u32,
    bit: u32,
    own: u32,
    row: layout::AccessRow,
) -> layout::Turns
    requires { (thread < 32) × (bit ≡ 2 ^ thread) × GlobalAsks (number row.op) row.d row.a cells.old log.old masks.old }
    ensures { GlobalTurn (number row.op) left thread row.d row.a own regs.old cells.old log.old masks.old result
        regs.new cells.new log.new masks.new }
{
    if left % 2 == 0 {
        return layout::Turns {
            access: Ok(()),
            reach: 0,
        };
    }
    let cell = access::accessed_cell(regs, thread, row);
    let turn = layout::Turn { thread, bit, cell };
    layout::Turns {
        access: access_one(regs, cells, log, masks, turn, own, row),
        reach: cell,
    }
}

// The accesses of the enabled threads, lowest first, up to one that does not go on.
// Inlined into each arm of `access_row`, where the op is known.
#[inline(always)]
fn accesses(
    regs: &mut [u32; 512],
    cells: &mut [u32],
    log: &mut [u32],
    masks: &mut [u32],
    n: u32,
    mask: u32,
    row: layout::AccessRow,
    group: u32,
) -> layout::Turns
    requires { (n ≤ 32) × (mask < 2 ^ n) × (group < 8) × GlobalAsks (number row.op) row.d row.a cells.old log.old masks.old }
    ensures { GlobalRow (number row.op) n mask row.d row.a group regs.old cells.old log.old masks.old result
        regs.new cells.new log.new masks.new }
{
    let mut left = mask;
    let mut bit: u32 = 1;
    let mut reach: u32 = 0;
    for thread in 0..access::reaching(mask, n) {
        let r = turn(regs, cells, log, masks, left, thread, bit, 1 << group, row);
        reach = reach | r.reach;
        if let Err(v) = r.access {
            return layout::Turns {
                access: Err(v),
                reach,
            };
        }
        left = left / 2;
        bit = bit << 1;
    }
    layout::Turns {
        access: Ok(()),
        reach,
    }
}

// With a loop for each op, so that what the op decides is decided once a row.
pub fn access_row(
    regs: &mut [u32; 512],
    cells: &mut [u32],
    log: &mut [u32],
    masks: &mut [u32],
    n: u32,
    mask: u32,
    row: layout::AccessRow,
    group: u32,
) -> layout::Turns
    requires { (n ≤ 32) × (mask < 2 ^ n) × (group < 8) × GlobalAsks (number row.op) row.d row.a cells.old log.old masks.old }
    ensures { GlobalRow (number row.op) n mask row.d row.a group regs.old cells.old log.old masks.old result
        regs.new cells.new log.new masks.new }
{
    match row.op {
        layout::AccessOp::Load => {
            let loads = layout::AccessRow {
                op: layout::AccessOp::Load,
                ..row
            };
            accesses(regs, cells, log, masks, n, mask, loads, group)
        }
        layout::AccessOp::Store => {
            let stores = layout::AccessRow {
                op: layout::AccessOp::Store,
                ..row
            };
            accesses(regs, cells, log, masks, n, mask, stores, group)
        }
        layout::AccessOp::Add => {
            let adds = layout::AccessRow {
                op: layout::AccessOp::Add,
                ..row
            };
            accesses(regs, cells, log, masks, n, mask, adds, group)
        }
    }
}
