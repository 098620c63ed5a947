// The rows of a group over its own cells, by the kinds of their ops: computing rows, accesses, constructs and BARRIER.
#![tactic(auto)]

ghost use Rattle.std.specs.Prelude.{◌≡◌, ◌+◌, ◌*◌, ◌^◌, ◌<◌, ◌≤◌, length, get_or};
ghost use Rattle.spec.specs.Limits.{log_per_cell};
ghost use Rattle.layout.specs.Next as next;
ghost use Rattle.layout.specs.Constructs.{barrier_next, barrier_log};
ghost use Rattle.layout.specs.Memory.{ComputeAsks, Computed, AccessAsks, InMemory, KeptBut, cell_in};
ghost use Rattle.layout.specs.Represents.{Room, DepthAsks, moved_on, reached, accessed};
ghost use Rattle.layout.specs.Running.{AccessDone};
ghost use Rattle.layout.specs.Groups.{SharedAfter};
ghost use Rattle.layout.specs.Counting.{Roomy, StepsOn};
ghost use Rattle.banks.specs.Counting.{Older};
ghost use Rattle.banks.specs.Remembering.{Memo};
ghost use Rattle.intervals.specs.Records.{RecordAsks, records_after};
ghost use Rattle.step.specs.Recording.{RowRecorded, paid};
ghost use Rattle.step.specs.Arms.{OperandsAt, ConstructCounted};

pub fn row_operands(table: &[u8], row: usize) -> layout::Operands
    requires { (row < 256) × (row * 4 + 3 < length table.now) }
    ensures { OperandsAt table.now row result }
{
    layout::Operands {
        d: table[row * 4 + 1] as usize,
        a: table[row * 4 + 2] as usize,
        b: table[row * 4 + 3] as usize,
    }
}

// A computing row.
pub fn compute_row(
    regs: &mut [u32; 512],
    n: u32,
    op: u8,
    x: layout::Operands,
    s: layout::State,
) -> layout::Next
    requires { Room s × (n ≤ 32) × (x.a < 256) × (x.b < 256) × ComputeAsks op x.d x.a x.b × (length regs.old ≡ 512) }
    ensures { (result ≡ next.Go (moved_on s)) × Computed op n s.mask x.d x.a x.b regs.old regs.new }
{
    compute::compute_row(regs, n, s.mask, op, x.d, x.a, x.b);
    Ok(constructs::moved(s))
}

// The state with accesses logged of no cell above h.
fn reached(s: layout::State, h: u32) -> layout::State
    requires { Room s }
    ensures { Room result × (result ≡ reached s h) }
{
    layout::State {
        reach: s.reach | h,
        ..s
    }
}

// The state after a row's accesses: on to the next row, which charges this one's cost, or stopped at this one.
fn after_access(
    records: &mut [u32],
    r: layout::Turns,
    cost: u32,
    group: u32,
    s: layout::State,
) -> layout::Next
    requires { Room s × (group < 8) × RecordAsks (s.barriers + group) s.rows records.old × (cost ≤ 31) }
    ensures { (result ≡ accessed (reached s r.reach) r.access) × (records.new ≡ paid r.access (s.barriers + group) cost records.old) }
{
    let z = reached(s, r.reach);
    match r.access {
        Ok(()) => {
            intervals::charge(records, s.barriers + group, cost);
            Ok(constructs::moved(z))
        }
        Err(verdict) => Err(layout::Stopped { state: z, verdict }),
    }
}

// The accesses of a row, and what they cost: that is found first, since a LOAD may put something else where the number of its cell was.
// The lent slices stay apart: tried as fields of one value, each function then owed for each field a clause that it keeps its reference.
pub fn access_row(
    regs: &mut [u32; 512],
    cells: &mut [u32],
    log: &mut [u32],
    costs: &mut banks::Costs,
    records: &mut [u32],
    kernel: &layout::Kernel,
    op: u8,
    x: layout::Operands,
    group: u32,
    s: layout::State,
) -> layout::Next
    requires { Room s × (group < 8) × (s.mask < 2 ^ kernel.now.threads) × AccessAsks op x.d x.a cells.old log.old
        × InMemory kernel.now.threads regs.old cells.old log.old
        × Older (s.rows + 1) costs.old.stamps × Memo costs.old.memo × RecordAsks (s.barriers + group) s.rows records.old }
    ensures { AccessDone op kernel.now.threads x.d x.a s kernel.now.common.now regs.old cells.old log.old result
        regs.new cells.new log.new × KeptBut x.d kernel.now.threads regs.old regs.new × StepsOn s result
        × RowRecorded op kernel.now.threads group (cell_in op x.d x.a regs.old) s result records.old records.new
        costs.new.stamps costs.new.memo }
{
    let numbers = access::cell_register(op, x.d, x.a);
    let cost = banks::row_cost(
        regs,
        numbers,
        kernel.threads,
        s.mask,
        costs,
        s.rows + 1,
        s.row % 16,
    );
    let row = layout::AccessRow {
        op: layout::AccessOp::of(op),
        d: x.d,
        a: x.a,
    };
    let r = memory::access_row(regs, cells, log, kernel.common, kernel.threads, s.mask, row);
    after_access(records, r, cost, group, s)
}

// The row of a construct: where it changes the mask, what was stepped under the old one is added to the step counts.
pub fn construct_row(
    regs: &[u32; 512],
    opened: &mut layout::OpenConstructs,
    counts: &mut [u32; 32],
    ends: &[u8; 256],
    op: u8,
    a: usize,
    s: layout::State,
) -> layout::Next
    requires { Room s × (32 ≤ op) × (op ≤ 36) × ((op ≡ 32 → a < 16) × (op ≡ 35 → a < 16)) × DepthAsks op s opened.old.rows
        × Roomy s.mask (s.since + 1) counts.old }
    ensures { ConstructCounted op a (get_or ends.now s.row 0) s regs.now opened.old.masks opened.old.rows counts.old result
        opened.new.masks opened.new.rows counts.new }
{
    let end = ends[s.row] as usize;
    let construct = layout::ConstructOp::of(op);
    let z = constructs::construct_row(regs, opened, construct, a, end, s);
    Ok(stepcounts::settle(counts, op, s.mask, z))
}

// After a barrier that lets the run go on: where all have passed it, the next interval starts at the row behind it, and the log of the global cells is
// cleared too; the group masks stay.
fn next_interval(
    records: &mut [u32],
    shared: &mut [u32],
    global: usize,
    group: u32,
    s: layout::State,
    z: layout::State,
)
    requires { Room s × (group < 8) × RecordAsks (s.barriers + group) s.rows records.old × (s.rows ≤ z.rows) × (z.row ≤ 256)
        × (length shared.old ≡ log_per_cell * global) }
    ensures { (records.new ≡ records_after group 0 s (next.Go z) records.old)
        × SharedAfter s (next.Go z) shared.old shared.new }
{
    if s.barriers < z.barriers {
        intervals::release(records, s.barriers + group, z.row as u32, z.rows);
        logclear::clear(shared, global);
    }
}

// BARRIER.
pub fn barrier_row(
    log: &mut [u32],
    shared: &mut [u32],
    records: &mut [u32],
    cells: usize,
    global: usize,
    n: u32,
    group: u32,
    s: layout::State,
) -> layout::Next
    requires { Room s × (1 ≤ n) × (n ≤ 32) × (group < 8) × (length log.old ≡ log_per_cell * cells)
        × RecordAsks (s.barriers + group) s.rows records.old
        × (length shared.old ≡ log_per_cell * global) }
    ensures { (result ≡ barrier_next n s) × (log.new ≡ barrier_log n s cells log.old)
        × (records.new ≡ records_after group 0 s result records.old)
        × SharedAfter s result shared.old shared.new }
{
    // Handed on as it is: taken apart by a `?` and put together again, two words of its state share a register in the run's loop.
    let next = constructs::barrier_row(log, cells, n, s);
    match next {
        Ok(z) => next_interval(records, shared, global, group, s, z),
        Err(_) => {}
    }
    next
}
