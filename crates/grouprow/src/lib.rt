// One row of a group of a launch, by its op: over its own cells a row of a group alone, or a row of the launch.
#![tactic(auto)]

ghost use Rattle.std.specs.Prelude.{◌+◌, ◌*◌, get_or};
ghost use Rattle.layout.specs.Counting.{Roomy, NextCounted};
ghost use Rattle.banks.specs.Counting.{Older};
ghost use Rattle.banks.specs.Remembering.{Memo};
ghost use Rattle.intervals.specs.Records.{RecordAsks};
ghost use Rattle.step.specs.Recording.{RowRecorded, cell_due};
ghost use Rattle.grouprow.specs.Rows.{GroupReady, GroupSteps};

// The lent slices stay apart: tried as fields of one value, each function then owed for each field a clause that it keeps its reference.
// The op is told apart once, outside the loops over the threads; the shorter a row of an op is, the sooner it is told apart.
pub fn group_row(
    kernel: &layout::Kernel,
    group: u32,
    regs: &mut [u32; 512],
    cells: &mut [u32],
    log: &mut [u32],
    global: &mut [u32],
    shared: &mut [u32],
    masks: &mut [u32],
    opened: &mut layout::OpenConstructs,
    counts: &mut [u32; 32],
    costs: &mut banks::Costs,
    records: &mut [u32],
    s: layout::State,
) -> layout::Next
    requires { GroupReady kernel.now.table.now kernel.now.ends.now kernel.now.threads group s
        regs.old cells.old log.old opened.old.masks opened.old.rows global.old shared.old masks.old
        × Roomy s.mask (s.since + 1) counts.old × Older (s.rows + 1) costs.old.stamps × Memo costs.old.memo
        × RecordAsks (s.barriers + group) s.rows records.old }
    ensures { GroupSteps kernel.now.table.now kernel.now.threads group s kernel.now.common.now
        regs.old cells.old log.old opened.old.masks opened.old.rows global.old shared.old masks.old result
        regs.new cells.new log.new opened.new.masks opened.new.rows global.new shared.new masks.new
        × NextCounted (get_or kernel.now.table.now (s.row * 4) 0) s result counts.old counts.new
        × RowRecorded (get_or kernel.now.table.now (s.row * 4) 0) kernel.now.threads group (cell_due kernel.now.table.now s regs.old) s result
        records.old records.new costs.new.stamps costs.new.memo }
{
    let n = kernel.threads;
    let op = kernel.table[s.row * 4];
    let x = step::row_operands(kernel.table, s.row);
    if op < 16 {
        return step::compute_row(regs, n, op, x, s);
    }
    if 31 < op {
        if op < 37 {
            return step::construct_row(regs, opened, counts, kernel.ends, op, x.a, s);
        }
        return step::barrier_row(log, shared, records, cells.len(), global.len(), n, group, s);
    }
    if op < 19 {
        return step::access_row(regs, cells, log, costs, records, kernel, op, x, group, s);
    }
    if op == 19 {
        return launchrows::launch_row(regs, n, group, x.d, s);
    }
    launchrows::global_row(regs, global, shared, masks, n, group, op, x, s)
}
