// The lock-step run of a launch: group 0 to its end, then group 1 and so on, under one limit.
#![tactic(auto)]

ghost use Rattle.std.specs.Prelude.{◌≡◌, ◌++◌, ◌+◌, ◌*◌, ◌<◌, ◌≤◌, length};
ghost use Rattle.spec.specs.Entries.{bare_launch};
ghost use Rattle.launchrun.specs.Launches.{LaunchAsks, LaunchIs, RunIs, Fresh, sizes_by};

// Group after group, up to one that has not passed or is the last.
// The lent slices stay apart: tried as fields of one value, each function then owed for each field a clause that it keeps its reference.
fn run_groups(
    kernel: &layout::Kernel,
    cells: &mut [u32],
    global: &mut [u32],
    log: &mut [u32],
    own: &mut [u32],
    shared: &mut [u32],
    masks: &mut [u32],
    records: &mut [u32],
    counts: &mut [u32; 32],
    steps: &mut [u32; 256],
    costs: &mut banks::Costs,
) -> spec::Outcome
    requires { LaunchAsks kernel.now.table.now kernel.now.ends.now kernel.now.threads kernel.now.groups kernel.now.each kernel.now.limit
        kernel.now.common.now cells.old global.old log.old records.old
        × Fresh kernel.now.each global.old log.old own.old shared.old masks.old records.old steps.old costs.old.stamps costs.old.memo }
    ensures { LaunchIs kernel.now.table.now (sizes_by kernel.now.threads kernel.now.groups kernel.now.each kernel.now.common.now global.old)
        kernel.now.limit (cells.old ++ global.old) records.old result cells.new global.new log.new records.new steps.new }
{
    let m = global.len();
    let at = cells.len();
    let total = at + m;
    let mut started = grouprun::Started {
        group: 0,
        rows: 0,
        barriers: 0,
    };
    // No `for`: the last group ends the launch within the loop, and behind a `for` an end that is never come to would need an answer.
    loop {
        let ended = groupturn::turn(
            kernel, started, total, cells, global, log, own, shared, masks, records, counts, steps,
            costs,
        );
        let group = started.group;
        if !launchend::goes_on(ended.verdict, group, kernel.groups) {
            return launchend::close(log, shared, masks, records, m, total, at, group, ended);
        }
        intervals::release(records, ended.barriers + group, 0, ended.rows);
        started = grouprun::Started {
            group: group + 1,
            rows: ended.rows,
            barriers: ended.barriers,
        };
    }
}

// The run of a launch. `cells` holds the own cells of all groups, `log` eight words for each cell of the launch, the global ones too.
pub fn run_launch(
    kernel: &layout::Kernel,
    cells: &mut [u32],
    global: &mut [u32],
    log: &mut [u32],
    records: &mut [u32],
    steps: &mut [u32; 256],
) -> spec::Outcome
    requires { LaunchAsks kernel.now.table.now kernel.now.ends.now kernel.now.threads kernel.now.groups kernel.now.each kernel.now.limit
        kernel.now.common.now cells.old global.old log.old records.old }
    ensures { RunIs (bare_launch kernel.now.table.now
        (sizes_by kernel.now.threads kernel.now.groups kernel.now.each kernel.now.common.now global.old) kernel.now.limit cells.old
        global.old) records.old result cells.new global.new log.new records.new steps.new }
{
    let m = global.len();
    let mut own: [u32; 5120] = [0; 5120];
    let mut shared: [u32; 5120] = [0; 5120];
    // Two words more than are used: with them the arrays above and below lie at places of vectors in the run's frame.
    let mut masks: [u32; 3074] = [0; 3074];
    let mut counts: [u32; 32] = [0; 32];
    let mut costs = banks::Costs {
        stamps: [0; 1024],
        memo: [0; 544],
    };
    placing::zero(log);
    intervals::launch(records);
    *steps = [0; 256];
    run_groups(
        kernel,
        cells,
        global,
        log,
        &mut own[..5 * kernel.each],
        &mut shared[..5 * m],
        &mut masks[..3 * m],
        records,
        &mut counts,
        steps,
        &mut costs,
    )
}
