// A group's turn in a launch: its run, and what it leaves put to its place.
#![tactic(auto)]

ghost use Rattle.std.specs.Prelude.{◌≡◌, ◌*◌, ◌<◌, ◌≤◌};
ghost use Rattle.groupturn.specs.Turns.{TurnAsks, TurnDone};

// The launch number of a group's first thread.
fn first_thread(group: u32, n: u32) -> usize
    requires { (group < 8) × (n ≤ 32) }
    ensures { result ≡ group * n }
{
    let first = threadnumbers::InGroup { number: 0 };
    let t = threadnumbers::in_launch(group, n, first);
    t.number as usize
}

// The first cell of a group among all.
fn first_cell(group: u32, k: usize) -> usize
    requires { (group < 8) × (k ≤ 1024) }
    ensures { result ≡ group * k }
{
    (group as usize) * k
}

// A group's turn over its own cells of all, the common ones and the global ones. Its log goes to its place in the launch's, its steps to its threads'.
// The lent slices stay apart: tried as fields of one value, each function then owed for each field a clause that it keeps its reference.
pub fn turn(
    kernel: &layout::Kernel,
    started: grouprun::Started,
    total: usize,
    cells: &mut [u32],
    global: &mut [u32],
    log: &mut [u32],
    own: &mut [u32],
    shared: &mut [u32],
    masks: &mut [u32],
    records: &mut [u32],
    counts: &mut [u32; 32],
    steps: &mut [u32; 256],
    costs: &mut banks::Costs,
) -> grouprun::Ended
    requires { TurnAsks kernel.now.table.now kernel.now.ends.now kernel.now.threads started.group kernel.now.limit started.rows started.barriers
        kernel.now.each total kernel.now.common.now cells.old global.old log.old own.old shared.old
        masks.old records.old costs.old.stamps costs.old.memo }
    ensures { TurnDone kernel.now.table.now kernel.now.threads started.group kernel.now.limit started.rows started.barriers
        kernel.now.each total kernel.now.common.now cells.old global.old
        log.old masks.old records.old steps.old result
        cells.new global.new log.new own.new shared.new masks.new records.new
        counts.new steps.new costs.new.stamps costs.new.memo }
{
    let k = kernel.each;
    let at = first_cell(started.group, k);
    let by = first_thread(started.group, kernel.threads);
    let ended = grouprun::run_group(
        kernel,
        started,
        &mut cells[at..at + k],
        own,
        global,
        shared,
        masks,
        records,
        counts,
        costs,
    );
    placing::place_kinds(own, 5, 0, k, total, at, log);
    placing::copy_counts(counts, kernel.threads as usize, by, steps);
    ended
}
