// The lock-step run of one group of a launch: one row after the other, until the table's end, the limit, or a stop.
#![tactic(auto)]

ghost use Rattle.std.specs.Prelude.{◌≡◌, ◌+◌, ◌^◌, ◌-◌, ◌<◌, ◌≤◌, length};
ghost use Rattle.spec.specs.Limits.{max_common, records_lent};
ghost use Rattle.layout.specs.Running.{Runnable, start_state};
ghost use Rattle.layout.specs.Counting.{Roomy, Added};
ghost use Rattle.banks.specs.Counting.{Older};
ghost use Rattle.banks.specs.Remembering.{Memo};
ghost use Rattle.grouprow.specs.Rows.{BufferSizes};
ghost use Rattle.grouprun.specs.Groups.{SomeStart, GroupRan};

// Where in a launch a group's run started: which group it is, behind so many rows and barriers of those before.
#[derive(Clone, Copy)]
pub struct Started {
    pub group: u32,
    pub rows: u32,
    pub barriers: u32,
}

// How a group's run ended, in which row, and with how many rows and barriers of the launch.
#[derive(Clone, Copy)]
pub struct Ended {
    pub verdict: spec::Verdict,
    pub row: usize,
    pub rows: u32,
    pub barriers: u32,
}

// The run is over: what was stepped since the mask last changed is counted.
fn finish(counts: &mut [u32; 32], verdict: spec::Verdict, s: layout::State) -> Ended
    requires { Roomy s.mask s.since counts.old }
    ensures answer { result ≡ record { verdict = verdict; row = s.row; rows = s.rows; barriers = s.barriers } }
    ensures counts { Added s.mask s.since counts.old counts.new }
{
    stepcounts::add(counts, s.mask, s.since);
    Ended {
        verdict,
        row: s.row,
        rows: s.rows,
        barriers: s.barriers,
    }
}

// All n threads at row 0.
fn start(n: u32, started: Started) -> layout::State
    requires { n ≤ 32 }
    ensures { result ≡ start_state (2 ^ n - 1) started.rows started.barriers }
{
    layout::State {
        reach: 0,
        row: 0,
        mask: masks::all(n),
        depth: 0,
        rows: started.rows,
        since: 0,
        barriers: started.barriers,
    }
}

// The run of a group over its own cells, the common ones and the global ones; `log` and `shared` are the logs of its own cells and of the global ones.
// The lent slices stay apart: tried as fields of one value, each function then owed for each field a clause that it keeps its reference.
pub fn run_group(
    kernel: &layout::Kernel,
    started: Started,
    cells: &mut [u32],
    log: &mut [u32],
    global: &mut [u32],
    shared: &mut [u32],
    masks: &mut [u32],
    records: &mut [u32],
    counts: &mut [u32; 32],
    costs: &mut banks::Costs,
) -> Ended
    requires { Runnable kernel.now.table.now kernel.now.ends.now × (1 ≤ kernel.now.threads) × (kernel.now.threads ≤ 32)
        × (started.group < 8) × (kernel.now.limit ≤ 1000000) × (started.rows ≤ kernel.now.limit) × (started.barriers ≤ started.rows)
        × BufferSizes cells.old log.old global.old shared.old masks.old × (length kernel.now.common.now ≤ max_common)
        × (records_lent ≤ length records.old) × Older (started.rows + 1) costs.old.stamps × Memo costs.old.memo
        × SomeStart kernel.now.table.now kernel.now.threads started.group kernel.now.limit started.rows started.barriers kernel.now.common.now
        cells.old global.old masks.old records.old }
    ensures { GroupRan kernel.now.table.now kernel.now.threads started.group kernel.now.limit started.rows started.barriers kernel.now.common.now
        cells.old global.old masks.old records.old result cells.new log.new global.new shared.new masks.new records.new
        counts.new costs.new.stamps costs.new.memo }
{
    // A copy of its own: behind the reference the kernel's words would be read again in every row.
    let copied = *kernel;
    let count = copied.table.len() / 4;
    let mut regs: [u32; 512] = [0; 512];
    let mut opened = layout::OpenConstructs {
        masks: [0; 8],
        rows: [0; 8],
    };
    logclear::clear(log, cells.len());
    logclear::clear(shared, global.len());
    *counts = [0; 32];
    let mut s = start(copied.threads, started);
    // No `for`: the rows of a loop are come to again.
    while s.row < count {
        if s.rows == copied.limit {
            return finish(counts, spec::Verdict::Spent, s);
        }
        match grouprow::group_row(
            &copied,
            started.group,
            &mut regs,
            cells,
            log,
            global,
            shared,
            masks,
            &mut opened,
            counts,
            costs,
            records,
            s,
        ) {
            Ok(z) => {
                s = z;
            }
            Err(stopped) => {
                stepcounts::stop(counts, stopped.verdict, stopped.state.mask);
                return finish(counts, stopped.verdict, stopped.state);
            }
        }
    }
    finish(counts, spec::Verdict::Passed, s)
}
