// An accepted launch: run over the front of the lent buffers, and reported.
// The lent slices stay apart. Tried as one type: with it each function owes, for each of them, a clause that it lends that one on.
#![tactic(auto)]

ghost use Rattle.std.specs.Prelude.{◌≡◌, ◌*◌, ◌≤◌, length};
ghost use Rattle.spec.specs.Limits.{file_output};
ghost use Rattle.filerun.specs.Launches.{CanRun, Lent, Ran, Reported};

use filelaunch::Loaded;
use spec::{Outcome, Refusal, Subject};

// The threads of all groups.
#[tactic(auto, using(crate::proofs::Running::threads_few))]
fn all_threads(groups: u32, threads: u32) -> usize
    requires { (groups ≤ 8) × (threads ≤ 32) }
    ensures { result ≡ groups * threads }
{
    (groups * threads) as usize
}

// Its words go to the front of the lent cells; its run uses the first words of each lent buffer and keeps the rest.
#[tactic(auto, using(crate::proofs::Front::front_length, crate::proofs::Running::placed_room))]
pub fn run_launch(
    launch: Loaded,
    cells: &mut [u32],
    global: &mut [u32],
    log: &mut [u32],
    records: &mut [u32],
    steps: &mut [u32; 256],
) -> Outcome
    requires { CanRun launch × Lent cells.old global.old log.old records.old }
    ensures { Ran launch.entry cells.old global.old log.old records.old result
        cells.new global.new log.new records.new steps.new }
{
    let count = launch.cells.len();
    let more = launch.global.len();
    let logged = 8 * (count + more);
    let kernel = launch.kernel;
    placing::place(launch.cells, 0, cells);
    placing::place(launch.global, 0, global);
    launchrun::run_launch(
        &kernel,
        &mut cells[..count],
        &mut global[..more],
        &mut log[..logged],
        records,
        steps,
    )
}

// The run, and its report.
#[tactic(auto, using(crate::proofs::Front::front_length, crate::proofs::Running::threads_few, crate::proofs::Running::counts_long))]
pub fn report_launch(
    launch: Loaded,
    cells: &mut [u32],
    global: &mut [u32],
    log: &mut [u32],
    records: &mut [u32],
    output: &mut [u8],
) -> Result<usize, Refusal>
    requires { CanRun launch × Lent cells.old global.old log.old records.old × (file_output ≤ length output.old) }
    ensures { Reported launch.entry cells.old global.old log.old records.old output.old result
        cells.new global.new log.new records.new output.new }
{
    let used = all_threads(launch.kernel.groups, launch.kernel.threads);
    let mut steps: [u32; 256] = [0; 256];
    let outcome = run_launch(launch, cells, global, log, records, &mut steps);
    report::write_report(
        Subject::Ran(outcome),
        &steps[..used],
        &cells[..launch.cells.len()],
        &global[..launch.global.len()],
        output,
    )
}
