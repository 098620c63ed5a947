// An accepted launch, run on buffers of its own, and reported.
#![tactic(auto)]

ghost use Rattle.std.specs.Prelude.{◌≤◌, length};
ghost use Rattle.spec.specs.Limits.{file_output};
ghost use Rattle.filerun.specs.Launches.{CanRun};
ghost use Rattle.ownrun.specs.OwnRuns.{OwnReport};

use filelaunch::Loaded;

// Of what the caller has, only the output changes.
pub fn report_own(launch: Loaded, output: &mut [u8]) -> usize
    requires { CanRun launch × (file_output ≤ length output.old) }
    ensures { OwnReport launch.entry output.old result output.new }
{
    let mut cells: [u32; 1024] = [0; 1024];
    let mut global: [u32; 1024] = [0; 1024];
    let mut log: [u32; 8192] = [0; 8192];
    let mut records: [u32; 3075] = [0; 3075];
    // Buffers of these sizes are never refused.
    filerun::report_launch(
        launch,
        &mut cells,
        &mut global,
        &mut log,
        &mut records,
        output,
    )
    .unwrap()
}
