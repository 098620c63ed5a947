// The report of one kernel over common cells: of its run, or of what it is refused for.
#![tactic(auto)]

ghost use Rattle.std.specs.Prelude.{◌≤◌, length, IfOk};
ghost use Rattle.spec.specs.Limits.{max_common, file_output};
ghost use Rattle.spec.specs.LaunchFile.{file_launch};
ghost use Rattle.spec.specs.PairFiles.{kernel_checked};
ghost use Rattle.commonfile.specs.CommonRead.{answer_of};
ghost use Rattle.kernelreport.specs.Kernels.{KernelReported};

use spec::Refusal;

// The kernel's own input is looked at first, and then what was found in the common file.
pub fn report_kernel(file: &[u8], common: Result<&[u32], Refusal>, output: &mut [u8]) -> usize
    requires { IfOk common (λ cells. length cells.now ≤ max_common) × (file_output ≤ length output.old) }
    ensures { KernelReported (kernel_checked (file_launch file.now) (answer_of common.entry)) output.old result output.new }
{
    let own = match filelaunch::file_launch(file) {
        Ok(own) => own,
        Err(why) => return refusalreport::report_refusal(why, output),
    };
    let cells = match common {
        Ok(cells) => cells,
        Err(why) => return refusalreport::report_refusal(why, output),
    };
    ownrun::report_own(own.over(cells), output)
}
