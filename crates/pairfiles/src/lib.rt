// Two kernels over one table of common cells: the reports of both, from the bytes of the three files.
#![tactic(auto)]

ghost use Rattle.std.specs.Prelude.{◌≡◌, List, ◌++◌, ℕ, ◌≤◌, length, take};
ghost use Rattle.spec.specs.Limits.{pair_output};
ghost use Rattle.spec.specs.Answers.{told, told_in};
ghost use Rattle.spec.specs.Entries.{over};
ghost use Rattle.spec.specs.Demands.{OfWritten};
ghost use Rattle.spec.specs.PairFiles.{pair_prints, pair_refusal, pair_answer, pair_output_after};
ghost use Rattle.spec.specs.PairDemands.{PairDemand3};
ghost use Rattle.pairfiles.specs.BothReports.{BothReported, CutShort};

use spec::Refusal;

// The filter's report, and the trigger's from where it ends. Each kernel runs in memory of its own.
fn report_both(filter: &[u8], trigger: &[u8], common: &[u8], output: &mut [u8]) -> usize
    requires { pair_output ≤ length output.old }
    ensures { BothReported filter.now trigger.now common.now output.old result output.new }
{
    let read = commonfile::read_common(common);
    let cells = match &read {
        Ok(found) => Ok(found.cells()),
        Err(why) => Err(*why),
    };
    let first = kernelreport::report_kernel(filter, cells, output);
    let second = kernelreport::report_kernel(trigger, cells, &mut output[first..]);
    first + second
}

// The entry for whoever has the three files' bytes. The output is 49,152 bytes or more; a shorter one is refused and left as it was lent. Of a common
// file of 4,119 bytes or more no byte behind these is looked at, or would change anything.
pub fn pair_files(
    filter: &[u8],
    trigger: &[u8],
    common: &[u8],
    output: &mut [u8],
) -> Result<usize, Refusal>
    ensures answer { result ≡ pair_answer filter.now trigger.now common.now output.old }
    ensures refusal { told_in result ≡ told (pair_refusal output.old) }
    ensures output { output.new ≡ pair_output_after filter.now trigger.now common.now output.old }
    ensures runs { OfWritten (PairDemand3 filter.now trigger.now common.now) result output.new }
    ensures enough { CutShort filter.now trigger.now common.now }
{
    if output.len() < 49152 {
        return Err(Refusal::OutputLength);
    }
    Ok(report_both(filter, trigger, common, output))
}

// What the program pair prints.
pub fn report_pair(filter: &[u8], trigger: &[u8], common: &[u8], output: &mut [u8; 49152]) -> usize
    ensures long { result ≡ length (pair_prints filter.now trigger.now common.now) }
    ensures written { output.new ≡ over (pair_prints filter.now trigger.now common.now) output.old }
    ensures fits { result ≤ length output.new }
    ensures runs { PairDemand3 filter.now trigger.now common.now (take result output.new) }
    ensures enough { CutShort filter.now trigger.now common.now }
{
    report_both(filter, trigger, common, output)
}
