// What the program check prints for a launch file: the report of its run, or of its refusal.
#![tactic(auto)]

ghost use Rattle.std.specs.Prelude.{◌≡◌, ◌≤◌, length, take};
ghost use Rattle.spec.specs.Entries.{over, check_prints};
ghost use Rattle.spec.specs.Demands.{ReportDemand3, FileReadable};

pub fn report_file(file: &[u8], output: &mut [u8; 24576]) -> usize
    ensures long { result ≡ length (check_prints file.now) }
    ensures written { output.new ≡ over (check_prints file.now) output.old }
    ensures fits { result ≤ length output.new }
    ensures reads { FileReadable file.now (take result output.new) }
    ensures runs { ReportDemand3 file.now (take result output.new) }
{
    let mut cells: [u32; 1024] = [0; 1024];
    let mut global: [u32; 1024] = [0; 1024];
    let mut log: [u32; 8192] = [0; 8192];
    let mut records: [u32; 3075] = [0; 3075];
    match checkfile::check_file(
        file,
        &mut cells,
        &mut global,
        &mut log,
        &mut records,
        output,
    ) {
        Ok(size) => size,
        Err(why) => refusalreport::report_refusal(why, output),
    }
}
