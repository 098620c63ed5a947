// A launch file checked whole: read, run over the lent buffers, and reported.
#![tactic(auto)]

ghost use Rattle.std.specs.Prelude.{◌≡◌};
ghost use Rattle.spec.specs.Answers.{told, told_in};
ghost use Rattle.spec.specs.Entries.{checked_refusal, file_checked, file_answer, file_cells_after, file_global_after, file_log_after, file_records_after, file_output_after};
ghost use Rattle.spec.specs.Demands.{ReportDemand3, FileReadable, OfWritten};

use spec::Refusal;

// The entry for whoever has a launch file. The lent own cells and global cells are 1,024 words each, the log 8,192, the records 3,075 or more, the output
// 24,576 bytes or more. A refusal leaves all five as they were lent.
pub fn check_file(
    file: &[u8],
    cells: &mut [u32],
    global: &mut [u32],
    log: &mut [u32],
    records: &mut [u32],
    output: &mut [u8],
) -> Result<usize, Refusal>
    ensures answer { result ≡ file_answer file.now cells.old global.old log.old records.old output.old }
    ensures refusal { told_in result ≡ told (checked_refusal (file_checked file.now
        cells.old global.old log.old records.old output.old)) }
    ensures cells { cells.new ≡ file_cells_after file.now
        cells.old global.old log.old records.old output.old }
    ensures global { global.new ≡ file_global_after file.now
        cells.old global.old log.old records.old output.old }
    ensures log { log.new ≡ file_log_after file.now
        cells.old global.old log.old records.old output.old }
    ensures records { records.new ≡ file_records_after file.now
        cells.old global.old log.old records.old output.old }
    ensures output { output.new ≡ file_output_after file.now
        cells.old global.old log.old records.old output.old }
    ensures reads { OfWritten (FileReadable file.now) result output.new }
    ensures runs { OfWritten (ReportDemand3 file.now) result output.new }
{
    let found = filelaunch::file_launch(file)?;
    admission::lent_for_file(
        cells.len(),
        global.len(),
        log.len(),
        records.len(),
        output.len(),
    )?;
    let none: [u32; 0] = [];
    filerun::report_launch(found.over(&none), cells, global, log, records, output)
}
