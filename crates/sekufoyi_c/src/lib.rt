// The library sekufoyi for C: an export for each of its functions, under its name and with its clauses, which an export must say itself: C has no other contract.
// include/sekufoyi.h declares them.
#![tactic(auto)]

ghost use Rattle.std.specs.Prelude.{◌≡◌, []};
ghost use Rattle.spec.specs.declared.Subject.TheVariants.{Ran, Refused};
ghost use Rattle.spec.specs.Shape.{sizes};
ghost use Rattle.spec.specs.Entries.{bare_answer, bare_cells, bare_global, bare_log, bare_records, bare_steps, writer_answer, writer_buffer};
ghost use Rattle.spec.specs.Entries.{file_answer, file_cells_after, file_global_after, file_log_after, file_records_after, file_output_after};
ghost use Rattle.spec.specs.Reading.{Readable};
ghost use Rattle.spec.specs.Demands.{ReportDemand3, FileReadable, OfLength};
ghost use Rattle.spec.specs.PairFiles.{pair_answer, pair_output_after};
ghost use Rattle.spec.specs.PairDemands.{PairDemand3};
ghost use Rattle.pairfiles.specs.BothReports.{CutShort};
ghost use Rattle.answerwords.specs.Codes.{length_in, refusal_in, ran_in, outcome_in, why_in, outcome_from, RanDemand3};

#[unsafe(no_mangle)]
pub extern "C" fn sekufoyi_check_file(
    file: &[u8],
    cells: &mut [u32],
    global: &mut [u32],
    log: &mut [u32],
    records: &mut [u32],
    output: &mut [u8],
    refusal: &mut [u32; 2],
) -> usize
    ensures answer { result ≡ length_in (file_answer file.now
        cells.old global.old log.old records.old output.old) }
    ensures refusal { refusal.new ≡ refusal_in (file_answer file.now
        cells.old global.old log.old records.old output.old) }
    ensures cells { cells.new ≡ file_cells_after file.now
        cells.old global.old log.old records.old output.old }
    ensures global { global.new ≡ file_global_after file.now
        cells.old global.old log.old records.old output.old }
    ensures log { log.new ≡ file_log_after file.now
        cells.old global.old log.old records.old output.old }
    ensures records { records.new ≡ file_records_after file.now
        cells.old global.old log.old records.old output.old }
    ensures output { output.new ≡ file_output_after file.now
        cells.old global.old log.old records.old output.old }
    ensures reads { OfLength (FileReadable file.now) result output.new }
    ensures runs { OfLength (ReportDemand3 file.now) result output.new }
{
    sekufoyi::sekufoyi_check_file(file, cells, global, log, records, output, refusal)
}

#[unsafe(no_mangle)]
pub extern "C" fn sekufoyi_pair_files(
    filter: &[u8],
    trigger: &[u8],
    common: &[u8],
    output: &mut [u8],
    refusal: &mut [u32; 2],
) -> usize
    ensures answer { result ≡ length_in (pair_answer filter.now trigger.now common.now output.old) }
    ensures refusal { refusal.new ≡ refusal_in (pair_answer filter.now trigger.now common.now output.old) }
    ensures output { output.new ≡ pair_output_after filter.now trigger.now common.now output.old }
    ensures runs { OfLength (PairDemand3 filter.now trigger.now common.now) result output.new }
    ensures enough { CutShort filter.now trigger.now common.now }
{
    sekufoyi::sekufoyi_pair_files(filter, trigger, common, output, refusal)
}

#[unsafe(no_mangle)]
pub extern "C" fn sekufoyi_bare_launch(
    table: &[u8],
    threads: u32,
    count: u32,
    groups: u32,
    shared: u32,
    limit: u32,
    cells: &mut [u32],
    global: &mut [u32],
    log: &mut [u32],
    records: &mut [u32],
    steps: &mut [u32; 256],
    outcome: &mut [u32; 11],
    refusal: &mut [u32; 2],
) -> bool
    ensures ran { result ≡ ran_in (bare_answer table.now (sizes threads count groups shared) limit
        cells.old global.old log.old records.old) }
    ensures outcome { outcome.new ≡ outcome_in (bare_answer table.now (sizes threads count groups shared) limit
        cells.old global.old log.old records.old) }
    ensures refusal { refusal.new ≡ why_in (bare_answer table.now (sizes threads count groups shared) limit
        cells.old global.old log.old records.old) }
    ensures cells { cells.new ≡ bare_cells table.now (sizes threads count groups shared) limit
        cells.old global.old log.old records.old }
    ensures global { global.new ≡ bare_global table.now (sizes threads count groups shared) limit
        cells.old global.old log.old records.old }
    ensures log { log.new ≡ bare_log table.now (sizes threads count groups shared) limit
        cells.old global.old log.old records.old }
    ensures records { records.new ≡ bare_records table.now (sizes threads count groups shared) limit
        cells.old global.old log.old records.old }
    ensures steps { steps.new ≡ bare_steps table.now (sizes threads count groups shared) limit
        cells.old global.old log.old records.old steps.old }
    ensures runs { RanDemand3 table.now (sizes threads count groups shared) limit cells.old global.old result
        outcome.new cells.new global.new steps.new }
{
    sekufoyi::sekufoyi_bare_launch(
        table, threads, count, groups, shared, limit, cells, global, log, records, steps, outcome,
        refusal,
    )
}

#[unsafe(no_mangle)]
pub extern "C" fn sekufoyi_write_report(
    outcome: &[u32; 11],
    steps: &[u32],
    cells: &[u32],
    global: &[u32],
    output: &mut [u8],
    refusal: &mut [u32; 2],
) -> usize
    ensures answer { result ≡ length_in (writer_answer (Ran (outcome_from outcome.now)) steps.now cells.now
        global.now output.old) }
    ensures refusal { refusal.new ≡ refusal_in (writer_answer (Ran (outcome_from outcome.now)) steps.now cells.now
        global.now output.old) }
    ensures output { output.new ≡ writer_buffer (Ran (outcome_from outcome.now)) steps.now cells.now
        global.now output.old }
    ensures reads { OfLength (Readable (Ran (outcome_from outcome.now))) result output.new }
{
    sekufoyi::sekufoyi_write_report(outcome, steps, cells, global, output, refusal)
}

#[unsafe(no_mangle)]
pub extern "C" fn sekufoyi_write_refusal(
    number: u32,
    place: u32,
    output: &mut [u8],
    refusal: &mut [u32; 2],
) -> usize
    ensures answer { result ≡ length_in (writer_answer (Refused number place) [] [] [] output.old) }
    ensures refusal { refusal.new ≡ refusal_in (writer_answer (Refused number place) [] [] [] output.old) }
    ensures output { output.new ≡ writer_buffer (Refused number place) [] [] [] output.old }
    ensures reads { OfLength (Readable (Refused number place)) result output.new }
{
    sekufoyi::sekufoyi_write_refusal(number, place, output, refusal)
}
