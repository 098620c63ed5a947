// The bare launch: a table, its launch's numbers, and lent cells, log, records and step counts.
#![tactic(auto)]

ghost use Rattle.std.specs.Prelude.{◌≡◌};
ghost use Rattle.spec.specs.Answers.{told, told_by};
ghost use Rattle.spec.specs.Shape.{sizes};
ghost use Rattle.spec.specs.Entries.{bare_refusal, bare_answer, bare_cells, bare_global, bare_log, bare_records, bare_steps};
ghost use Rattle.spec.specs.Demands.{BareDemand3};

use spec::{Outcome, Refusal};

// The entry for whoever has a table without a file: `groups` groups of `threads` threads, each with `count` cells of its own, over `shared` global ones.
// `cells` holds the own cells of group 0, of group 1 and so on, `global` the global ones, both with the launch's words. `records` gets three words for
// each barrier interval: the row due at its start, its rows, its cost; what stands behind them is kept. `steps` gets the steps of each thread by its
// number in the launch, 0 behind the last one. A refusal leaves all five as they were lent.
pub fn bare_launch(
    table: &[u8],
    threads: u32,
    count: u32,
    groups: u32,
    shared: u32,
    limit: u32,
    cells: &mut [u32],
    global: &mut [u32],
    log: &mut [u32],
    records: &mut [u32],
    steps: &mut [u32; 256],
) -> Result<Outcome, Refusal>
    ensures answer { result ≡ bare_answer table.now (sizes threads count groups shared) limit
        cells.old global.old log.old records.old }
    ensures refusal { told_by result ≡ told (bare_refusal table.now (sizes threads count groups shared) limit
        cells.old global.old log.old records.old) }
    ensures cells { cells.new ≡ bare_cells table.now (sizes threads count groups shared) limit
        cells.old global.old log.old records.old }
    ensures global { global.new ≡ bare_global table.now (sizes threads count groups shared) limit
        cells.old global.old log.old records.old }
    ensures log { log.new ≡ bare_log table.now (sizes threads count groups shared) limit
        cells.old global.old log.old records.old }
    ensures records { records.new ≡ bare_records table.now (sizes threads count groups shared) limit
        cells.old global.old log.old records.old }
    ensures steps { steps.new ≡ bare_steps table.now (sizes threads count groups shared) limit
        cells.old global.old log.old records.old steps.old }
    ensures runs { BareDemand3 table.now (sizes threads count groups shared) limit cells.old global.old result
        cells.new global.new steps.new }
{
    admission::numbers(table.len(), threads, count, groups, shared, limit)?;
    let ends = reader::read_table(table)?;
    let held = cells.len();
    admission::lent(
        groups,
        count,
        shared,
        held,
        global.len(),
        log.len(),
        records.len(),
    )?;
    let each = count as usize;
    let none: [u32; 0] = [];
    let kernel = layout::Kernel {
        table,
        ends: &ends,
        threads,
        each,
        groups,
        limit,
        common: &none,
    };
    Ok(launchrun::run_launch(&kernel, cells, global, log, records, steps))
}
