// The walk that clears the access log: one list of words with five kinds, and no struct of five lists, as the launch's log has them, which C lends.
#![tactic(auto)]

ghost use Rattle.std.specs.Prelude.{◌≡◌, ◌*◌, ◌<◌, length, replicate};
ghost use Rattle.spec.specs.Limits.{log_per_cell};
ghost use Rattle.spec.specs.Log.{cell_cleared, cells_cleared};

// One turn of the walk: the words of cell i, put to 0 together.
fn clear_cell(log: &mut [u32], cells: usize, i: usize)
    requires { (length log.old ≡ log_per_cell * cells) × (i < cells) }
    ensures { log.new ≡ cell_cleared cells i log.old }
{
    log[i] = 0;
    log[cells + i] = 0;
    log[2 * cells + i] = 0;
    log[3 * cells + i] = 0;
    log[4 * cells + i] = 0;
}

// n turns, from cell 0 on; more than there are cells clear them all, and nothing else.
#[tactic(auto, using(spec::proofs::ClearingLaws::cells_none, spec::proofs::ClearingLaws::cells_more, spec::proofs::ClearingLaws::cells_size))]
pub fn clear_cells(log: &mut [u32], cells: usize, n: usize)
    requires { length log.old ≡ log_per_cell * cells }
    ensures { log.new ≡ cells_cleared cells n log.old }
{
    for i in 0..n.min(cells) {
        clear_cell(log, cells, i);
    }
}

// The whole log.
#[tactic(auto, using(spec::proofs::ClearingLaws::cells_all))]
pub fn clear(log: &mut [u32], cells: usize)
    requires { length log.old ≡ log_per_cell * cells }
    ensures { log.new ≡ replicate (length log.old) 0 }
{
    clear_cells(log, cells, cells);
}
