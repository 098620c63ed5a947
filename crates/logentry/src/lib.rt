// An access's entry in the access log: the thread's bit, and of a store its value or the mark of an unequal one.
#![tactic(auto)]

ghost use Rattle.std.specs.Prelude.{◌≡◌, ◌+◌, ◌<◌, ◌≤◌, get_or};
ghost use Rattle.layout.specs.Ops.{number};
ghost use Rattle.layout.specs.Logging.{LogAsks, OneBit, mode_of, rank, place_of, mark_entered, entered_words};

// Where the mask of cell i stands that an access by op enters.
pub fn place(cells: usize, i: usize, op: layout::AccessOp) -> usize
    requires { (cells ≤ 1024) × (i < cells) }
    ensures { result ≡ place_of (rank (mode_of (number op))) cells i }
{
    match op {
        layout::AccessOp::Load => i,
        layout::AccessOp::Store => cells + i,
        layout::AccessOp::Add => 2 * cells + i,
    }
}

// A store of v to a cell that has a first value: another one marks the cell.
fn enter_mark(log: &mut [u32], cells: usize, i: usize, v: u32)
    requires { LogAsks 17 cells i log.old }
    ensures { log.new ≡ mark_entered v cells i log.old }
{
    if v == log[3 * cells + i] {
        return;
    }
    log[4 * cells + i] = 1;
}

// A store of v by the thread of this bit to a cell that has been stored to. A thread that is among the writers already is not put there again.
fn enter_later_store(log: &mut [u32], cells: usize, i: usize, bit: u32, w: u32, v: u32)
    requires { LogAsks 17 cells i log.old × OneBit bit × (w ≡ get_or log.old (cells + i) 0) × (0 < w) }
    ensures { log.new ≡ entered_words 17 v cells i bit log.old }
{
    enter_mark(log, cells, i, v);
    if w & bit == 0 {
        log[cells + i] = w | bit;
    }
}

// A store of v by the thread of this bit: the first to a cell leaves its value. Where the thread alone has stored there, the writers stay as they are.
fn enter_store(log: &mut [u32], cells: usize, i: usize, bit: u32, v: u32)
    requires { LogAsks 17 cells i log.old × OneBit bit }
    ensures { log.new ≡ entered_words 17 v cells i bit log.old }
{
    let w = log[cells + i];
    if w == bit {
        enter_mark(log, cells, i, v);
        return;
    }
    if w == 0 {
        log[3 * cells + i] = v;
        log[cells + i] = bit;
        return;
    }
    enter_later_store(log, cells, i, bit, w, v);
}

// The thread of this bit enters the mask of cell i, and of a STORE the value v.
pub fn enter(log: &mut [u32], cells: usize, i: usize, bit: u32, v: u32, op: layout::AccessOp)
    requires { LogAsks (number op) cells i log.old × OneBit bit }
    ensures { log.new ≡ entered_words (number op) v cells i bit log.old }
{
    if let layout::AccessOp::Store = op {
        enter_store(log, cells, i, bit, v);
        return;
    }
    let p = place(cells, i, op);
    log[p] = log[p] | bit;
}
