// The access test over the access log: all reader masks, then all writer masks, all adder masks, all first values and all marks of unequal stores.
#![tactic(auto)]

ghost use Rattle.std.specs.Prelude.{◌≡◌, not, ◌<◌, eqb};
ghost use Rattle.std.specs.Int.Bits.{bit_or};
ghost use Rattle.spec.specs.Log.{shown_kind};
ghost use Rattle.spec.specs.Access.{writes};
ghost use Rattle.layout.specs.Ops.{number};
ghost use Rattle.layout.specs.Logging.{LogAsks, mode_of, conflicting_word, tested_word, beside_writers, kind_word};

// The writers of cell i that an access by op conflicts with: none where it stores v, as all stores to the cell did.
fn writers_met(log: &[u32], cells: usize, i: usize, v: u32, op: layout::AccessOp) -> u32
    requires { LogAsks (number op) cells i log.now }
    ensures { result ≡ conflicting_word writes (number op) v cells i log.now }
{
    let wrote = log[cells + i];
    match op {
        layout::AccessOp::Store => {
            if log[4 * cells + i] != 0 {
                return wrote;
            }
            if v != log[3 * cells + i] { wrote } else { 0 }
        }
        _ => wrote,
    }
}

// The adders and readers that an access of cell i by op conflicts with, and the thread of this bit.
fn beside(log: &[u32], cells: usize, i: usize, bit: u32, op: layout::AccessOp) -> u32
    requires { LogAsks (number op) cells i log.now }
    ensures { result ≡ bit_or (beside_writers (number op) cells i log.now) bit }
{
    match op {
        layout::AccessOp::Load => log[2 * cells + i] | bit,
        layout::AccessOp::Store => (log[2 * cells + i] | log[i]) | bit,
        layout::AccessOp::Add => log[i] | bit,
    }
}

// The access test: the threads whose logged accesses of cell i conflict with an access by op, and the acting one, of this bit. A STORE stores v.
pub fn met(log: &[u32], cells: usize, i: usize, bit: u32, v: u32, op: layout::AccessOp) -> u32
    requires { LogAsks (number op) cells i log.now }
    ensures { result ≡ bit_or (tested_word (number op) v cells i log.now) bit }
{
    let others = beside(log, cells, i, bit, op);
    // Mostly nobody else is there, and no value has to be looked at.
    if log[cells + i] | others == bit {
        return bit;
    }
    writers_met(log, cells, i, v, op) | others
}

// The kind of a race by op with somebody who wrote, or added, where these words are not 0: of that a write is shown before an add, an add before a read.
// By the op's byte, and for any other byte too, as docs/ has it.
pub fn shown_kind(wrote: u32, added: u32, op: u8) -> spec::AccessKind
    ensures { result ≡ shown_kind (not (eqb wrote 0)) (not (eqb added 0)) (mode_of op) }
{
    if op == 16 {
        if wrote == 0 {
            return spec::AccessKind::AddRead;
        }
        return spec::AccessKind::WriteRead;
    }
    if op == 17 {
        if wrote == 0 {
            if added == 0 {
                return spec::AccessKind::ReadWrite;
            }
            return spec::AccessKind::AddWrite;
        }
        return spec::AccessKind::WriteWrite;
    }
    if wrote == 0 {
        return spec::AccessKind::ReadAdd;
    }
    spec::AccessKind::WriteAdd
}

// The same by the op of a row of accesses.
pub fn shown_kind_of(wrote: u32, added: u32, op: layout::AccessOp) -> spec::AccessKind
    ensures { result ≡ shown_kind (not (eqb wrote 0)) (not (eqb added 0)) (mode_of (number op)) }
{
    shown_kind(wrote, added, op.byte())
}

// The kind of a race with the thread `other` at cell i.
pub fn race_kind(
    log: &[u32],
    cells: usize,
    i: usize,
    other: u32,
    v: u32,
    op: layout::AccessOp,
) -> spec::AccessKind
    requires { (other < 32) × LogAsks (number op) cells i log.now }
    ensures { result ≡ kind_word (number op) v cells i other log.now }
{
    let wrote = masks::bit(writers_met(log, cells, i, v, op), other);
    let added = masks::bit(log[2 * cells + i], other);
    shown_kind_of(wrote, added, op)
}
