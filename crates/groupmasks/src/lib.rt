// The group masks of the global cells: all reader masks, then all writer masks, then all adder masks. Bit g is group g's.
#![tactic(auto)]

ghost use Rattle.std.specs.Prelude.{◌≡◌, ◌<◌};
ghost use Rattle.layout.specs.Ops.{number};
ghost use Rattle.layout.specs.Logging.{mask_entered};
ghost use Rattle.layout.specs.Shared.{GroupAsks, rivals_word, group_kind_word};

// The groups other than the one of this bit whose accesses of cell i conflict with an access by op. Equal stores of two groups do.
pub fn rivals(masks: &[u32], cells: usize, i: usize, bit: u32, op: layout::AccessOp) -> u32
    requires { GroupAsks (number op) cells i masks.now }
    ensures { result ≡ rivals_word (number op) cells i bit masks.now }
{
    let met = match op {
        layout::AccessOp::Load => masks[cells + i] | masks[2 * cells + i],
        layout::AccessOp::Store => masks[cells + i] | (masks[2 * cells + i] | masks[i]),
        layout::AccessOp::Add => masks[cells + i] | masks[i],
    };
    masks::minus(met, bit)
}

// The kind of a race with the group `other` at cell i.
pub fn race_kind(
    masks: &[u32],
    cells: usize,
    i: usize,
    other: u32,
    op: layout::AccessOp,
) -> spec::AccessKind
    requires { (other < 32) × GroupAsks (number op) cells i masks.now }
    ensures { result ≡ group_kind_word (number op) cells i other masks.now }
{
    let wrote = masks::bit(masks[cells + i], other);
    let added = masks::bit(masks[2 * cells + i], other);
    accesslog::shown_kind_of(wrote, added, op)
}

// The group of this bit enters the mask of cell i.
pub fn enter(masks: &mut [u32], cells: usize, i: usize, bit: u32, op: layout::AccessOp)
    requires { GroupAsks (number op) cells i masks.old }
    ensures { masks.new ≡ mask_entered (number op) cells i bit masks.old }
{
    let p = logentry::place(cells, i, op);
    masks[p] = masks[p] | bit;
}
