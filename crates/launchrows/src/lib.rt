// The rows that only a group of a launch has: the launch number, and accesses of global cells.
#![tactic(auto)]

ghost use Rattle.std.specs.Prelude.{◌≡◌, ◌-◌, ◌^◌, ◌<◌, ◌≤◌, length};
ghost use Rattle.layout.specs.Represents.{Room, accessed};
ghost use Rattle.layout.specs.Shared.{GlobalAsks};
ghost use Rattle.launchrows.specs.LaunchRows.{LaunchDone, GlobalDone};

// The state after a row's accesses of global cells.
fn after_access(c: Result<(), spec::Verdict>, s: layout::State) -> layout::Next
    requires { Room s }
    ensures { result ≡ accessed s c }
{
    match c {
        Ok(()) => Ok(constructs::moved(s)),
        Err(verdict) => Err(layout::Stopped { state: s, verdict }),
    }
}

// Op 19: the launch number of each enabled thread.
pub fn launch_row(
    regs: &mut [u32; 512],
    n: u32,
    group: u32,
    d: usize,
    s: layout::State,
) -> layout::Next
    requires { Room s × (n ≤ 32) × (group < 8) × (d < 16) × (length regs.old ≡ 512) }
    ensures { LaunchDone n group d s regs.old result regs.new }
{
    compute::launch_row(regs, group, n, s.mask, d);
    Ok(constructs::moved(s))
}

// Ops 20 to 22: what ops 16 to 18 do with own cells, with global ones.
pub fn global_row(
    regs: &mut [u32; 512],
    global: &mut [u32],
    shared: &mut [u32],
    masks: &mut [u32],
    n: u32,
    group: u32,
    op: u8,
    x: layout::Operands,
    s: layout::State,
) -> layout::Next
    requires { Room s × (n ≤ 32) × (s.mask < 2 ^ n) × (group < 8) × (4 ≤ op) × GlobalAsks (op - 4) x.d x.a global.old shared.old masks.old }
    ensures { GlobalDone op n group x.d x.a s regs.old global.old shared.old masks.old result
        regs.new global.new shared.new masks.new }
{
    let row = layout::AccessRow {
        op: layout::AccessOp::of(op - 4),
        d: x.d,
        a: x.a,
    };
    let r = globals::access_row(regs, global, shared, masks, n, s.mask, row, group);
    after_access(r.access, s)
}
