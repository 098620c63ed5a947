// A computing row: its values in all 32 lanes, then a store under the mask.
#![tactic(auto)]

ghost use Rattle.std.specs.Prelude.{◌≡◌, ℕ, ◌+◌, ◌*◌, ◌/◌, ◌%◌, ◌^◌, ◌<◌, ◌≤◌, length, get_or};
ghost use Rattle.spec.specs.Op.{LAUNCHTID};
ghost use Rattle.layout.specs.Memory.{ComputeAsks, lane, Puts, computed_lane, Computed};
ghost use Rattle.lanes.specs.Lanes.{EachLane, Filled};
ghost use Rattle.compute.specs.RowLanes.{picked, numbered, RowLanes, Stores};

// Register r of all threads.
fn lanes_of(regs: &[u32; 512], r: usize) -> [u32; 32]
    requires { r < 16 }
    ensures { Filled (lane r regs.now) result 32 }
{
    lanes::filled(|t| regs[r * 32 + t])
}

// What `of` gives of registers a and b, in every lane.
fn of_registers<F: Fn(u32, u32) -> u32>(regs: &[u32; 512], a: usize, b: usize, of: F) -> [u32; 32]
    requires { (a < 16) × (b < 16) × F.IsAlwaysCallable of }
    ensures { EachLane (λ t. F.post of (lane a regs.now t) (lane b regs.now t)) result 32 }
{
    lanes::zipped(lanes_of(regs, a), lanes_of(regs, b), of)
}

// Lane t holds t.
fn threads() -> [u32; 32]
    ensures { Filled (λ t. t) result 32 }
{
    lanes::filled(|t| t as u32)
}

// Lane t holds bit t of the mask.
fn bits_of(mask: u32) -> [u32; 32]
    ensures { Filled (λ t. mask / 2 ^ t % 2) result 32 }
{
    lanes::filled(|t| (mask >> t) % 2)
}

// Lane t of register d becomes what `of` gives of t and of what it held: a straight loop. Each closure has a copy of it with one caller, which the
// compiler inlines into the run's loop.
fn store<F: Fn(usize, u32) -> u32>(regs: &mut [u32; 512], d: usize, of: F)
    requires { (d < 16) × ((t x : ℕ) → t < 32 → F.pre of t x) }
    ensures { Stores d (λ t. F.post of t (lane d regs.old t)) regs.old regs.new 32 }
{
    for t in 0..32 {
        let i = d * 32 + t;
        regs[i] = of(t, regs[i]);
    }
}

// The lanes in which `on` is 1 go to register d. That the bits were spread before keeps this loop straight.
fn put(regs: &mut [u32; 512], d: usize, v: [u32; 32], on: [u32; 32])
    requires { d < 16 }
    ensures { Puts d (picked v on d regs.old) regs.old regs.new 32 }
{
    store(regs, d, |t, old| if on[t] == 1 { v[t] } else { old });
}

// Where all threads are enabled: every lane, without the test.
fn put_all(regs: &mut [u32; 512], d: usize, v: [u32; 32])
    requires { d < 16 }
    ensures { Puts d (λ t. get_or v t 0) regs.old regs.new 32 }
{
    store(regs, d, |t, _| v[t]);
}

// SET, TID and COUNT read no register. The others read theirs each in its own arm: read before the ops are told apart, both registers would have
// to be held in as many machine registers as there are. An op is its byte in the table, and no enum: C lends the table, and its rows are read in place.
fn value_lanes(regs: &[u32; 512], n: u32, op: u8, a: usize, b: usize) -> [u32; 32]
    requires { (a < 256) × (b < 256) × ComputeAsks op 0 a b }
    ensures { RowLanes op n a b regs.now result }
{
    match op {
        1 => [(a + 256 * b) as u32; 32],
        2 => threads(),
        3 => [n; 32],
        4 => of_registers(regs, a, b, words::add),
        5 => of_registers(regs, a, b, words::sub),
        6 => of_registers(regs, a, b, words::mul),
        7 => of_registers(regs, a, b, |x, y| x & y),
        8 => of_registers(regs, a, b, |x, y| x | y),
        9 => of_registers(regs, a, b, |x, y| x ^ y),
        10 => of_registers(regs, a, b, words::shr),
        11 => of_registers(regs, a, b, words::sar),
        12 => of_registers(regs, a, b, words::eq),
        13 => of_registers(regs, a, b, words::lt),
        _ => of_registers(regs, a, b, words::slt),
    }
}

// Where all n are enabled the lanes behind the last one are stored to as well.
pub fn compute_row(regs: &mut [u32; 512], n: u32, mask: u32, op: u8, d: usize, a: usize, b: usize)
    requires { (n ≤ 32) × (a < 256) × (b < 256) × ComputeAsks op d a b × (length regs.old ≡ 512) }
    ensures { Computed op n mask d a b regs.old regs.new }
{
    let v = value_lanes(regs, n, op, a, b);
    let all = masks::all(n);
    if mask == all {
        put_all(regs, d, v);
        return;
    }
    put(regs, d, v, bits_of(mask));
}

// The launch numbers of the group's threads go to the lanes of register d whose bit of `on` is 1.
fn put_numbers(regs: &mut [u32; 512], group: u32, n: u32, d: usize, on: u32)
    requires { (group < 8) × (n ≤ 32) × (d < 16) }
    ensures { Puts d (numbered group n on d regs.old) regs.old regs.new 32 }
{
    store(regs, d, |t, old| {
        let local = threadnumbers::InGroup { number: t as u32 };
        let whole = threadnumbers::in_launch(group, n, local);
        if (on >> t) % 2 == 1 {
            whole.number
        } else {
            old
        }
    });
}

// A row of op 19, the launch number. It stores as every computing row does.
pub fn launch_row(regs: &mut [u32; 512], group: u32, n: u32, mask: u32, d: usize)
    requires { (group < 8) × (n ≤ 32) × (d < 16) × (length regs.old ≡ 512) }
    ensures { Puts d (computed_lane LAUNCHTID group n mask d 0 0 regs.old) regs.old regs.new 32 }
{
    let full = masks::all(n);
    let on = if mask == full { u32::MAX } else { mask };
    put_numbers(regs, group, n, d, on);
}
