// 32 lanes, one for each thread of a group: lane t is thread t's.
#![tactic(auto)]

ghost use Rattle.std.specs.Prelude.{ℕ, ◌<◌, get_or};
ghost use Rattle.lanes.specs.Lanes.{EachLane};

// Lane t holds what `of` gives of t: a straight loop.
pub fn filled<F: Fn(usize) -> u32>(of: F) -> [u32; 32]
    requires { (t : ℕ) → t < 32 → F.pre of t }
    ensures { EachLane (F.post of) result 32 }
{
    let mut lanes = [0; 32];
    for t in 0..32 {
        lanes[t] = of(t);
    }
    lanes
}

// Lane t holds what `of` gives of the lanes t of p and q.
pub fn zipped<F: Fn(u32, u32) -> u32>(p: [u32; 32], q: [u32; 32], of: F) -> [u32; 32]
    requires { F.IsAlwaysCallable of }
    ensures { EachLane (λ t. F.post of (get_or p t 0) (get_or q t 0)) result 32 }
{
    filled(|t| of(p[t], q[t]))
}
