// Which threads find a register true.
#![tactic(auto)]

ghost use Rattle.std.specs.Prelude.{◌≡◌, ◌<◌};
ghost use Rattle.layout.specs.Memory.{ZerosAre, holding_word};

// The lanes in which register a is 0, as a word: a straight loop over all 32.
fn zero_lanes(regs: &[u32; 512], a: usize) -> u32
    requires { a < 16 }
    ensures { ZerosAre a regs.now 32 result }
{
    let mut z: u32 = 0;
    for t in 0..32 {
        if regs[a * 32 + t] == 0 {
            z |= 1 << t;
        }
    }
    z
}

// Those of the mask whose register a is nonzero.
#[tactic(auto, unfolding(layout::specs::Memory::holding_word))]
pub fn holding(regs: &[u32; 512], mask: u32, a: usize) -> u32
    requires { a < 16 }
    ensures { result ≡ holding_word mask a regs.now }
{
    masks::minus(mask, zero_lanes(regs, a))
}
