// Masks of threads as words: bit t is thread t's.
#![tactic(auto)]

ghost use Rattle.std.specs.Prelude.{◌≡◌, ◌-◌, ◌%◌, ◌<◌, ◌≤◌, ◌^◌};
ghost use Rattle.std.specs.Int.Bits.{bit_and};
ghost use Rattle.std.specs.Int.Count.{count_trailing_zeros};

pub fn lowest(m: u32) -> u32
    ensures { (result ≡ count_trailing_zeros 32 m) × (0 < m → result < 32) }
{
    m.trailing_zeros()
}

pub fn bit(m: u32, t: u32) -> u32
    requires { t < 32 }
    ensures { result ≡ bit_and m (2 ^ t) }
{
    m & (1 << t)
}

pub fn minus(m: u32, k: u32) -> u32
    ensures { result ≡ bit_and m (4294967295 - k) }
{
    m & !k
}

// Those of m below thread t.
pub fn below(m: u32, t: u32) -> u32
    requires { t < 32 }
    ensures { result ≡ m % 2 ^ t }
{
    m & ((1 << t) - 1)
}

// The mask of n threads.
pub fn all(n: u32) -> u32
    requires { n ≤ 32 }
    ensures { result ≡ 2 ^ n - 1 }
{
    if n < 32 { (1 << n) - 1 } else { u32::MAX }
}
