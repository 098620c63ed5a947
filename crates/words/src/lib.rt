// The ops that compute, on words of 32 bits.
#![tactic(auto)]

ghost use Rattle.std.specs.Prelude.{◌≡◌};
ghost use Rattle.spec.specs.Word.{add, sub, mul, shr, sar, equal, less, signed_less, signed, unsigned};

pub fn add(x: u32, y: u32) -> u32
    ensures { result ≡ add x y }
{
    x.wrapping_add(y)
}

pub fn sub(x: u32, y: u32) -> u32
    ensures { result ≡ sub x y }
{
    x.wrapping_sub(y)
}

pub fn mul(x: u32, y: u32) -> u32
    ensures { result ≡ mul x y }
{
    x.wrapping_mul(y)
}

pub fn shr(x: u32, y: u32) -> u32
    ensures { result ≡ shr x y }
{
    x >> (y % 32)
}

// A word's value in two's complement.
pub fn signed(x: u32) -> i32
    ensures { result ≡ signed x }
{
    x.cast_signed()
}

pub fn unsigned(z: i32) -> u32
    ensures { result ≡ unsigned z }
{
    z.cast_unsigned()
}

// The shift of a signed number brings in the top bit.
pub fn sar(x: u32, y: u32) -> u32
    ensures { result ≡ sar x y }
{
    unsigned(signed(x) >> (y % 32))
}

pub fn eq(x: u32, y: u32) -> u32
    ensures { result ≡ equal x y }
{
    u32::from(x == y)
}

pub fn lt(x: u32, y: u32) -> u32
    ensures { result ≡ less x y }
{
    u32::from(x < y)
}

pub fn slt(x: u32, y: u32) -> u32
    ensures { result ≡ signed_less x y }
{
    u32::from(signed(x) < signed(y))
}
