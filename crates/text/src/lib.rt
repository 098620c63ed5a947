// A text in two at a first byte, and numbers in base ten. A part is a slice of the text itself.
#![tactic(auto)]

ghost use Rattle.std.specs.Prelude.{◌≡◌, ◌≤◌, ◌^◌};
ghost use Rattle.spec.specs.Text.{split_at, number_below};
ghost use Rattle.text.specs.Parts.{halves_of};
ghost use Rattle.text.specs.Numbers.{number_of, digits_below};

// The parts before and behind the first b.
pub fn split_once<'a>(s: &'a [u8], b: u8) -> Option<(&'a [u8], &'a [u8])>
    ensures { halves_of result ≡ split_at b s.now }
{
    let at = s.iter().position(|byte| *byte == b)?;
    Some((&s[..at], &s[at + 1..]))
}

// The value of digits, where it is below the bound. It stops at the bound, so that no value is too large for a u64. Not std's `parse`, which takes a sign.
fn digits(s: &[u8], bound: u64) -> Option<u32>
    requires { (1 ≤ bound) × (bound ≤ 2 ^ 32) }
    ensures { digits_below bound 0 s.now ≡ number_of result }
{
    let mut value: u64 = 0;
    for byte in s {
        if !byte.is_ascii_digit() {
            return None;
        }
        value = 10 * value + u64::from(*byte - b'0');
        if bound <= value {
            return None;
        }
    }
    Some(value as u32)
}

// A number without leading zeros, where it is below the bound.
pub fn number_below(s: &[u8], bound: u64) -> Option<u32>
    requires { (1 ≤ bound) × (bound ≤ 2 ^ 32) }
    ensures { number_below bound s.now ≡ number_of result }
{
    let (first, others) = s.split_first()?;
    if *first == b'0' && !others.is_empty() {
        return None;
    }
    digits(s, bound)
}
