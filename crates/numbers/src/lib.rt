// Small functions of whole numbers that the crates above share.
#![tactic(auto)]

ghost use Rattle.std.specs.Prelude.{◌≡◌, ◌+◌, ◌*◌, ◌<◌, ◌≤◌, ◌^◌};
ghost use Rattle.numbers.specs.Ceiling.{up_div};

// Two bytes as a number, the high one first.
pub fn two(high: u8, low: u8) -> u16
    ensures { result ≡ high * 256 + low }
{
    u16::from_be_bytes([high, low])
}

pub fn power(bits: u32) -> u64
    requires { bits < 64 }
    ensures { result ≡ 2 ^ bits }
{
    1u64 << bits
}

// x / 2^bits, rounded up.
pub fn up_div(x: u64, bits: u32) -> u64
    requires { (x ≤ 2 ^ 63) × (bits < 64) }
    ensures { (result ≡ up_div x (2 ^ bits)) × (result ≤ x) }
{
    x.div_ceil(power(bits))
}
