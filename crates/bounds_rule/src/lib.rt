// The arithmetic of bounds that both judges use (document 01: the judge; document 02, jobs 1 and 7). Every definition that the contracts
// cite is in specs/ or in the crate stages. All bounds are whole numbers of 2^-32.
#![tactic(auto)]

ghost use Rattle.std.specs.Prelude.{◌≡◌, ◌<◌, ◌≤◌, ◌^◌};
ghost use Rattle.stages.specs.Stages.{cut_to};
ghost use Rattle.stages.specs.Rule.{times_gain, loss, product_loss, own_lift, own_scale};
ghost use Rattle.bounds_rule.specs.Carried.{most_carried, most_gain, most_multiplied};

// Range and error.
#[derive(Clone, Copy)]
pub struct Bound {
    pub range: u64,
    pub error: u64,
}

impl Bound {
    // 1 in whole numbers of 2^-32.
    pub const ONE: u64 = 1 << 32;
}

// A gain of 1: gains are whole numbers of 2^-16.
const GAIN_ONE: u64 = 1 << 16;

// A product by a gain, rounded up by itself. The wholes and the rest of 2^16 are multiplied apart, since the product may leave 64 bits.
pub fn times_gain(x: u64, gain: u64) -> u64
    requires { (x ≤ most_carried) × (gain ≤ most_gain) }
    ensures { result ≡ times_gain x gain }
{
    x / GAIN_ONE * gain + (x % GAIN_ONE * gain + (GAIN_ONE - 1)) / GAIN_ONE
}

// 2^-f where f is below the full precision.
fn loss_of(f: u8, full: u8) -> u64
    requires { f ≤ 32 }
    ensures { (result ≡ loss f full) × (result ≤ 2 ^ 32) }
{
    if f < full {
        numbers::power((32 - f) as u32)
    } else {
        0
    }
}

// The loss of a product of so many bits that is cut to its width: 2^-width where the width is below them, rounded up.
fn product_loss(width: u8, full: u8) -> u64
    requires { width < 64 }
    ensures { (result ≡ product_loss (cut_to width) full) × (result ≤ 2 ^ 32) }
{
    if width < full {
        numbers::up_div(Bound::ONE, width as u32)
    } else {
        0
    }
}

// Own error of a stage that lifts, whose product is cut to `width` bits and whose constant has so many; the value that it multiplies has
// `multiplied` bits and `total` is its range plus error; the other operand has `other` bits and the node f.
pub fn own_lift(width: u8, constant: u8, multiplied: u8, other: u8, f: u8, total: u64) -> u64
    requires { (width < 64) × (constant < 63) × (multiplied ≤ 32) × (f ≤ 32) × (total ≤ most_multiplied) }
    ensures { result ≡ own_lift (cut_to width) constant multiplied other f total }
{
    let full = constant + multiplied;
    numbers::up_div(total, constant as u32)
        + product_loss(width, full)
        + loss_of(f, other.max(width.min(full)))
}

// Own error of a stage that scales.
pub fn own_scale(constant: u8, multiplied: u8, f: u8, total: u64) -> u64
    requires { (constant < 63) × (multiplied ≤ 32) × (f ≤ 32) × (total ≤ most_multiplied) }
    ensures { result ≡ own_scale constant multiplied f total }
{
    numbers::up_div(total, (constant + 1) as u32) + loss_of(f, constant + multiplied)
}
