// A lifting step of one value, also at an end of its line, and a scaling.
ghost use Rattle.std.specs.Prelude.{◌≡◌, ◌+◌, ◌*◌, ◌/◌, ◌<◌, ◌≤◌, ◌^◌, pos, ◌+ℤ◌, ◌-ℤ◌, ◌*ℤ◌};
ghost use Rattle.std.specs.Int.Signed.{shr_z};
ghost use Rattle.std.specs.Int.{w32, w64};
ghost use Rattle.std.proofs.Common.{SFits};
ghost use Rattle.lifting.specs.Steps.{applied, ended, Safe, SumSafe, signed_sum, signed, scaled_by, FactorSafe};
ghost use Rattle.lifting.specs.Forms.{separate_step, combined_step, cut_step, biased_factor};
ghost use Rattle.slices.specs.Biased.{biased};
ghost use Rattle.lifting.specs.BiasedCut.{joined, JoinSafe};

use crate::{BiasedForm, CutForm, Factor, FactorForm, Step};

// One value less half of its neighbours' sum, rounded down.
pub fn predicted(own: i32, x: i32, y: i32) -> i32
    requires { Safe Step.Predict own x y }
    ensures { result ≡ applied Step.Predict own x y }
{
    own - ((x + y) >> 1)
}

// One value and a quarter of its neighbours' sum, rounded to the nearest.
pub fn updated(own: i32, x: i32, y: i32) -> i32
    requires { Safe Step.Update own x y }
    ensures { result ≡ applied Step.Update own x y }
{
    own + ((x + y + 2) >> 2)
}

// What inverts `predicted`.
pub fn inverse_predicted(own: i32, x: i32, y: i32) -> i32
    requires { Safe Step.InversePredict own x y }
    ensures { result ≡ applied Step.InversePredict own x y }
{
    own + ((x + y) >> 1)
}

// What inverts `updated`.
pub fn inverse_updated(own: i32, x: i32, y: i32) -> i32
    requires { Safe Step.InverseUpdate own x y }
    ensures { result ≡ applied Step.InverseUpdate own x y }
{
    own - ((x + y + 2) >> 2)
}

// Each operator with a bound of its own is a function, so that its range is proved once.

// A value as an i64.
fn wide(x: i32) -> i64
    ensures { result ≡ x }
{
    x as i64
}

// A sum that fits.
fn plus(x: i64, y: i64) -> i64
    requires { SFits w64 (x +ℤ y) }
    ensures { result ≡ x +ℤ y }
{
    x + y
}

// A product that fits.
fn times(x: i64, y: i64) -> i64
    requires { SFits w64 (x *ℤ y) }
    ensures { result ≡ x *ℤ y }
{
    x * y
}

// z shifted to the right, where that fits an i32.
fn narrowed(z: i64, cut: u32) -> i32
    requires cut_bound { cut < 64 }
    requires sfits { SFits w32 (shr_z z (2 ^ cut)) }
    ensures { result ≡ shr_z z (2 ^ cut) }
{
    (z >> cut) as i32
}

// The step `Scaled`, in i64.
pub fn scaled_of(k: u32, c: i64, cut: u32, own: i32, x: i32, y: i32) -> i32
    requires { Safe (Step.Scaled k c cut) own x y }
    ensures { result ≡ applied (Step.Scaled k c cut) own x y }
{
    let left = times(numbers::power(k) as i64, wide(own));
    let right = times(c, plus(wide(x), wide(y)));
    narrowed(plus(left, right), cut)
}

// A number shifted to the right.
fn shifted(z: i64, by: u32) -> i64
    requires { by < 64 }
    ensures { result ≡ shr_z z (2 ^ by) }
{
    z >> by
}

// A value and a cut product, cut together.
fn join(k: u32, up: u32, cut: u32, own: i32, part: i64) -> i32
    requires { JoinSafe k up cut own part }
    ensures { result ≡ joined k up cut own part }
{
    let left = times(numbers::power(k) as i64, wide(own));
    let right = times(numbers::power(up) as i64, part);
    narrowed(plus(left, right), cut)
}

// The step `Cut`, in i64.
pub fn cut_of(k: u32, c: i64, first: u32, up: u32, cut: u32, own: i32, x: i32, y: i32) -> i32
    requires { Safe (Step.Cut k c first up cut) own x y }
    ensures { result ≡ applied (Step.Cut k c first up cut) own x y }
{
    let part = shifted(times(c, plus(wide(x), wide(y))), first);
    join(k, up, cut, own, part)
}

// A product of 32-bit numbers, and offset more.
fn fused(c: u32, s: u32, offset: u64) -> u64
    requires { c * s + offset < 18446744073709551616 }
    ensures { result ≡ c * s + offset }
{
    (c as u64) * (s as u64) + offset
}

// t shifted to the right, less base.
fn shifted_unbiased(t: u64, cut: u32, base: u64) -> i64
    requires { (cut < 64) × (t / 2 ^ cut < 9223372036854775808) × (base < 9223372036854775808) }
    ensures { result ≡ pos (t / 2 ^ cut) -ℤ pos base }
{
    ((t >> cut) as i64) - (base as i64)
}

// A number that fits an i32.
fn narrow(z: i64) -> i32
    requires { SFits w32 z }
    ensures { result ≡ z }
{
    z as i32
}

// A value and z more.
fn moved(own: i32, z: i64) -> i32
    requires { SFits w32 (own +ℤ z) }
    ensures { result ≡ own +ℤ z }
{
    ((own as i64) + z) as i32
}

// A value times a power of two.
fn scaled_up(own: i32, rise: u32) -> i32
    requires { (rise < 32) × SFits w32 (own *ℤ pos (2 ^ rise)) }
    ensures { result ≡ own *ℤ pos (2 ^ rise) }
{
    own << rise
}

// A sum of two neighbours; its negative where the constant is negative.
fn signed_sum(down: bool, x: i32, y: i32) -> i32
    requires { SumSafe x y }
    ensures { result ≡ signed_sum down x y }
{
    let sum = x + y;
    if down { 0 - sum } else { sum }
}

// The product of a constant and a biased sum, and offset more.
fn product(down: bool, c: u32, offset: u64, x: i32, y: i32) -> u64
    requires { SumSafe x y × (c < 2147483648) × (offset ≤ 4611686018427387904) }
    ensures { (result ≡ c * biased (signed_sum down x y) + offset) × (result ≤ 13835058055282163712) }
{
    fused(c, slices::bias(signed_sum(down, x, y)), offset)
}

// The step `Separate`: the own value is taken out of the cut.
pub fn separate_of(down: bool, form: BiasedForm, own: i32, x: i32, y: i32) -> i32
    requires { Safe (separate_step down form) own x y }
    ensures { result ≡ applied (separate_step down form) own x y }
{
    let part = shifted_unbiased(product(down, form.c, 0, x, y), form.cut, form.base);
    moved(scaled_up(own, form.by), part)
}

// The step `Combined`: the own value is cut with the product.
pub fn combined_of(down: bool, form: BiasedForm, own: i32, x: i32, y: i32) -> i32
    requires { Safe (combined_step down form) own x y }
    ensures { result ≡ applied (combined_step down form) own x y }
{
    let part = product(down, form.c, form.offset, x, y);
    narrow(shifted_unbiased(
        fused(1u32 << form.by, slices::bias(own), part),
        form.cut,
        form.base,
    ))
}

// A number shifted to the right, and no further back to the left.
fn realigned(t: u64, first: u32, up: u32) -> u64
    requires { (first < 64) × (up ≤ first) }
    ensures { (result ≡ t / 2 ^ first * 2 ^ up) × (result ≤ t) }
{
    (t >> first) << up
}

// The step `BiasedCut`.
pub fn biased_cut_of(down: bool, form: CutForm, own: i32, x: i32, y: i32) -> i32
    requires { Safe (cut_step down form) own x y }
    ensures { result ≡ applied (cut_step down form) own x y }
{
    let part = realigned(
        product(down, form.c, form.offset, x, y),
        form.first,
        form.up,
    );
    narrow(shifted_unbiased(
        fused(1u32 << form.k, slices::bias(own), part),
        form.cut,
        form.base,
    ))
}

// ---- one value at an end of its line, where both neighbours are one: the papers' reduced equations

// The last high of an even length: source document 004, equation 5.
pub fn predicted_end(own: i32, x: i32) -> i32
    requires { Safe Step.Predict own x x }
    ensures { result ≡ ended Step.Predict own x }
{
    own - x
}

// The first low: source document 004, equation 4. The last low of an odd length: equation 6.
pub fn updated_end(own: i32, x: i32) -> i32
    requires { Safe Step.Update own x x }
    ensures { result ≡ ended Step.Update own x }
{
    own + ((x + 1) >> 1)
}

// What inverts `predicted_end`.
fn inverse_predicted_end(own: i32, x: i32) -> i32
    requires { Safe Step.InversePredict own x x }
    ensures { result ≡ ended Step.InversePredict own x }
{
    own + x
}

// What inverts `updated_end`.
fn inverse_updated_end(own: i32, x: i32) -> i32
    requires { Safe Step.InverseUpdate own x x }
    ensures { result ≡ ended Step.InverseUpdate own x }
{
    own - ((x + 1) >> 1)
}

// The step `Scaled`: source document 003, equation 3 at the first low, equation 4 at the last high of an even length; in the same style at
// the last low of an odd length. The rounded constant is doubled.
fn scaled_end(k: u32, c: i64, cut: u32, own: i32, x: i32) -> i32
    requires { Safe (Step.Scaled k c cut) own x x }
    ensures { result ≡ ended (Step.Scaled k c cut) own x }
{
    let left = times(numbers::power(k) as i64, wide(own));
    let right = times(times(2, c), wide(x));
    narrowed(plus(left, right), cut)
}

// The step `Cut` there: the product of the doubled constant is cut.
fn cut_end(k: u32, c: i64, first: u32, up: u32, cut: u32, own: i32, x: i32) -> i32
    requires { Safe (Step.Cut k c first up cut) own x x }
    ensures { result ≡ ended (Step.Cut k c first up cut) own x }
{
    let part = shifted(times(times(2, c), wide(x)), first);
    join(k, up, cut, own, part)
}

// A constant by its sign and its size.
fn signed_of(down: bool, c: u32) -> i64
    ensures { result ≡ signed down c }
{
    if down { 0 - (c as i64) } else { c as i64 }
}

// One step of one value at an end.
pub fn apply_end(step: Step, own: i32, x: i32) -> i32
    requires { Safe step own x x }
    ensures { result ≡ ended step own x }
{
    match step {
        Step::Predict => predicted_end(own, x),
        Step::Update => updated_end(own, x),
        Step::InversePredict => inverse_predicted_end(own, x),
        Step::InverseUpdate => inverse_updated_end(own, x),
        Step::Scaled { k, c, cut } => scaled_end(k, c, cut, own, x),
        Step::Separate {
            down,
            rise,
            c,
            cut,
            ..
        } => scaled_end(cut + rise, signed_of(down, c), cut, own, x),
        Step::Combined {
            down,
            k,
            c,
            cut,
            ..
        } => scaled_end(k, signed_of(down, c), cut, own, x),
        Step::Cut {
            k,
            c,
            first,
            up,
            cut,
        } => cut_end(k, c, first, up, cut, own, x),
        Step::BiasedCut {
            down,
            k,
            c,
            first,
            up,
            cut,
            ..
        } => cut_end(k, signed_of(down, c), first, up, cut, own, x),
    }
}

// ---- scalings

// A value times a constant.
pub fn scaled_by(c: i64, cut: u32, x: i32) -> i32
    requires { FactorSafe (Factor.Plain c cut) x }
    ensures { result ≡ scaled_by (Factor.Plain c cut) x }
{
    narrowed(times(c, wide(x)), cut)
}

// The same of biased values.
pub fn biased_by(form: FactorForm, x: i32) -> i32
    requires { FactorSafe (biased_factor form) x }
    ensures { result ≡ scaled_by (biased_factor form) x }
{
    narrow(shifted_unbiased(
        fused(form.c, slices::bias(x), form.offset),
        form.cut,
        form.base,
    ))
}
