// The forms in which steps and scalings are run.
ghost use Rattle.std.specs.Prelude.{◌≡◌, ◌+◌, ◌*◌, ◌<◌, ◌≤◌, ◌^◌, nat_abs};
ghost use Rattle.lifting.specs.Steps.{SameStep, signed, SameFactor};
ghost use Rattle.lifting.specs.Kernels.{SamePair};

use crate::{Factor, Pair, Step};

// The size of a number, where it is below 2 ^ 31. A number past it, and no Option: each form tests it with its other limits.
fn size(z: i64) -> u32
    ensures { result < 2147483648 → result ≡ nat_abs z }
{
    if z < -2147483647 || 2147483647 < z {
        return 2147483648;
    }
    if z < 0 { (0 - z) as u32 } else { z as u32 }
}

// How often 2 ^ cut goes into more than total.
fn multiple(total: u64, cut: u32) -> u64
    requires { (total < 9223372036854775808) × (cut ≤ 62) }
    ensures { (total ≤ result * 2 ^ cut) × (result * 2 ^ cut ≤ total + 2 ^ cut) }
{
    (total >> cut) + 1
}

// A scaled step in the form `Separate`.
fn separate(down: bool, rise: u32, c: u32, cut: u32) -> Step
    requires { (1 ≤ cut) × (cut ≤ 31) × (rise < 32) × (c < 2147483648) }
    ensures { SameStep (Step.Scaled (cut + rise) (signed down c) cut) result }
{
    Step::Separate {
        down,
        rise,
        c,
        base: (c as u64) * (2147483648 >> cut),
        cut,
    }
}

// A scaled step in the form `Combined`.
fn combined(down: bool, k: u32, c: u32, cut: u32) -> Step
    requires { (1 ≤ cut) × (cut ≤ 61) × (k ≤ 30) × (c < 2147483648) }
    ensures { SameStep (Step.Scaled k (signed down c) cut) result }
{
    let total = (numbers::power(k) + (c as u64)) * 2147483648;
    let base = multiple(total, cut);
    Step::Combined {
        down,
        k,
        c,
        offset: base * numbers::power(cut) - total,
        base,
        cut,
    }
}

// A scaled step in the form in which it is run.
fn quick(k: u32, c: i64, cut: u32) -> Step
    ensures { SameStep (Step.Scaled k c cut) result }
{
    let f = size(c);
    if 2147483647 < f || cut == 0 || 61 < cut {
        return Step::Scaled { k, c, cut };
    }
    if k <= 30 && k < cut {
        return combined(c < 0, k, f, cut);
    }
    if k < cut || 31 < cut || 31 < k - cut {
        return Step::Scaled { k, c, cut };
    }
    separate(c < 0, k - cut, f, cut)
}

// The step `Cut` in the form `BiasedCut`.
fn biased_cut(down: bool, k: u32, c: u32, first: u32, up: u32, cut: u32) -> Step
    requires { (k ≤ 30) × (c < 268435456) × (up ≤ first) × (first + cut ≤ 58) × (cut ≤ 31) }
    ensures { SameStep (Step.Cut k (signed down c) first up cut) result }
{
    let total = (c as u64) * 2147483648;
    let m = multiple(total, first + cut);
    Step::BiasedCut {
        down,
        k,
        c,
        offset: m * numbers::power(first + cut) - total,
        first,
        up,
        base: numbers::power(31 + k - cut) + m * numbers::power(up),
        cut,
    }
}

// The step `Cut` in the form in which it is run.
fn quick_cut(k: u32, c: i64, first: u32, up: u32, cut: u32) -> Step
    ensures { SameStep (Step.Cut k c first up cut) result }
{
    let f = size(c);
    if f < 268435456 && k <= 30 && up <= first && cut <= 31 && first <= 58 - cut {
        return biased_cut(c < 0, k, f, first, up, cut);
    }
    Step::Cut {
        k,
        c,
        first,
        up,
        cut,
    }
}

// The form in which a step is run.
fn fastest(step: Step) -> Step
    ensures { SameStep step result }
{
    match step {
        Step::Scaled { k, c, cut } => quick(k, c, cut),
        Step::Cut {
            k,
            c,
            first,
            up,
            cut,
        } => quick_cut(k, c, first, up, cut),
        _ => step,
    }
}

// A scaling in the form in which it is run.
fn quick_factor(c: i64, cut: u32) -> Factor
    ensures { SameFactor (Factor.Plain c cut) result }
{
    let f = size(c);
    if 2147483647 < f || c < 0 || cut == 0 || 61 < cut {
        return Factor::Plain { c, cut };
    }
    let total = (f as u64) * 2147483648;
    let base = multiple(total, cut);
    Factor::Biased {
        c: f,
        offset: base * numbers::power(cut) - total,
        base,
        cut,
    }
}

// The form in which a scaling is run.
pub fn fastest_factor(g: Factor) -> Factor
    ensures { SameFactor g result }
{
    match g {
        Factor::Plain { c, cut } => quick_factor(c, cut),
        _ => g,
    }
}

// The forms in which a pair is run.
pub fn fastest_pair(pair: Pair) -> Pair
    ensures { SamePair pair result }
{
    Pair {
        highs: fastest(pair.highs),
        lows: fastest(pair.lows),
    }
}
