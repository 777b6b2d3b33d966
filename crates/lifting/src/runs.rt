// A lifting step, or a scaling, at each place of a run.
ghost use Rattle.std.specs.Prelude.{◌≡◌, ℕ, ◌+◌, ◌<◌, ◌≤◌, length};
ghost use Rattle.lifting.specs.Steps.{applied, scaled_by, FactorSafe};
ghost use Rattle.lifting.specs.Forms.{separate_step, combined_step, cut_step};
ghost use Rattle.slices.specs.Patch.{at, patch};
ghost use Rattle.slices.specs.Runs.{ran, Runs, SafeBy};
ghost use Rattle.lifting.specs.SafeRuns.{SafeRun};
ghost use Rattle.lifting.specs.Made.{Made};

use crate::steps::{
    apply_end, biased_by, biased_cut_of, combined_of, cut_of, inverse_predicted, inverse_updated,
    predicted, scaled_by, scaled_of, separate_of, updated,
};
use crate::{BiasedForm, CutForm, Factor, FactorForm, Step};

// What f makes of each of n places from t on and of the places as far from a and from b. Each call compiles a loop of its own.
fn run<F: Fn(i32, i32, i32) -> i32>(buf: &mut [i32], t: usize, a: usize, b: usize, n: usize, f: F)
    requires runs { Runs buf.old t a b n }
    requires callable { SafeBy (F.pre f) t a b n (at buf.old) }
    ensures { Made (λ j. F.post f (at buf.old (t + j)) (at buf.old (a + j)) (at buf.old (b + j))) t n buf.old buf.new }
{
    // an index, since the three places lie in one buffer
    for j in 0..n {
        let v = f(buf[t + j], buf[a + j], buf[b + j]);
        buf[t + j] = v;
    }
}

// A run of the step `Separate`. The sign is data; with a constant sign each closure is a loop of its own.
fn separate_run(
    buf: &mut [i32],
    t: usize,
    a: usize,
    b: usize,
    n: usize,
    down: bool,
    form: BiasedForm,
)
    requires runs { Runs buf.old t a b n }
    requires safe_run { SafeRun (separate_step down form) t a b n (at buf.old) }
    ensures { at buf.new ≡ ran (applied (separate_step down form)) t a b n (at buf.old) }
{
    if form.by == 0 {
        if down {
            run(
                buf,
                t,
                a,
                b,
                n,
                |own, x, y| separate_of(true, BiasedForm { by: 0, ..form }, own, x, y),
            );
        } else {
            run(
                buf,
                t,
                a,
                b,
                n,
                |own, x, y| separate_of(false, BiasedForm { by: 0, ..form }, own, x, y),
            );
        }
    } else if down {
        run(
            buf,
            t,
            a,
            b,
            n,
            |own, x, y| separate_of(true, form, own, x, y),
        );
    } else {
        run(
            buf,
            t,
            a,
            b,
            n,
            |own, x, y| separate_of(false, form, own, x, y),
        );
    }
}

// A run of the step `Combined`.
fn combined_run(
    buf: &mut [i32],
    t: usize,
    a: usize,
    b: usize,
    n: usize,
    down: bool,
    form: BiasedForm,
)
    requires runs { Runs buf.old t a b n }
    requires safe_run { SafeRun (combined_step down form) t a b n (at buf.old) }
    ensures { at buf.new ≡ ran (applied (combined_step down form)) t a b n (at buf.old) }
{
    if down {
        run(
            buf,
            t,
            a,
            b,
            n,
            |own, x, y| combined_of(true, form, own, x, y),
        );
    } else {
        run(
            buf,
            t,
            a,
            b,
            n,
            |own, x, y| combined_of(false, form, own, x, y),
        );
    }
}

// A run of the step `BiasedCut`, with a loop of its own for either sign, where nothing is cut after the sum, and where the own value is not
// shifted either.
fn cut_run(buf: &mut [i32], t: usize, a: usize, b: usize, n: usize, down: bool, form: CutForm)
    requires runs { Runs buf.old t a b n }
    requires safe_run { SafeRun (cut_step down form) t a b n (at buf.old) }
    ensures { at buf.new ≡ ran (applied (cut_step down form)) t a b n (at buf.old) }
{
    if form.cut == 0 {
        if form.k == 0 {
            if down {
                run(
                    buf,
                    t,
                    a,
                    b,
                    n,
                    |own, x, y| biased_cut_of(
                        true,
                        CutForm {
                            k: 0,
                            cut: 0,
                            ..form
                        },
                        own,
                        x,
                        y,
                    ),
                );
            } else {
                run(
                    buf,
                    t,
                    a,
                    b,
                    n,
                    |own, x, y| biased_cut_of(
                        false,
                        CutForm {
                            k: 0,
                            cut: 0,
                            ..form
                        },
                        own,
                        x,
                        y,
                    ),
                );
            }
        } else if down {
            run(
                buf,
                t,
                a,
                b,
                n,
                |own, x, y| biased_cut_of(true, CutForm { cut: 0, ..form }, own, x, y),
            );
        } else {
            run(
                buf,
                t,
                a,
                b,
                n,
                |own, x, y| biased_cut_of(false, CutForm { cut: 0, ..form }, own, x, y),
            );
        }
    } else if down {
        run(
            buf,
            t,
            a,
            b,
            n,
            |own, x, y| biased_cut_of(true, form, own, x, y),
        );
    } else {
        run(
            buf,
            t,
            a,
            b,
            n,
            |own, x, y| biased_cut_of(false, form, own, x, y),
        );
    }
}

// A step at each place of a run, dispatched once: each arm's loop is compiled for its own step.
pub fn lift_run(buf: &mut [i32], t: usize, a: usize, b: usize, n: usize, step: Step)
    requires runs { Runs buf.old t a b n }
    requires safe_run { SafeRun step t a b n (at buf.old) }
    ensures { at buf.new ≡ ran (applied step) t a b n (at buf.old) }
{
    match step {
        Step::Predict => run(buf, t, a, b, n, predicted),
        Step::Update => run(buf, t, a, b, n, updated),
        Step::InversePredict => run(buf, t, a, b, n, inverse_predicted),
        Step::InverseUpdate => run(buf, t, a, b, n, inverse_updated),
        Step::Scaled { k, c, cut } => run(
            buf,
            t,
            a,
            b,
            n,
            |own, x, y| scaled_of(k, c, cut, own, x, y),
        ),
        Step::Separate {
            down,
            rise,
            c,
            base,
            cut,
        } => separate_run(
            buf,
            t,
            a,
            b,
            n,
            down,
            BiasedForm {
                by: rise,
                c,
                offset: 0,
                base,
                cut,
            },
        ),
        Step::Combined {
            down,
            k,
            c,
            offset,
            base,
            cut,
        } => combined_run(
            buf,
            t,
            a,
            b,
            n,
            down,
            BiasedForm {
                by: k,
                c,
                offset,
                base,
                cut,
            },
        ),
        Step::Cut {
            k,
            c,
            first,
            up,
            cut,
        } => run(
            buf,
            t,
            a,
            b,
            n,
            |own, x, y| cut_of(k, c, first, up, cut, own, x, y),
        ),
        Step::BiasedCut {
            down,
            k,
            c,
            offset,
            first,
            up,
            base,
            cut,
        } => cut_run(
            buf,
            t,
            a,
            b,
            n,
            down,
            CutForm {
                k,
                c,
                offset,
                first,
                up,
                base,
                cut,
            },
        ),
    }
}

// A step at each of n places from t on that stand at an end of their lines, each with the place as far from a on both sides.
pub fn end_run(buf: &mut [i32], t: usize, a: usize, n: usize, step: Step)
    requires runs { Runs buf.old t a a n }
    requires safe_run { SafeRun step t a a n (at buf.old) }
    ensures { at buf.new ≡ ran (applied step) t a a n (at buf.old) }
{
    run(buf, t, a, a, n, |own, x, _| apply_end(step, own, x));
}

// ---- values scaled

// What f makes of the n values of src from place `from` on goes to dst from place `to` on.
fn map_run<F: Fn(i32) -> i32>(src: &[i32], from: usize, dst: &mut [i32], to: usize, n: usize, f: F)
    requires n_in_bounds { (from + n ≤ length src.now) × (to + n ≤ length dst.old) }
    requires callable { (j : ℕ) → j < n → F.pre f (at src.now (from + j)) }
    ensures { Made (λ j. F.post f (at src.now (from + j))) to n dst.old dst.new }
{
    // of what a zip of a lent part leaves a proof knows nothing
    for (j, x) in dst[to..to + n].iter_mut().enumerate() {
        *x = f(src[from + j]);
    }
}

// The n values of src from place `from` on, scaled, go to dst from place `to` on.
pub fn scale_run(src: &[i32], from: usize, dst: &mut [i32], to: usize, n: usize, g: Factor)
    requires n_in_bounds { (from + n ≤ length src.now) × (to + n ≤ length dst.old) }
    requires by_index { (j : ℕ) → j < n → FactorSafe g (at src.now (from + j)) }
    ensures { at dst.new ≡ patch to n (λ j. scaled_by g (at src.now (from + j))) (at dst.old) }
{
    match g {
        Factor::Plain { c, cut } => map_run(src, from, dst, to, n, |x| scaled_by(c, cut, x)),
        Factor::Biased {
            c,
            offset,
            base,
            cut,
        } => {
            let form = FactorForm {
                c,
                offset,
                base,
                cut,
            };
            map_run(src, from, dst, to, n, |x| biased_by(form, x));
        }
    }
}

// What f makes of each of n values from place `from` on, where it stands.
fn map_here<F: Fn(i32) -> i32>(buf: &mut [i32], from: usize, n: usize, f: F)
    requires n_in_bounds { from + n ≤ length buf.old }
    requires callable { (j : ℕ) → j < n → F.pre f (at buf.old (from + j)) }
    ensures { Made (λ j. F.post f (at buf.old (from + j))) from n buf.old buf.new }
{
    // an index: through `iter_mut` what f asks at a value that is still as it was did not prove
    for j in 0..n {
        let v = f(buf[from + j]);
        buf[from + j] = v;
    }
}

// n values from place `from` on, each scaled where it stands.
pub fn scale_here(buf: &mut [i32], from: usize, n: usize, g: Factor)
    requires n_in_bounds { from + n ≤ length buf.old }
    requires by_index { (j : ℕ) → j < n → FactorSafe g (at buf.old (from + j)) }
    ensures { at buf.new ≡ patch from n (λ j. scaled_by g (at buf.old (from + j))) (at buf.old) }
{
    match g {
        Factor::Plain { c, cut } => map_here(buf, from, n, |x| scaled_by(c, cut, x)),
        Factor::Biased {
            c,
            offset,
            base,
            cut,
        } => {
            let form = FactorForm {
                c,
                offset,
                base,
                cut,
            };
            map_here(buf, from, n, |x| biased_by(form, x));
        }
    }
}
