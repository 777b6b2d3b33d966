// Lifting on line buffers of a plane: the types. What is done with them is in modules.
//   steps    one value
//   runs     one run
//   forms    the forms in which steps and scalings are run
//   buffers  a line buffer
//   strips   neighbouring columns, by way of the line buffer
//   passes   rows and columns of a plane
#![tactic(auto)]

mod buffers;
mod forms;
mod passes;
mod runs;
mod steps;
mod strips;

pub use buffers::scale_part;
pub use forms::{fastest_factor, fastest_pair};
pub use passes::{centred, columns, pixel_line, pixel_rows, put_pixels, rows};
pub use runs::{lift_run, scale_here, scale_run};
pub use steps::{predicted, predicted_end, updated, updated_end};

// A lifting step: what it makes of a value and two neighbours is `applied` of specs/Steps. `Separate` and `Combined` are the forms in which a
// scaled step is run: by products of unsigned numbers, the neighbours' sum negated where the constant is negative. `Cut` cuts the product by
// itself, first; `BiasedCut` is the form in which it is run.
#[derive(Clone, Copy)]
pub enum Step {
    Predict,
    Update,
    InversePredict,
    InverseUpdate,
    Scaled {
        k: u32,
        c: i64,
        cut: u32,
    },
    Separate {
        down: bool,
        rise: u32,
        c: u32,
        base: u64,
        cut: u32,
    },
    Combined {
        down: bool,
        k: u32,
        c: u32,
        offset: u64,
        base: u64,
        cut: u32,
    },
    Cut {
        k: u32,
        c: i64,
        first: u32,
        up: u32,
        cut: u32,
    },
    BiasedCut {
        down: bool,
        k: u32,
        c: u32,
        offset: u64,
        first: u32,
        up: u32,
        base: u64,
        cut: u32,
    },
}

// A scaling by a constant: `scaled_by` of specs/Steps. `Biased` is the form in which it is run.
#[derive(Clone, Copy)]
pub enum Factor {
    Plain {
        c: i64,
        cut: u32,
    },
    Biased {
        c: u32,
        offset: u64,
        base: u64,
        cut: u32,
    },
}

// The numbers of a step in the form `Separate` or `Combined`, with no sign (the variants stay as the laws of specs/Forms name them): `separate_step` and `combined_step` of specs/Forms.
#[derive(Clone, Copy)]
struct BiasedForm {
    by: u32,
    c: u32,
    offset: u64,
    base: u64,
    cut: u32,
}

// The numbers of a step in the form `BiasedCut`, with no sign: `cut_step` of specs/Forms.
#[derive(Clone, Copy)]
struct CutForm {
    k: u32,
    c: u32,
    offset: u64,
    first: u32,
    up: u32,
    base: u64,
    cut: u32,
}

// The numbers of a scaling in the form `Biased`: `biased_factor` of specs/Forms.
#[derive(Clone, Copy)]
struct FactorForm {
    c: u32,
    offset: u64,
    base: u64,
    cut: u32,
}

// A pair of lifting steps: one at the highs, then one at the lows; inverted, the other way round.
#[derive(Clone, Copy)]
pub struct Pair {
    pub highs: Step,
    pub lows: Step,
}

// Two pairs of lifting steps, and a scaling of the lows and one of the highs.
#[derive(Clone, Copy)]
pub struct TwoPairs {
    pub first: Pair,
    pub second: Pair,
    pub low: Factor,
    pub high: Factor,
}

// What a pass does with a line: `worked` of specs/Kernels.
#[derive(Clone, Copy)]
pub enum Kernel {
    // a pair (5/3)
    One(Pair),
    // two pairs and a scaling (9/7)
    Two(TwoPairs),
    // a pair inverted
    Inverse(Pair),
}
