// The precision analysis of viewing (document 02, jobs 1 and 6). Every definition that the contracts cite is in specs/.
// All bounds are whole numbers of 2^-32.
#![tactic(auto)]

ghost use Rattle.std.specs.Prelude.{◌≡◌, ◌+◌, ◌*◌, ◌<◌, ◌≤◌, max, IfOk, T};
ghost use Rattle.refusals.specs.Answers.{passed, ◌then◌};
ghost use Rattle.refusals.specs.Told.{told};
ghost use Rattle.stages.specs.GainTable.{inverse_gains};
ghost use Rattle.stages.specs.Rule.{times_gain};
ghost use Rattle.width_table.specs.Nodes.{Rows, pass_number};
ghost use Rattle.width_table.specs.Numbered.{node_of, pass_of, IsNode};
ghost use Rattle.width_table.specs.Table.{form_right};
ghost use Rattle.precision.specs.Places.{At};
ghost use Rattle.view_precision.specs.Bounds.{larger, inverse_bound, pass_gives, stored, level_gives, gives_from, start_bound, within_max, pass_right, steps_allowed, view_distance, view_verdict};
ghost use Rattle.view_precision.specs.Places.{stages, sources, node_after, most_entering, largest, most_total, gain_at, bound_from, node_from, total_from, inverse_own_error, owns_below, SmallFed, AllSmall, AtMostStored, level_right, levels_right};
ghost use Rattle.bounds_rule.specs.Carried.{carried_to, as_bound};

use bounds_rule::Bound;
use refusals::Refusal;
use width_table::WidthTable;

// What no node may exceed: 2^15.
const MOST: u64 = Bound::ONE << 15;

// The stages of a pass inverted, from 0: G1 and G2, which scale, then U2, P2, U1, P1.
const STAGES: usize = WidthTable::NODES as usize;

const SCALING_STAGES: usize = 2;

// Those that leave the even and the odd output, U1 and P1, as places of the gains and of what errors come from.
const EVEN: usize = 4;

const ODD: usize = 5;

// What errors come from: the lows (0) and the highs (1), which are the inputs, then the stages.
const LOWS: usize = 0;

const HIGHS: usize = 1;

const INPUTS: usize = 2;

const SOURCES: usize = INPUTS + STAGES;

// The bits of a node, and of a constant.
const NODE_BITS: u8 = inverse_lifting::NODE_BITS as u8;

const CONSTANT_BITS: u8 = inverse_lifting::CONSTANT_BITS as u8;

// The error of a stored coefficient, in its steps: none in viewing, and what demand 3 of document 01 allows it.
const NO_STEPS: u64 = 0;

const ALLOWED_STEPS: u64 = 2;

// The larger of two bounds, range and error each by itself.
fn larger_bound(x: Bound, y: Bound) -> Bound
    ensures { as_bound result ≡ larger (as_bound x) (as_bound y) }
{
    Bound {
        range: x.range.max(y.range),
        error: x.error.max(y.error),
    }
}

// The gains from a source to what each stage leaves, in whole numbers of 2^-16; a line for each source.
const GAINS: [[u64; STAGES]; SOURCES] = [
    [57008, 0, 57008, 100665, 57008, 63260],
    [0, 75341, 66829, 193347, 52593, 75341],
    [65536, 0, 65536, 115725, 65536, 72724],
    [0, 65536, 58132, 168186, 45749, 65536],
    [0, 0, 65536, 115725, 65536, 72724],
    [0, 0, 0, 65536, 6945, 87565],
    [0, 0, 0, 0, 65536, 207898],
    [0, 0, 0, 0, 0, 65536],
];

// What a source has, carried to what a stage leaves.
fn carried(x: u64, from: usize, to: usize) -> u64
    requires { (x ≤ largest) × (from < sources) × (to < stages) }
    ensures { (result ≡ times_gain x (gain_at from to)) × (result ≤ 4 * largest) }
{
    bounds_rule::times_gain(x, GAINS[from][to])
}

// The own error of a stage, where `total` is the range plus error of the value that it multiplies.
fn own_error(stage: usize, total: u64) -> u64
    requires { total ≤ most_total }
    ensures { result ≡ inverse_own_error stage total }
{
    if stage < SCALING_STAGES {
        return bounds_rule::own_scale(CONSTANT_BITS, 0, NODE_BITS, total);
    }
    bounds_rule::own_lift(
        WidthTable::MAX_PRODUCT_BITS,
        CONSTANT_BITS,
        NODE_BITS,
        NODE_BITS,
        NODE_BITS,
        total,
    )
}

// What a pass is fed, and what each source has of its own: the lows and the highs their errors, a stage its own error (0 until it is known).
#[derive(Drop)]
struct Pass {
    low: Bound,
    high: Bound,
    own: [u64; SOURCES],
    ghost low_small: { SmallFed (as_bound low) },
    ghost high_small: { SmallFed (as_bound high) },
    ghost own_small: { AllSmall own },
}

impl Pass {
    // The error of what a stage leaves: what each source has of its own, carried to it.
    fn error_at(&self, stage: usize) -> u64
        requires { stage < stages }
        ensures { result ≡ carried_to inverse_gains self.now.own stage sources }
    {
        let mut error = 0;
        for (from, x) in self.own.iter().enumerate() {
            error += carried(*x, from, stage);
        }
        error
    }

    // Range and error of what a stage leaves on lines of two values or more.
    fn bound_at(&self, stage: usize) -> Bound
        requires { stage < stages }
        ensures { as_bound result ≡ bound_from self.now.low.range self.now.high.range self.now.own stage }
    {
        Bound {
            range: carried(self.low.range, LOWS, stage) + carried(self.high.range, HIGHS, stage),
            error: self.error_at(stage),
        }
    }

    // The same on lines from one value: a single low is the even output, whose bound is the larger of that and the lows'.
    fn node_at(&self, stage: usize) -> Bound
        requires { stage < stages }
        ensures { (as_bound result ≡ node_from (as_bound self.now.low) (as_bound self.now.high) self.now.own stage) × (result.range + result.error ≤ most_total) }
    {
        let bound = self.bound_at(stage);
        if stage == EVEN {
            larger_bound(bound, self.low)
        } else {
            bound
        }
    }

    // Range plus error of the value that a stage multiplies: G1 the lows, G2 the highs, any other what the stage before left.
    fn total_before(&self, stage: usize) -> u64
        requires { stage < stages }
        ensures { (result ≡ total_from (as_bound self.now.low) (as_bound self.now.high) self.now.own stage) × (result ≤ most_total) }
    {
        if stage == 0 {
            return self.low.range + self.low.error;
        }
        if stage == 1 {
            return self.high.range + self.high.error;
        }
        let bound = self.node_at(stage - 1);
        bound.range + bound.error
    }

    // A pass that is fed these lows and highs.
    fn fed(low: Bound, high: Bound) -> Pass
        requires { SmallFed (as_bound low) × SmallFed (as_bound high) }
        ensures low { result.low ≡ low }
        ensures high { result.high ≡ high }
        ensures own { result.own ≡ owns_below (as_bound low) (as_bound high) sources }
    {
        let mut own = [0u64; SOURCES];
        own[LOWS] = low.error;
        own[HIGHS] = high.error;
        // by an index: the own error of a stage needs those before it, in the same array
        for stage in 0..STAGES {
            let total = Pass { low, high, own }.total_before(stage);
            own[stage + INPUTS] = own_error(stage, total);
        }
        Pass { low, high, own }
    }

    // Range plus error of what a stage leaves is not above 2^15.
    fn node_right(&self, stage: usize) -> bool
        requires stage { stage < stages }
        requires own { self.now.own ≡ owns_below (as_bound self.now.low) (as_bound self.now.high) sources }
        ensures { result ≡ within_max (inverse_bound (as_bound self.now.low) (as_bound self.now.high) (node_after stage)) }
    {
        let bound = self.node_at(stage);
        bound.range + bound.error <= MOST
    }

    // The same of all stages.
    fn nodes_right(&self) -> bool
        requires { self.now.own ≡ owns_below (as_bound self.now.low) (as_bound self.now.high) sources }
        ensures { result ≡ pass_right (inverse_bound (as_bound self.now.low) (as_bound self.now.high)) }
    {
        (0..STAGES).all(|stage| self.node_right(stage))
    }
}

// Whether the nodes of a pass, a level or some levels are right, and the bound of what these give on: `distance` needs it of wrong ones too.
#[derive(Clone, Copy)]
struct Given {
    right: bool,
    bound: Bound,
}

// One pass, which is fed lows and highs: it gives on the larger of the even and the odd output.
fn work_pass(low: Bound, high: Bound) -> Given
    requires { SmallFed (as_bound low) × SmallFed (as_bound high) }
    ensures right { result.right ≡ pass_right (inverse_bound (as_bound low) (as_bound high)) }
    ensures bound { as_bound result.bound ≡ pass_gives (as_bound low) (as_bound high) }
{
    let pass = Pass::fed(low, high);
    let even = pass.node_at(EVEN);
    let odd = pass.node_at(ODD);
    Given {
        right: pass.nodes_right(),
        bound: larger_bound(even, odd),
    }
}

// A table of right form whose stored coefficients each have an error of so many of their steps.
#[derive(Drop)]
struct Stored<'a> {
    table: &'a WidthTable,
    steps: u64,
    ghost form: { T (form_right table.now) },
    ghost few: { steps ≤ steps_allowed },
}

impl<'a> Stored<'a> {
    // The bound of a stored coefficient.
    fn bound(&self, level: u8, pass: u8, node: u8) -> Bound
        requires at { At self.now.table.now level pass }
        requires node { IsNode node }
        ensures { (as_bound result ≡ stored self.now.table.now self.now.steps level (pass_of pass) (node_of node)) × AtMostStored 1 (as_bound result) }
    {
        let integer = self.table.integer_bits(level, pass, node);
        let fraction = self.table.fraction_bits(level, pass, node);
        Bound {
            range: numbers::power((integer - 1) as u32) * Bound::ONE,
            error: self.steps * numbers::power((32 - fraction) as u32),
        }
    }

    // One level, whose low-low has a bound: the columns take it and stored coefficients, the rows what the columns give.
    fn work_level(&self, level: u8, entering: Bound) -> Given
        requires at { At self.now.table.now level (pass_number Rows) }
        requires entering { AtMostStored most_entering (as_bound entering) }
        ensures right { result.right ≡ level_right self.now.table.now self.now.steps level (as_bound entering) }
        ensures bound { as_bound result.bound ≡ level_gives self.now.table.now self.now.steps level (as_bound entering) }
    {
        let low_high = self.bound(level, WidthTable::LOW_COLUMNS, WidthTable::G2);
        let high_low = self.bound(level, WidthTable::HIGH_COLUMNS, WidthTable::G1);
        let high_high = self.bound(level, WidthTable::HIGH_COLUMNS, WidthTable::G2);
        let low_columns = work_pass(entering, low_high);
        let high_columns = work_pass(high_low, high_high);
        let rows = work_pass(low_columns.bound, high_columns.bound);
        Given {
            right: low_columns.right && high_columns.right && rows.right,
            bound: rows.bound,
        }
    }

    // All levels, the last first.
    fn work_levels(&self) -> Given
        ensures right { result.right ≡ levels_right self.now.table.now self.now.steps self.now.table.now.levels (start_bound self.now.table.now self.now.steps) }
        ensures bound { as_bound result.bound ≡ gives_from self.now.table.now self.now.steps self.now.table.now.levels (start_bound self.now.table.now self.now.steps) }
    {
        let levels = self.table.levels;
        let mut right = true;
        let mut bound = self.bound(levels, WidthTable::LOW_COLUMNS, WidthTable::G1);
        for level in (1..=levels).rev() {
            let given = self.work_level(level, bound);
            right = right && given.right;
            bound = given.bound;
        }
        Given { right, bound }
    }
}

// The verdict on a width table for viewing: the judge's verdict (4, 6, 7), then 13 where a node is above 2^15 or the pixel bound is not
// below half a grey.
pub fn judge(table: WidthTable) -> Result<(), Refusal>
    ensures { told result ≡ view_verdict table }
{
    precision::judge(table)?;
    let pixels = Stored {
        table: &table,
        steps: NO_STEPS,
    }
    .work_levels();
    if !pixels.right {
        return Err(Refusal::NotViewable);
    }
    if pixels.bound.error < numbers::power((32 - (table.depth + 1)) as u32) {
        Ok(())
    } else {
        Err(Refusal::NotViewable)
    }
}

// The distance from scan to view, in whole numbers of 2^-32: the refusals of `judge`, else the pixel bound where each stored coefficient
// starts at an error of two steps.
pub fn distance(table: WidthTable) -> Result<u64, Refusal>
    ensures outcome { told result then passed ≡ view_verdict table }
    ensures distance { IfOk result (λ d. d ≡ view_distance table) }
{
    judge(table)?;
    let pixels = Stored {
        table: &table,
        steps: ALLOWED_STEPS,
    }
    .work_levels();
    Ok(pixels.bound.error)
}
