// The precision analysis of a width table (document 01: the judge; document 02, jobs 6 and 7). Every definition that the contracts cite
// is in specs/. All bounds are whole numbers of 2^-32.
#![tactic(auto)]

ghost use Rattle.std.specs.Prelude.{◌≡◌, ℕ, ◌+◌, ◌*◌, ◌-◌, ◌<◌, ◌≤◌, [], ◌∷◌, T, IfOk, get_or, take};
ghost use Rattle.stages.specs.Rule.{times_gain};
ghost use Rattle.table_meaning.specs.Subbands.{kept_at};
ghost use Rattle.precision.specs.Verdict.{first_refusal, verdict};
ghost use Rattle.precision.specs.Places.{places, most_total, largest, gain_at, multiplied, own_by, held_at, judged_as, fed_after, At, Limited, Read, Enters, BoundsOf, Reached};
ghost use Rattle.width_table.specs.Numbered.{node_of, pass_of, IsNode, IsPass, IsProduct};
ghost use Rattle.width_table.specs.Readers.{cut_at};
ghost use Rattle.precision.specs.Bounds.{entering, bound_of};
ghost use Rattle.precision.specs.BoundCalls.{nodes_before, bound_answer, bound_numbered, range_told, error_told};
ghost use Rattle.refusals.specs.Answers.{passed, ◌then◌};
ghost use Rattle.refusals.specs.Told.{told};
ghost use Rattle.width_table.specs.Table.{max_integer_bits, max_fraction_bits, form_right};
ghost use Rattle.width_table.specs.Nodes.{G1, G2, nodes_per_pass, pass_number, passes_per_level, Rows, node_at, pass_nodes, level_nodes, table_order};

use bounds_rule::Bound;
use refusals::{NodePlace, Refusal};
use width_table::WidthTable;

// The places of a pass: 0 the input, 1 to 6 the nodes.
const PLACES: u8 = WidthTable::NODES + 1;

// The gains from a place, one a line, to each, in whole numbers of 2^-16.
const GAINS: [[u64; PLACES as usize]; PLACES as usize] = [
    [65536, 273434, 94510, 138260, 111285, 127934, 120267],
    [0, 65536, 6945, 65536, 45749, 52593, 57008],
    [0, 0, 65536, 115725, 168186, 193347, 100665],
    [0, 0, 0, 65536, 58132, 66829, 57008],
    [0, 0, 0, 0, 65536, 75341, 0],
    [0, 0, 0, 0, 0, 65536, 0],
    [0, 0, 0, 0, 0, 0, 65536],
];

// The sums of all places, to each of which is added what one place has, carried to it.
fn carry(mut sums: [u64; PLACES as usize], x: u64, from: u8) -> [u64; PLACES as usize]
    requires { (x ≤ largest) × (from < places) × ((i : ℕ) → i < places → get_or sums i 0 ≤ most_total) }
    ensures { (i : ℕ) → i < places → get_or result i 0 ≡ get_or sums i 0 + times_gain x (gain_at from i) }
{
    for (to, sum) in sums.iter_mut().enumerate() {
        *sum += bounds_rule::times_gain(x, GAINS[from as usize][to]);
    }
    sums
}

// The widths of a pass: the bits of its constants and its nodes' integer bits, from P1 on; the fractional bits of its places; the bits
// that its products are cut to, from P1 on.
#[derive(Clone, Copy)]
struct Widths {
    constants: [u8; WidthTable::CONSTANTS],
    integers: [u8; WidthTable::NODES as usize],
    fractions: [u8; PLACES as usize],
    products: [u8; WidthTable::PRODUCTS as usize],
}

// The place whose value a stage multiplies: P1 the input, G2 P2, any other stage the node before it.
fn multiplied_place(node: u8) -> u8
    requires { 1 ≤ node }
    ensures { result ≡ multiplied node }
{
    if node == WidthTable::G2 {
        WidthTable::P2
    } else {
        node - 1
    }
}

impl Widths {
    // The own error of a stage, where `total` is the range plus error of the value that it multiplies.
    fn own_error(&self, node: u8, total: u64) -> u64
        requires limited { Limited self.now }
        requires node { IsNode node }
        requires total_le_most_total { total ≤ most_total }
        ensures { result ≡ own_by self.now node total }
    {
        let constant = self.constants[node as usize - 1];
        let multiplied = self.fractions[multiplied_place(node) as usize];
        let f = self.fractions[node as usize];
        if node < WidthTable::G1 {
            // the other operand: P1 and U1 have the input, P2 and U2 the node two before
            let other = self.fractions[node.saturating_sub(2) as usize];
            let width = self.products[node as usize - 1];
            return bounds_rule::own_lift(width, constant, multiplied, other, f, total);
        }
        bounds_rule::own_scale(constant, multiplied, f, total)
    }
}

// The widths of a pass, and the ranges and errors of its places (two arrays, since `carry` adds to the one or to the other).
#[derive(Clone, Copy)]
struct PassBounds {
    widths: Widths,
    ranges: [u64; PLACES as usize],
    errors: [u64; PLACES as usize],
}

impl PassBounds {
    // The bound of a node.
    fn bound_at(&self, node: u8) -> Bound
        requires { IsNode node }
        ensures { result ≡ held_at self.now node }
    {
        Bound {
            range: self.ranges[node as usize],
            error: self.errors[node as usize],
        }
    }
}

// Kept nodes are G1 and G2 of the columns, but G1 of the columns of row-low at the last level only.
fn is_kept(levels: u8, level: u8, pass: u8, node: u8) -> bool
    requires pass { IsPass pass }
    requires node { IsNode node }
    ensures { result ≡ kept_at levels level (pass_of pass) (node_of node) }
{
    if pass == WidthTable::ROWS {
        return false;
    }
    if node < WidthTable::G1 {
        return false;
    }
    if node == WidthTable::G2 {
        return true;
    }
    if pass == WidthTable::HIGH_COLUMNS {
        return true;
    }
    level == levels
}

// A node fits (else 6); a kept one has an error below two steps (else 7).
fn judge_bound(
    bound: Bound,
    integer: u8,
    fraction: u8,
    kept: bool,
    place: NodePlace,
) -> Result<(), Refusal>
    requires { (bound.range + bound.error ≤ most_total) × (1 ≤ integer) × (integer ≤ max_integer_bits) × (fraction ≤ max_fraction_bits) }
    ensures { told result ≡ judged_as bound integer fraction kept (place.level ∷ place.pass ∷ place.node ∷ []) }
{
    let step = numbers::power((32 - fraction) as u32);
    if numbers::power((integer - 1) as u32) * Bound::ONE < bound.range + bound.error + step {
        return Err(Refusal::DoesNotFit(place));
    }
    if kept && 2 * step <= bound.error {
        return Err(Refusal::ErrorTooLarge(place));
    }
    Ok(())
}

// The bounds that a pass leaves: of G1 and of G2.
#[derive(Clone, Copy)]
struct Left {
    low: Bound,
    high: Bound,
}

// A pass of a table of right form.
#[derive(Drop)]
struct PassAt<'a> {
    table: &'a WidthTable,
    level: u8,
    pass: u8,
    ghost place: { At table.now level pass },
}

impl<'a> PassAt<'a> {
    // The bits that the products of a pass are cut to: without tag 5 the limit, which cuts none.
    fn products(&self) -> [u8; WidthTable::PRODUCTS as usize]
        ensures { (k : ℕ) → IsProduct k → get_or result (k - 1) 0 ≡ cut_at self.now.table.now self.now.level self.now.pass k }
    {
        let mut products = [WidthTable::MAX_PRODUCT_BITS; WidthTable::PRODUCTS as usize];
        if self.table.has_products {
            let at = width_table::product_place(self.level, self.pass, WidthTable::P1);
            let held = &self.table.products[..];
            products.copy_from_slice(&held[at..at + WidthTable::PRODUCTS as usize]);
        }
        products
    }

    // The widths, read once: each call of a method of the table would copy the whole table.
    fn widths(&self) -> Widths
        ensures { Read self.now.table.now self.now.level self.now.pass result }
    {
        let at = width_table::node_place(self.level, self.pass, WidthTable::P1);
        let mut integers = [0u8; WidthTable::NODES as usize];
        let mut fractions = [self.table.input_bits(self.level, self.pass); PLACES as usize];
        // by an index: two places of each width go to two arrays
        for k in 0..WidthTable::NODES as usize {
            integers[k] = self.table.nodes[at + WidthTable::WIDTH_BYTES * k];
            fractions[k + 1] = self.table.nodes[at + WidthTable::WIDTH_BYTES * k + 1];
        }
        Widths {
            constants: self.table.constants,
            integers,
            fractions,
            products: self.products(),
        }
    }

    // The bounds. What enters the pass is carried to each place, and so is each node's own error once those before it are.
    fn bounds(&self, input: Bound) -> PassBounds
        requires { Enters self.now.table.now self.now.level self.now.pass input }
        ensures { BoundsOf self.now.table.now self.now.level self.now.pass result }
    {
        let widths = self.widths();
        let zeros = [0u64; PLACES as usize];
        let ranges = carry(zeros, input.range, 0);
        let mut errors = carry(zeros, input.error, 0);
        for node in 1..PLACES {
            let operand = multiplied_place(node) as usize;
            let own = widths.own_error(node, ranges[operand] + errors[operand]);
            errors = carry(errors, own, node);
        }
        PassBounds {
            widths,
            ranges,
            errors,
        }
    }

    // The verdict on the first nodes, as many as `count` says; the first refusal first.
    fn judge_nodes(&self, bounds: &PassBounds, count: u8) -> Result<(), Refusal>
        requires bounds_of { BoundsOf self.now.table.now self.now.level self.now.pass bounds.now }
        requires count_lt_places { count < places }
        ensures { told result ≡ first_refusal self.now.table.now (take count (pass_nodes self.now.level (pass_of self.now.pass))) }
    {
        for node in 1..=count {
            judge_bound(
                bounds.bound_at(node),
                bounds.widths.integers[node as usize - 1],
                bounds.widths.fractions[node as usize],
                is_kept(self.table.levels, self.level, self.pass, node),
                NodePlace {
                    level: self.level,
                    pass: self.pass,
                    node,
                },
            )?;
        }
        Ok(())
    }

    // The verdict, and the bounds that the pass leaves.
    fn judge(&self, input: Bound) -> Result<Left, Refusal>
        requires { Enters self.now.table.now self.now.level self.now.pass input }
        ensures outcome { told result then passed ≡ first_refusal self.now.table.now (pass_nodes self.now.level (pass_of self.now.pass)) }
        ensures low { IfOk result (λ b. Reached (bound_of self.now.table.now (node_at self.now.level (pass_of self.now.pass) G1)) b.low) }
        ensures high { IfOk result (λ b. Reached (bound_of self.now.table.now (node_at self.now.level (pass_of self.now.pass) G2)) b.high) }
    {
        let bounds = self.bounds(input);
        self.judge_nodes(&bounds, WidthTable::NODES)?;
        Ok(Left {
            low: bounds.bound_at(WidthTable::G1),
            high: bounds.bound_at(WidthTable::G2),
        })
    }
}

// Into the pass that follows the first passes of a level, as many as `done` says: columns take what the rows leave; after all three
// come the rows of the next level, which take the low-low.
fn enter_pass(table: &WidthTable, level: u8, done: u8, input: Bound) -> Result<Bound, Refusal>
    requires enters { Enters table.now level (pass_number Rows) input }
    requires done_le_passes_per_level { done ≤ passes_per_level }
    ensures outcome { told result then passed ≡ first_refusal table.now (take (done * nodes_per_pass) (level_nodes level)) }
    ensures bound { IfOk result (λ b. Reached (fed_after table.now level done) b) }
{
    if done == 0 {
        return Ok(input);
    }
    let rows = PassAt {
        table,
        level,
        pass: WidthTable::ROWS,
    }
    .judge(input)?;
    if done == 1 {
        return Ok(rows.low);
    }
    let low_columns = PassAt {
        table,
        level,
        pass: WidthTable::LOW_COLUMNS,
    }
    .judge(rows.low)?;
    if done == 2 {
        return Ok(rows.high);
    }
    PassAt {
        table,
        level,
        pass: WidthTable::HIGH_COLUMNS,
    }
    .judge(rows.high)?;
    Ok(low_columns.low)
}

// Into the rows of the level that follows the first `done` levels. The first level starts with range 1/2 and no error.
fn enter_level(table: &WidthTable, done: u8) -> Result<Bound, Refusal>
    requires { T (form_right table.now) × (done ≤ table.now.levels) }
    ensures outcome { told result then passed ≡ first_refusal table.now (table_order done) }
    ensures bound { IfOk result (λ b. Reached (entering table.now (done + 1)) b) }
{
    let mut input = Bound {
        range: Bound::ONE / 2,
        error: 0,
    };
    for before in 0..done {
        input = enter_pass(table, before + 1, WidthTable::PASSES, input)?;
    }
    Ok(input)
}

// The verdict on a width table: its form (else 4), then its nodes in book order (else 6 or 7).
pub fn judge(table: WidthTable) -> Result<(), Refusal>
    ensures { told result ≡ verdict table }
{
    if !table.form_right() {
        return Err(Refusal::OutsideLimits);
    }
    enter_level(&table, table.levels)?;
    Ok(())
}

// The bound of a node of a table of right form.
fn bound_in(table: &WidthTable, level: u8, pass: u8, node: u8) -> Result<Bound, Refusal>
    requires at { At table.now level pass }
    requires node { IsNode node }
    ensures outcome { told result then passed ≡ first_refusal table.now (nodes_before table.now.levels level pass node) }
    ensures range { IfOk result (λ b. b.range ≡ (bound_numbered table.now level pass node).range) }
    ensures error { IfOk result (λ b. b.error ≡ (bound_numbered table.now level pass node).error) }
{
    let entering = enter_level(table, level - 1)?;
    let input = enter_pass(table, level, pass - 1, entering)?;
    let here = PassAt { table, level, pass };
    let bounds = here.bounds(input);
    here.judge_nodes(&bounds, node - 1)?;
    Ok(bounds.bound_at(node))
}

// Range and error of a node: 4 where the form is not right or the table lacks the node, then 6 or 7 of the nodes before it.
pub fn bound_of(table: WidthTable, level: u8, pass: u8, node: u8) -> Result<Bound, Refusal>
    ensures outcome { told result then passed ≡ bound_answer table level pass node }
    ensures range { IfOk result (λ b. b.range ≡ range_told table level pass node) }
    ensures error { IfOk result (λ b. b.error ≡ error_told table level pass node) }
{
    if !table.form_right() || !width_table::has_node(table.levels, level, pass, node) {
        return Err(Refusal::OutsideLimits);
    }
    bound_in(&table, level, pass, node)
}
