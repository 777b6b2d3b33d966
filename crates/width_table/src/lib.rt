// Width tables (document 01: books) in memory. Every definition that the contracts cite is in specs/.
#![tactic(auto)]

ghost use Rattle.std.specs.Prelude.{◌≡◌, ◌+◌, ◌*◌, ◌-◌, ◌<◌, ◌≤◌, ◌&&◌, get_or, IfErr};
ghost use Rattle.refusals.specs.Answers.{passed, asks};
ghost use Rattle.numbers.specs.Tests.{between, every};
ghost use Rattle.width_table.specs.Nodes.{passes_per_level};
ghost use Rattle.width_table.specs.Numbered.{IsNode, IsPass, IsProduct};
ghost use Rattle.width_table.specs.Table.{max_levels, depth_right, levels_right, width_right, form_right, width_bytes, node_place, product_place};
ghost use Rattle.width_table.specs.Lists.{node_bytes, product_bytes, widths_right, used_products};
ghost use Rattle.width_table.specs.Changes.{has_node, width_answer, table_after_width, constant_answer, table_after_constant, has_product, product_answer, table_after_product};
ghost use Rattle.width_table.specs.Told.{told_change, table_back};
ghost use Rattle.width_table.specs.Readers.{or_zero, integer_bits_at, fraction_bits_at, input_bits_at};

use refusals::Refusal;

// A width table. Level l, pass p and node k, counted from 1, have their integer bits at place
// ((l - 1) * PASSES + (p - 1)) * PASS_BYTES + (k - 1) * WIDTH_BYTES of `nodes` and their fractional bits after them; places of unused
// levels hold 0. `has_products` says whether the table has tag 5
// (a flag: the form is judged of the places beside it too, and C hands over both); where it has, the product of P1, U1, P2, U2, counted from 1, has its width at
// place ((l - 1) * PASSES + (p - 1)) * PRODUCTS + (k - 1) of `products`; all other places there hold 0.
#[derive(Clone, Copy)]
pub struct WidthTable {
    pub depth: u8,
    pub levels: u8,
    pub constants: [u8; WidthTable::CONSTANTS],
    pub nodes: [u8; WidthTable::NODE_BYTES],
    pub has_products: bool,
    pub products: [u8; WidthTable::PRODUCT_BYTES],
}

impl WidthTable {
    // Limits of depth, levels, a constant's bits, a node's integer and fractional bits, and a product's bits.
    pub const MAX_DEPTH: u8 = 12;

    pub const MAX_LEVELS: u8 = 5;

    pub const MAX_CONSTANT_BITS: u8 = 24;

    pub const MAX_INTEGER_BITS: u8 = 12;

    pub const MAX_FRACTION_BITS: u8 = 20;

    pub const MAX_PRODUCT_BITS: u8 = 44;

    // Passes of a level, nodes of a pass, as many constants, and products of a pass.
    pub const PASSES: u8 = 3;

    pub const NODES: u8 = 6;

    pub const CONSTANTS: usize = WidthTable::NODES as usize;

    pub const PRODUCTS: u8 = 4;

    // The passes, and the nodes: numbers, as document 01 counts them in tables, refusals and calls, and the readers below answer for each number.
    pub const ROWS: u8 = 1;

    pub const LOW_COLUMNS: u8 = 2;

    pub const HIGH_COLUMNS: u8 = 3;

    pub const P1: u8 = 1;

    pub const U1: u8 = 2;

    pub const P2: u8 = 3;

    pub const U2: u8 = 4;

    pub const G1: u8 = 5;

    pub const G2: u8 = 6;

    // Bytes of a node's width; of the widths of a pass, of a level, of all levels.
    pub const WIDTH_BYTES: usize = 2;

    pub const PASS_BYTES: usize = (WidthTable::NODES as usize) * WidthTable::WIDTH_BYTES;

    pub const LEVEL_BYTES: usize = (WidthTable::PASSES as usize) * WidthTable::PASS_BYTES;

    pub const NODE_BYTES: usize = WidthTable::LEVEL_BYTES * (WidthTable::MAX_LEVELS as usize);

    // Bytes of the widths of the products of a level, one each, and of all levels.
    pub const LEVEL_PRODUCTS: usize = (WidthTable::PASSES as usize)
        * (WidthTable::PRODUCTS as usize);

    pub const PRODUCT_BYTES: usize = WidthTable::LEVEL_PRODUCTS * (WidthTable::MAX_LEVELS as usize);
}

// A change that is refused: why, and the old table, which comes back.
#[derive(Clone, Copy)]
pub struct NotChanged {
    pub why: Refusal,
    pub table: WidthTable,
}

impl From<NotChanged> for Refusal {
    ghost from_gives = { λ refused why. why ≡ refused.why };

    fn from(refused: NotChanged) -> Refusal {
        refused.why
    }
}

// Depth and levels are within their limits.
pub fn limits_right(depth: u8, levels: u8) -> bool
    ensures { result ≡ (depth_right depth && levels_right levels) }
{
    (1..=WidthTable::MAX_DEPTH).contains(&depth) && (1..=WidthTable::MAX_LEVELS).contains(&levels)
}

// The width of a node is within its limits.
fn width_right(integer: u8, fraction: u8) -> bool
    ensures { result ≡ width_right integer fraction }
{
    (1..=WidthTable::MAX_INTEGER_BITS).contains(&integer)
        && fraction <= WidthTable::MAX_FRACTION_BITS
}

// Every number lies between least and most, by a test a turn.
fn each_between(numbers: &[u8], least: u8, most: u8) -> bool
    ensures { result ≡ every (between least most) numbers.now }
{
    numbers.iter().all(|n| least <= *n && *n <= most)
}

// Every number lies between least and most, by four tests a turn and those of the rest.
pub fn all_between(numbers: &[u8], least: u8, most: u8) -> bool
    ensures { result ≡ every (between least most) numbers.now }
{
    let (fours, rest) = numbers.as_chunks::<4>();
    fours.iter().all(|four| each_between(four, least, most)) && each_between(rest, least, most)
}

// Integer bits, then fractional bits, of each node of some levels.
pub fn widths_right(numbers: &[u8]) -> bool
    ensures { result ≡ widths_right numbers.now }
{
    let (widths, rest) = numbers.as_chunks::<{ WidthTable::WIDTH_BYTES }>();
    rest.is_empty() && widths.iter().all(|width| width_right(width[0], width[1]))
}

impl WidthTable {
    // The table of these numbers.
    pub fn new(
        depth: u8,
        levels: u8,
        constants: [u8; WidthTable::CONSTANTS],
        nodes: [u8; WidthTable::NODE_BYTES],
        has_products: bool,
        products: [u8; WidthTable::PRODUCT_BYTES],
    ) -> WidthTable
        ensures { result ≡ record { depth = depth; levels = levels; constants = constants; nodes = nodes; has_products = has_products; products = products } }
    {
        WidthTable {
            depth,
            levels,
            constants,
            nodes,
            has_products,
            products,
        }
    }

    // How many of the products' numbers are widths: none without tag 5.
    fn used_products(&self) -> usize
        ensures { result ≡ used_products self.now }
    {
        if self.has_products {
            WidthTable::LEVEL_PRODUCTS * (self.levels as usize)
        } else {
            0
        }
    }

    // Whether a table in memory has a right form: else refusal 4.
    pub fn form_right(self) -> bool
        ensures { result ≡ form_right self }
    {
        let n = WidthTable::LEVEL_BYTES * (self.levels as usize);
        let used = self.used_products();
        limits_right(self.depth, self.levels)
            && all_between(&self.constants, 1, WidthTable::MAX_CONSTANT_BITS)
            && widths_right(&self.nodes[..n])
            && all_between(&self.nodes[n..], 0, 0)
            && all_between(&self.products[..used], 0, WidthTable::MAX_PRODUCT_BITS)
            && all_between(&self.products[used..], 0, 0)
    }
}

// A table of so many levels has this pass of this level.
fn has_pass(levels: u8, level: u8, pass: u8) -> bool
    ensures { result ≡ (between 1 levels level && between 1 passes_per_level pass) }
{
    (1..=levels).contains(&level) && (1..=WidthTable::PASSES).contains(&pass)
}

// It has this pass, and a pass has this one of so many.
fn has_part(levels: u8, level: u8, pass: u8, part: u8, parts: u8) -> bool
    ensures { result ≡ (between 1 levels level && between 1 passes_per_level pass && between 1 parts part) }
{
    has_pass(levels, level, pass) && (1..=parts).contains(&part)
}

// A table of so many levels has this node.
pub fn has_node(levels: u8, level: u8, pass: u8, node: u8) -> bool
    ensures { result ≡ has_node levels level pass node }
{
    has_part(levels, level, pass, node, WidthTable::NODES)
}

// How many passes come before this one, in book order.
fn passes_before(level: u8, pass: u8) -> usize
    requires { (1 ≤ level) × (level ≤ max_levels) × IsPass pass }
    ensures { (result ≡ (level - 1) * passes_per_level + (pass - 1)) × (result < max_levels * passes_per_level) }
{
    ((level - 1) as usize) * (WidthTable::PASSES as usize) + ((pass - 1) as usize)
}

// Where a node's integer bits lie.
pub fn node_place(level: u8, pass: u8, node: u8) -> usize
    requires { (1 ≤ level) × (level ≤ max_levels) × IsPass pass × IsNode node }
    ensures { (result ≡ node_place level pass node) × (result + width_bytes ≤ node_bytes max_levels) }
{
    passes_before(level, pass) * WidthTable::PASS_BYTES
        + ((node - 1) as usize) * WidthTable::WIDTH_BYTES
}

// A table of so many levels, with tag 5, has this product: P1, U1, P2 and U2 have one (document 02, job 7).
pub fn has_product(levels: u8, level: u8, pass: u8, product: u8) -> bool
    ensures { result ≡ has_product levels level pass product }
{
    has_part(levels, level, pass, product, WidthTable::PRODUCTS)
}

// Where a product's width lies.
pub fn product_place(level: u8, pass: u8, product: u8) -> usize
    requires { (1 ≤ level) × (level ≤ max_levels) × IsPass pass × IsProduct product }
    ensures { (result ≡ product_place level pass product) × (result < product_bytes max_levels) }
{
    passes_before(level, pass) * (WidthTable::PRODUCTS as usize) + ((product - 1) as usize)
}

impl WidthTable {
    // Whether a change may be made, else refusal 4 and the table as it is: the form is right, the table has the place that changes, and its new numbers are right.
    fn takes(&self, has_place: bool, numbers_right: bool) -> Result<(), NotChanged>
        ensures outcome { told_change result ≡ asks (form_right self.now && has_place && numbers_right) 4 passed }
        ensures table { IfErr result (λ refused. refused.table ≡ self.now) }
    {
        if self.form_right() && has_place && numbers_right {
            Ok(())
        } else {
            Err(NotChanged {
                why: Refusal::OutsideLimits,
                table: *self,
            })
        }
    }

    // The table with one node's width changed (else refusal 4, and the old table comes back).
    pub fn with_width(
        mut self,
        level: u8,
        pass: u8,
        node: u8,
        integer: u8,
        fraction: u8,
    ) -> Result<WidthTable, NotChanged>
        ensures outcome { told_change result ≡ width_answer self level pass node integer fraction }
        ensures table { table_back result ≡ table_after_width self level pass node integer fraction }
    {
        self.takes(
            has_node(self.levels, level, pass, node),
            width_right(integer, fraction),
        )?;
        let at = node_place(level, pass, node);
        self.nodes[at] = integer;
        self.nodes[at + 1] = fraction;
        Ok(self)
    }

    // The table with one constant's bits changed (else refusal 4, and the old table comes back).
    pub fn with_constant(mut self, node: u8, bits: u8) -> Result<WidthTable, NotChanged>
        ensures outcome { told_change result ≡ constant_answer self node bits }
        ensures table { table_back result ≡ table_after_constant self node bits }
    {
        self.takes(
            (1..=WidthTable::NODES).contains(&node),
            (1..=WidthTable::MAX_CONSTANT_BITS).contains(&bits),
        )?;
        self.constants[(node - 1) as usize] = bits;
        Ok(self)
    }

    // The table with one product's width changed (else refusal 4, as without tag 5, and the old table comes back).
    pub fn with_product(
        mut self,
        level: u8,
        pass: u8,
        product: u8,
        bits: u8,
    ) -> Result<WidthTable, NotChanged>
        ensures outcome { told_change result ≡ product_answer self level pass product bits }
        ensures table { table_back result ≡ table_after_product self level pass product bits }
    {
        self.takes(
            self.has_products && has_product(self.levels, level, pass, product),
            bits <= WidthTable::MAX_PRODUCT_BITS,
        )?;
        self.products[product_place(level, pass, product)] = bits;
        Ok(self)
    }

    // The integer bits of a node of any level that a table may have, or the fractional bits after them; 0 for any other node.
    fn node_number(self, level: u8, pass: u8, node: u8, after: usize) -> u8
        requires { after < width_bytes }
        ensures { result ≡ or_zero (has_node max_levels level pass node) (get_or self.nodes (node_place level pass node + after) 0) }
    {
        if !has_node(WidthTable::MAX_LEVELS, level, pass, node) {
            return 0;
        }
        self.nodes[node_place(level, pass, node) + after]
    }

    // The integer bits of a node of any level that a table may have; 0 for any other number.
    pub fn integer_bits(self, level: u8, pass: u8, node: u8) -> u8
        ensures { result ≡ integer_bits_at self level pass node }
    {
        self.node_number(level, pass, node, 0)
    }

    // The fractional bits of a node of any level that a table may have; 0 for any other number.
    pub fn fraction_bits(self, level: u8, pass: u8, node: u8) -> u8
        ensures { result ≡ fraction_bits_at self level pass node }
    {
        self.node_number(level, pass, node, 1)
    }

    // The fractional bits of what enters a pass of such a level, 0 for any other number (specs/Table, `input_bits`).
    pub fn input_bits(self, level: u8, pass: u8) -> u8
        ensures { result ≡ input_bits_at self level pass }
    {
        if !has_pass(WidthTable::MAX_LEVELS, level, pass) {
            return 0;
        }
        if pass == WidthTable::LOW_COLUMNS {
            return self.fraction_bits(level, WidthTable::ROWS, WidthTable::G1);
        }
        if pass == WidthTable::HIGH_COLUMNS {
            return self.fraction_bits(level, WidthTable::ROWS, WidthTable::G2);
        }
        if level == 1 {
            return self.depth;
        }
        self.fraction_bits(level - 1, WidthTable::LOW_COLUMNS, WidthTable::G1)
    }
}
