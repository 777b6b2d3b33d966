// The stages of a pass of the 9/7 transform in fixed point, as the kernels of the lifting crate take them.
#![tactic(auto)]

ghost use Rattle.std.specs.Prelude.{◌≡◌, ◌+◌, ◌-◌, ◌<◌, ◌≤◌, ◌^◌, max, pos, ◌*ℤ◌};
ghost use Rattle.std.specs.Int.{w64};
ghost use Rattle.std.proofs.Common.{SFits};
ghost use Rattle.lifting.specs.Steps.{SameFactor};
ghost use Rattle.width_table.specs.Table.{max_fraction_bits};
ghost use Rattle.numbers.specs.Floor.{floor_div};
ghost use Rattle.stages.specs.Stages.{cut_to};
ghost use Rattle.stages.specs.Fixed.{nearest};
ghost use Rattle.fixed_stages.specs.Constants.{constant_of, ConstantBits};
ghost use Rattle.width_table.specs.Numbered.{node_of, pass_of, IsNode, IsPass};
ghost use Rattle.fixed_stages.specs.Steps.{step_top, once_of, cut_of, cut_together, step_of, factor_of, single_of, stage_of, scaling_of, cut_bits};
ghost use Rattle.fixed_stages.specs.Kernels.{kernel_of, single_for, AsStages};
ghost use Rattle.precision.specs.Verdict.{IsLevel};
ghost use Rattle.lifting.specs.Kernels.{SameKernel};

use lifting::{Factor, Kernel, Pair, Step, TwoPairs};
use width_table::WidthTable;

// The constants of P1, U1, P2, U2, G1 and G2 at so many bits that rounding them once more, to at most MAX_CONSTANT_BITS, gives the
// nearest.
const FINE_BITS: u8 = 32;

const FINE: [i64; WidthTable::CONSTANTS] = [
    -6812395126,
    -227547876,
    3792074198,
    1904847426,
    4937513293,
    3736039374,
];

// 2 to a power, as a signed number.
pub fn signed_power(bits: u8) -> i64
    requires { bits < 63 }
    ensures { result ≡ pos (2 ^ bits) }
{
    numbers::power(bits as u32) as i64
}

// A number over a power of 2, rounded down: its callers' definitions have the floor, and not the shift.
pub fn floor_shifted(z: i64, cut: u8) -> i64
    requires { cut < 64 }
    ensures { result ≡ floor_div z (2 ^ cut) }
{
    z >> cut
}

// The constant of a stage, 1 to 6, at so many bits: half a step is added, what is below a step cut off.
fn nearest_at(node: u8, bits: u8) -> i64
    requires { IsNode node × ConstantBits bits }
    ensures { result ≡ nearest (constant_of (node_of node)) bits }
{
    let cut = FINE_BITS - bits;
    let half = signed_power(cut - 1);
    floor_shifted(FINE[node as usize - 1] + half, cut)
}

// A product of so many bits is cut with the sum: no bit of it is cut, or own value and node have no more bits than its width.
fn cut_together(product: u8, own: u8, kept: u8, width: u8) -> bool
    ensures { result ≡ cut_together (cut_to width) product own kept }
{
    product <= width || (own <= width && kept <= width)
}

// A step by a constant of so many bits, with one cut: the bits of the neighbours, of the own value and of the node.
fn once_of(constant: i64, bits: u8, sides: u8, own: u8, kept: u8) -> Step
    requires constant_bits { ConstantBits bits × (sides ≤ max_fraction_bits) × (own ≤ max_fraction_bits) × (kept ≤ max_fraction_bits) }
    requires sfits { SFits w64 (constant *ℤ pos (2 ^ (step_top bits sides own kept - (bits + sides)))) }
    ensures { result ≡ once_of constant bits sides own kept }
{
    let product = bits + sides;
    let top = own.max(product).max(kept);
    let c = constant * signed_power(top - product);
    Step::Scaled {
        k: (top - own) as u32,
        c,
        cut: (top - kept) as u32,
    }
}

// The same where the product is cut to its width first.
fn cut_of(constant: i64, bits: u8, sides: u8, own: u8, kept: u8, width: u8) -> Step
    requires { ConstantBits bits × (sides ≤ max_fraction_bits) × (width < bits + sides) × (width < max own kept) }
    ensures { result ≡ cut_of width constant bits sides own kept }
{
    let top = own.max(kept);
    Step::Cut {
        k: (top - own) as u32,
        c: constant,
        first: (bits + sides - width) as u32,
        up: (top - width) as u32,
        cut: (top - kept) as u32,
    }
}

// A step by a constant of so many bits, with the width of its product.
fn step_of(constant: i64, bits: u8, sides: u8, own: u8, kept: u8, width: u8) -> Step
    requires constant_bits { ConstantBits bits × (sides ≤ max_fraction_bits) × (own ≤ max_fraction_bits) × (kept ≤ max_fraction_bits) }
    requires sfits { SFits w64 (constant *ℤ pos (2 ^ (step_top bits sides own kept - (bits + sides)))) }
    ensures { result ≡ step_of (cut_to width) constant bits sides own kept }
{
    if cut_together(bits + sides, own, kept, width) {
        return once_of(constant, bits, sides, own, kept);
    }
    cut_of(constant, bits, sides, own, kept, width)
}

// A scaling by a constant of so many bits: the bits of the value and of the node.
fn factor_of(constant: i64, bits: u8, value: u8, kept: u8) -> Factor
    requires constant_bits { ConstantBits bits × (value ≤ max_fraction_bits) × (kept ≤ max_fraction_bits) }
    requires sfits { SFits w64 (constant *ℤ pos (2 ^ (max (bits + value) kept - (bits + value)))) }
    ensures { result ≡ factor_of constant bits value kept }
{
    let product = bits + value;
    let top = product.max(kept);
    let c = constant * signed_power(top - product);
    Factor::Plain {
        c,
        cut: (top - kept) as u32,
    }
}

// A stage P1, U1, P2, U2, by its number: the bits of its constant, of the neighbours, of the own value and of the node, and the width of its
// product.
fn stage(node: u8, bits: u8, sides: u8, own: u8, kept: u8, width: u8) -> Step
    requires { IsNode node × ConstantBits bits × (sides ≤ max_fraction_bits) × (own ≤ max_fraction_bits) × (kept ≤ max_fraction_bits) }
    ensures { result ≡ stage_of (cut_to width) (constant_of (node_of node)) bits sides own kept }
{
    step_of(nearest_at(node, bits), bits, sides, own, kept, width)
}

// A stage G1, G2, by its number: the bits of its constant, of the value and of the node.
fn scaling(node: u8, bits: u8, value: u8, kept: u8) -> Factor
    requires { IsNode node × ConstantBits bits × (value ≤ max_fraction_bits) × (kept ≤ max_fraction_bits) }
    ensures { result ≡ scaling_of (constant_of (node_of node)) bits value kept }
{
    factor_of(nearest_at(node, bits), bits, value, kept)
}

// The bits that a product is cut to: its width in a table that has tag 5, else the limit, which cuts none.
fn cut_bits(cuts: bool, width: u8) -> u8
    ensures { result ≡ cut_bits cuts width }
{
    if cuts {
        width
    } else {
        WidthTable::MAX_PRODUCT_BITS
    }
}

// The stages of a pass, in the forms in which they are run. Its widths are read by their places: each call of a method of the table would
// copy the whole table.
pub fn stages_of(table: WidthTable, level: u8, pass: u8) -> TwoPairs
    requires { IsLevel table level × IsPass pass }
    ensures { AsStages table level (pass_of pass) result }
{
    let enters = table.input_bits(level, pass);
    let at = width_table::node_place(level, pass, WidthTable::P1);
    let from = width_table::product_place(level, pass, WidthTable::P1);
    let p1 = table.nodes[at + 1];
    let u1 = table.nodes[at + 3];
    let p2 = table.nodes[at + 5];
    let u2 = table.nodes[at + 7];
    let g1 = table.nodes[at + 9];
    let g2 = table.nodes[at + 11];
    let w1 = cut_bits(table.has_products, table.products[from]);
    let w2 = cut_bits(table.has_products, table.products[from + 1]);
    let w3 = cut_bits(table.has_products, table.products[from + 2]);
    let w4 = cut_bits(table.has_products, table.products[from + 3]);
    let first = Pair {
        highs: stage(WidthTable::P1, table.constants[0], enters, enters, p1, w1),
        lows: stage(WidthTable::U1, table.constants[1], p1, enters, u1, w2),
    };
    let second = Pair {
        highs: stage(WidthTable::P2, table.constants[2], u1, p1, p2, w3),
        lows: stage(WidthTable::U2, table.constants[3], p2, u1, u2, w4),
    };
    let low = scaling(WidthTable::G1, table.constants[4], u2, g1);
    let high = scaling(WidthTable::G2, table.constants[5], p2, g2);
    TwoPairs {
        first: lifting::fastest_pair(first),
        second: lifting::fastest_pair(second),
        low: lifting::fastest_factor(low),
        high: lifting::fastest_factor(high),
    }
}

// The kernel of a pass.
pub fn kernel_of(table: WidthTable, level: u8, pass: u8) -> Kernel
    requires { IsLevel table level × IsPass pass }
    ensures { SameKernel (kernel_of table level (pass_of pass)) result }
{
    Kernel::Two(stages_of(table, level, pass))
}

// A single sample of so many bits, cut to those of its node, as a scaling by a power of 2.
fn single_factor(value: u8, kept: u8) -> Factor
    requires { (value ≤ max_fraction_bits) × (kept ≤ max_fraction_bits) }
    ensures { result ≡ single_of value kept }
{
    let top = value.max(kept);
    let c = signed_power(top - value);
    Factor::Plain {
        c,
        cut: (top - kept) as u32,
    }
}

// What a pass makes of a single sample: it is cut to the bits of G1.
pub fn single_of(table: WidthTable, level: u8, pass: u8) -> Factor
    requires { IsLevel table level × IsPass pass }
    ensures { SameFactor (single_for table level (pass_of pass)) result }
{
    let enters = table.input_bits(level, pass);
    let kept = table.fraction_bits(level, pass, WidthTable::G1);
    lifting::fastest_factor(single_factor(enters, kept))
}
