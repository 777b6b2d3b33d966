// The way back of the reversible 5/3 transform, for copies worked columns before rows and for those made rows before columns
// (document 01: why a strip or book comes back; document 02, job 4).
#![tactic(auto)]

ghost use Rattle.std.specs.Prelude.{◌≡◌, ℕ, ◌+◌, ◌*◌, ◌-◌, ◌<◌, ◌≤◌, ◌^◌, length, get_or, pos, nat_abs, neg_ℤ, ◌+ℤ◌, ◌-ℤ◌};
ghost use Rattle.refusals.specs.Told.{told};
ghost use Rattle.refusals.specs.Answers.{passed, asks};
ghost use Rattle.slices.specs.Patch.{at, patch};
ghost use Rattle.slices.specs.Fronts.{zeroed};
ghost use Rattle.pictures.specs.RangeChecks.{Tells, Between};
ghost use Rattle.reversible.specs.Reversible.{columns_first, rows_first};
ghost use Rattle.reversible.specs.Calls.{has_picture, back_answer, back_pixels, back_work};
ghost use Rattle.reversible_back.specs.Orders.{order_of};
ghost use Rattle.reversible_back.specs.LevelLaws.{level_inverse};
ghost use Rattle.reversible.specs.Preconditions.{LevelRoom, LevelsRoom, CallRoom};
ghost use Rattle.reversible_back.specs.BackLaws.{BackDone};
ghost use Rattle.reversible_back.specs.FoundLaws.{IsSample, Found, TakenBack};
ghost use Rattle.width_table.specs.Table.{max_depth};

use lifting::{Kernel, Pair, Step};
use refusals::Refusal;
use slices::Part;

// Elements of the line buffer of the way back: sixteen columns of MAX_SIDE.
const TILE: usize = 16 * pictures::MAX_SIDE;

// No picture gives a value beyond these; between them no sum of a level leaves 32 bits.
const MAX_VALUE: i32 = 1 << 22;

const MIN_VALUE: i32 = -MAX_VALUE;

// What inverts a pass of the 5/3.
const INVERSE_PASS: Kernel = Kernel::Inverse(Pair {
    highs: Step::InversePredict,
    lows: Step::InverseUpdate,
});

// What the levels of a copy worked first; `order_of` of specs/Orders says the order.
#[derive(Clone, Copy)]
enum CopyOrder {
    ColumnsFirst,
    RowsFirst,
}

// One level back, of a part of w columns and h rows: what was worked first is inverted last. Two orders of two calls: no plainer by closures.
fn level_back(
    values: &mut [i32],
    buffer: &mut [i32],
    stride: usize,
    w: usize,
    h: usize,
    first: CopyOrder,
)
    requires { LevelRoom (2 ^ 22) values.old (length buffer.old) stride w h }
    ensures { at values.new ≡ level_inverse (order_of first) stride w h (at values.old) }
{
    match first {
        CopyOrder::ColumnsFirst => {
            reversible::rows_from(values, buffer, stride, w, h, INVERSE_PASS);
            reversible::columns_from(values, buffer, stride, w, h, INVERSE_PASS);
        }
        CopyOrder::RowsFirst => {
            reversible::columns_from(values, buffer, stride, w, h, INVERSE_PASS);
            reversible::rows_from(values, buffer, stride, w, h, INVERSE_PASS);
        }
    }
}

// A copy: the depth and the levels of its picture, the picture's sides, and what its levels worked first.
#[derive(Clone, Copy)]
struct CopyForm {
    pub depth: u8,
    pub levels: u8,
    pub w: usize,
    pub h: usize,
    pub first: CopyOrder,
}

// All levels back, the last one first; false where a value lies beyond MIN_VALUE or MAX_VALUE.
// A question, answered by a bool as in specs: the refusal is made once, in `take_back`.
fn levels_back(values: &mut [i32], buffer: &mut [i32], form: CopyForm) -> bool
    requires { LevelsRoom form.levels form.w form.h (length values.old) (length buffer.old) }
    ensures { BackDone (order_of form.first) form.levels form.w form.h (at values.old) (at values.new) result }
{
    for k in (0..form.levels).rev() {
        let part = Part {
            stride: form.w,
            from: 0,
            w: pictures::side_after(form.w, k),
            h: pictures::side_after(form.h, k),
        };
        if !pictures::part_between(values, part, MIN_VALUE, MAX_VALUE) {
            return false;
        }
        level_back(values, buffer, part.stride, part.w, part.h, form.first);
    }
    true
}

// Whether samples are those of pixels of that depth.
fn samples_right(values: &[i32], depth: u8) -> bool
    requires { (1 ≤ depth) × (depth ≤ max_depth) }
    ensures { Tells ((j : ℕ) → j < length values.now → IsSample depth (at values.now j)) result }
{
    let half = pictures::middle(depth) as i32;
    pictures::all_between(values, -half, half - 1)
}

// Takes a plane back in lent values: whether it is the transform of a picture.
fn found(plane: &[i32], values: &mut [i32], buffer: &mut [i32; TILE], form: CopyForm) -> bool
    requires { CallRoom form.depth form.levels form.w form.h (length values.old) (length plane.now) (length values.old) }
    ensures { Found (order_of form.first) form.depth form.levels form.w form.h plane.now (at values.new) result }
{
    let n = form.w * form.h;
    slices::copy_run(plane, 0, values, 0, n);
    levels_back(values, buffer, form) && samples_right(&values[..n], form.depth)
}

// A sample as a pixel.
fn pixel_of(v: i32, half: i32) -> u16
    requires { (nat_abs half ≤ 2 ^ 11) × Between (neg_ℤ half) (half -ℤ pos 1) v }
    ensures { result ≡ nat_abs (v +ℤ half) }
{
    (v + half) as u16
}

// The first n samples go to the pixels and become 0. By an index: of what a zip of two lent slices
// leaves nothing is known.
fn write_pixels(values: &mut [i32], pixels: &mut [u16], n: usize, depth: u8)
    requires le_depth { (1 ≤ depth) × (depth ≤ max_depth) × (n ≤ length values.old) × (n ≤ length pixels.old) }
    requires by_index { (j : ℕ) → j < n → IsSample depth (at values.old j) }
    ensures k_after { (λ k. get_or pixels.new k 0) ≡ patch 0 n (λ k. nat_abs (at values.old k +ℤ pos (2 ^ (depth - 1)))) (λ k. get_or pixels.old k 0) }
    ensures values_after { values.new ≡ zeroed n values.old }
{
    let half = pictures::middle(depth) as i32;
    for i in 0..n {
        pixels[i] = pixel_of(values[i], half);
        values[i] = 0;
    }
}

// What a call back does that is allowed: refusal 11, the pixels of a picture, and the work area cleared.
fn take_back(
    form: CopyForm,
    plane: &[i32],
    pixels: &mut [u16],
    work: &mut [i32],
    buffer: &mut [i32; TILE],
) -> Result<(), Refusal>
    requires { CallRoom form.depth form.levels form.w form.h (length pixels.old) (length plane.now) (length work.old) }
    ensures answer { told result ≡ asks (has_picture (order_of form.first) form.depth form.levels form.w form.h plane.now) 11 passed }
    ensures taken_back { TakenBack (order_of form.first) form.depth form.levels form.w form.h plane.now pixels.old pixels.new (has_picture (order_of form.first) form.depth form.levels form.w form.h plane.now) }
    ensures work_after { work.new ≡ zeroed (form.w * form.h) work.old }
{
    let n = form.w * form.h;
    if !found(plane, &mut work[..n], buffer, form) {
        slices::clear(work, n);
        return Err(Refusal::NoPicture);
    }
    write_pixels(work, pixels, n, form.depth);
    Ok(())
}

// The picture of a plane whose levels were worked in an order: refusals 4, 8, 9 and 11. The first w * h elements of the work area become
// 0, with 11 too. The line buffer is made before anything is judged (docs/DECISIONS.md, the compiler's back end).
fn back_in(
    form: CopyForm,
    plane: &[i32],
    pixels: &mut [u16],
    work: &mut [i32],
) -> Result<(), Refusal>
    ensures answer { told result ≡ back_answer (order_of form.first) form.depth form.levels form.w form.h plane.now pixels.old work.old }
    ensures pixels { pixels.new ≡ back_pixels (order_of form.first) form.depth form.levels form.w form.h plane.now pixels.old work.old }
    ensures work { work.new ≡ back_work form.depth form.levels form.w form.h plane.now pixels.old work.old }
{
    let mut buffer = [0i32; TILE];
    reversible::allowed(
        form.depth,
        form.levels,
        form.w,
        form.h,
        pixels.len(),
        plane.len(),
        work.len(),
    )?;
    take_back(form, plane, pixels, work, &mut buffer)
}

// The picture of a copy that `forward` made.
pub fn back(
    depth: u8,
    levels: u8,
    plane: &[i32],
    w: usize,
    h: usize,
    pixels: &mut [u16],
    work: &mut [i32],
) -> Result<(), Refusal>
    ensures answer { told result ≡ back_answer columns_first depth levels w h plane.now pixels.old work.old }
    ensures pixels { pixels.new ≡ back_pixels columns_first depth levels w h plane.now pixels.old work.old }
    ensures work { work.new ≡ back_work depth levels w h plane.now pixels.old work.old }
{
    let form = CopyForm {
        depth,
        levels,
        w,
        h,
        first: CopyOrder::ColumnsFirst,
    };
    back_in(form, plane, pixels, work)
}

// The picture of a copy made earlier, whose levels were worked rows first.
pub fn back_rows_first(
    depth: u8,
    levels: u8,
    plane: &[i32],
    w: usize,
    h: usize,
    pixels: &mut [u16],
    work: &mut [i32],
) -> Result<(), Refusal>
    ensures answer { told result ≡ back_answer rows_first depth levels w h plane.now pixels.old work.old }
    ensures pixels { pixels.new ≡ back_pixels rows_first depth levels w h plane.now pixels.old work.old }
    ensures work { work.new ≡ back_work depth levels w h plane.now pixels.old work.old }
{
    let form = CopyForm {
        depth,
        levels,
        w,
        h,
        first: CopyOrder::RowsFirst,
    };
    back_in(form, plane, pixels, work)
}
