// The reversible 5/3 transform of a picture, columns before rows (document 01: the lifting; document 02, job 4). Its way back is in
// reversible_back.
#![tactic(auto)]

ghost use Rattle.std.specs.Prelude.{◌≡◌, ℕ, ◌+◌, ◌*◌, ◌-◌, ◌<◌, ◌≤◌, ◌^◌, length};
ghost use Rattle.numbers.specs.Lists.{over};
ghost use Rattle.refusals.specs.Answers.{◌then◌};
ghost use Rattle.refusals.specs.Told.{told};
ghost use Rattle.lines.specs.Planes.{row_by_row};
ghost use Rattle.lines.specs.Lines.{lows, highs};
ghost use Rattle.slices.specs.Patch.{at, patch};
ghost use Rattle.lifting.specs.Steps.{applied, Safe};
ghost use Rattle.slices.specs.Pixels.{pixel_line, loaded};
ghost use Rattle.lifting.specs.Kernels.{columns_worked};
ghost use Rattle.pictures.specs.Pictures.{side_answer, length_answer, sample};
ghost use Rattle.slices.specs.Fronts.{zeroed};
ghost use Rattle.reversible.specs.Reversible.{columns_first, forward};
ghost use Rattle.reversible.specs.Calls.{limit_answer, forward_answer, forward_plane, forward_work};
ghost use Rattle.reversible.specs.Sizes.{forward_kernel};
ghost use Rattle.reversible.specs.LevelLaws.{rows_from, columns_from, level_forward};
ghost use Rattle.reversible.specs.Columns.{high_at, low_at, PixelRoom, HighsTo};
ghost use Rattle.reversible.specs.LoopLaws.{ForwardDone};
ghost use Rattle.reversible.specs.Preconditions.{RowsRoom, ColumnsRoom, LevelRoom, PictureRoom, FirstRoom, ForwardRoom};

use lifting::{Kernel, Pair, Step};
use refusals::Refusal;
use slices::Part;

// A pass of the 5/3.
const FORWARD_PASS: Kernel = Kernel::One(Pair {
    highs: Step::Predict,
    lows: Step::Update,
});

// Refusals 4, 8 and 9, for slices of so many elements.
pub fn allowed(
    depth: u8,
    levels: u8,
    w: usize,
    h: usize,
    first: usize,
    second: usize,
    third: usize,
) -> Result<(), Refusal>
    ensures { told result ≡ limit_answer depth levels then side_answer w h then length_answer (w * h) first then length_answer (w * h) second then length_answer (w * h) third }
{
    if !width_table::limits_right(depth, levels) {
        return Err(Refusal::OutsideLimits);
    }
    pictures::room_right(w, h, first, second, third)
}

// The rows of a part by a kernel. A single value is not worked: it is its row's only low value (document 02, job 6).
pub fn rows_from(
    plane: &mut [i32],
    buffer: &mut [i32],
    stride: usize,
    w: usize,
    h: usize,
    kernel: Kernel,
)
    requires { RowsRoom kernel plane.old (length buffer.old) stride w h }
    ensures { at plane.new ≡ rows_from kernel stride w h (at plane.old) }
{
    if w < 2 {
        return;
    }
    lifting::rows(
        plane,
        buffer,
        Part {
            stride,
            from: 0,
            w,
            h,
        },
        kernel,
    );
}

// The columns likewise.
pub fn columns_from(
    plane: &mut [i32],
    buffer: &mut [i32],
    stride: usize,
    w: usize,
    h: usize,
    kernel: Kernel,
)
    requires { ColumnsRoom kernel plane.old (length buffer.old) stride w h }
    ensures { at plane.new ≡ columns_from kernel stride w h (at plane.old) }
{
    if h < 2 {
        return;
    }
    lifting::columns(
        plane,
        buffer,
        Part {
            stride,
            from: 0,
            w,
            h,
        },
        kernel,
    );
}

// One level forward, of a part of w columns and h rows: the columns, then the rows.
fn level_forward(plane: &mut [i32], buffer: &mut [i32], stride: usize, w: usize, h: usize)
    requires { LevelRoom (2 ^ 21) plane.old (length buffer.old) stride w h }
    ensures { at plane.new ≡ level_forward stride w h (at plane.old) }
{
    columns_from(plane, buffer, stride, w, h, FORWARD_PASS);
    rows_from(plane, buffer, stride, w, h, FORWARD_PASS);
}

// A line of n highs: the pixels from place `own` on, with the lines of lows beside them from `before` and `after` on. Source document
// 004, equation 1.
fn high_line(
    pixels: &[u16],
    middle: u16,
    own: usize,
    before: usize,
    after: usize,
    plane: &mut [i32],
    to: usize,
    n: usize,
)
    requires n_in_bounds { (own + n ≤ length pixels.now) × (before + n ≤ length pixels.now) × (after + n ≤ length pixels.now) × (to + n ≤ length plane.old) }
    requires by_index { (j : ℕ) → j < n → Safe Step.Predict (pixel_line pixels.now middle own j) (pixel_line pixels.now middle before j) (pixel_line pixels.now middle after j) }
    ensures { at plane.new ≡ patch to n (λ j. applied Step.Predict (pixel_line pixels.now middle own j) (pixel_line pixels.now middle before j) (pixel_line pixels.now middle after j)) (at plane.old) }
{
    for (j, x) in plane[to..to + n].iter_mut().enumerate() {
        *x = lifting::predicted(
            lifting::centred(pixels[own + j], middle),
            lifting::centred(pixels[before + j], middle),
            lifting::centred(pixels[after + j], middle),
        );
    }
}

// The last line of highs of an even height, with the last line of lows beside it: equation 5.
fn high_end(
    pixels: &[u16],
    middle: u16,
    own: usize,
    beside: usize,
    plane: &mut [i32],
    to: usize,
    n: usize,
)
    requires n_in_bounds { (own + n ≤ length pixels.now) × (beside + n ≤ length pixels.now) × (to + n ≤ length plane.old) }
    requires by_index { (j : ℕ) → j < n → Safe Step.Predict (pixel_line pixels.now middle own j) (pixel_line pixels.now middle beside j) (pixel_line pixels.now middle beside j) }
    ensures { at plane.new ≡ patch to n (λ j. applied Step.Predict (pixel_line pixels.now middle own j) (pixel_line pixels.now middle beside j) (pixel_line pixels.now middle beside j)) (at plane.old) }
{
    for (j, x) in plane[to..to + n].iter_mut().enumerate() {
        *x = lifting::predicted_end(
            lifting::centred(pixels[own + j], middle),
            lifting::centred(pixels[beside + j], middle),
        );
    }
}

// A line of n lows: the pixels from place `own` on, with the lines of highs beside them in the plane. Equation 2. By an index: it
// reads and writes one plane.
fn low_line(
    pixels: &[u16],
    middle: u16,
    own: usize,
    plane: &mut [i32],
    before: usize,
    after: usize,
    to: usize,
    n: usize,
)
    requires n_in_bounds { (own + n ≤ length pixels.now) × (to + n ≤ before) × (to + n ≤ after) × (before + n ≤ length plane.old) × (after + n ≤ length plane.old) }
    requires by_index { (j : ℕ) → j < n → Safe Step.Update (pixel_line pixels.now middle own j) (at plane.old (before + j)) (at plane.old (after + j)) }
    ensures { at plane.new ≡ patch to n (λ j. applied Step.Update (pixel_line pixels.now middle own j) (at plane.old (before + j)) (at plane.old (after + j))) (at plane.old) }
{
    for j in 0..n {
        plane[to + j] = lifting::updated(
            lifting::centred(pixels[own + j], middle),
            plane[before + j],
            plane[after + j],
        );
    }
}

// The first line of lows, with the first line of highs beside it, and the last one of an odd height, with the last line of highs:
// equations 4 and 6. By an index: it reads and writes one plane.
fn low_end(
    pixels: &[u16],
    middle: u16,
    own: usize,
    plane: &mut [i32],
    beside: usize,
    to: usize,
    n: usize,
)
    requires n_in_bounds { (own + n ≤ length pixels.now) × (to + n ≤ beside) × (beside + n ≤ length plane.old) }
    requires by_index { (j : ℕ) → j < n → Safe Step.Update (pixel_line pixels.now middle own j) (at plane.old (beside + j)) (at plane.old (beside + j)) }
    ensures { at plane.new ≡ patch to n (λ j. applied Step.Update (pixel_line pixels.now middle own j) (at plane.old (beside + j)) (at plane.old (beside + j))) (at plane.old) }
{
    for j in 0..n {
        plane[to + j] = lifting::updated_end(
            lifting::centred(pixels[own + j], middle),
            plane[beside + j],
        );
    }
}

// Line i of the highs of a picture's columns.
fn high_at(pixels: &[u16], middle: u16, plane: &mut [i32], w: usize, h: usize, i: usize)
    requires { PixelRoom pixels.now middle (length plane.old) w h × (i < highs h) }
    ensures { at plane.new ≡ patch ((lows h + i) * w) w (λ c. high_at pixels.now middle w h c i) (at plane.old) }
{
    let low = (h + 1) / 2;
    let own = (2 * i + 1) * w;
    let to = (low + i) * w;
    if i + 1 < low {
        high_line(pixels, middle, own, own - w, own + w, plane, to, w);
    } else {
        high_end(pixels, middle, own, own - w, plane, to, w);
    }
}

// Line i of the lows, where the lines of highs beside it stand in the plane.
fn low_at(pixels: &[u16], middle: u16, plane: &mut [i32], w: usize, h: usize, i: usize)
    requires pixel_room { PixelRoom pixels.now middle (length plane.old) w h × (i < lows h) }
    requires highs_to { HighsTo (i + 1) pixels.now middle w h (at plane.old) }
    ensures { at plane.new ≡ patch (i * w) w (λ c. low_at pixels.now middle w h c i) (at plane.old) }
{
    let low = (h + 1) / 2;
    let own = 2 * i * w;
    let to = i * w;
    if i == 0 {
        low_end(pixels, middle, own, plane, low * w, to, w);
    } else {
        let before = (low + i - 1) * w;
        if i < h / 2 {
            low_line(pixels, middle, own, plane, before, before + w, to, w);
        } else {
            low_end(pixels, middle, own, plane, before, to, w);
        }
    }
}

// The columns of a picture, forward, line by line on their way into the plane: line i of the highs, then line i of the lows, so that every
// pixel and every coefficient is passed once and in order.
fn pixel_columns(pixels: &[u16], middle: u16, plane: &mut [i32], w: usize, h: usize)
    requires { PixelRoom pixels.now middle (length plane.old) w h }
    ensures { at plane.new ≡ columns_worked forward_kernel w 0 w h (loaded pixels.now middle w h (at plane.old)) }
{
    let high = h / 2;
    // i numbers a line of the highs and one of the lows
    for i in 0..high {
        high_at(pixels, middle, plane, w, h, i);
        low_at(pixels, middle, plane, w, h, i);
    }
    if high < (h + 1) / 2 {
        low_at(pixels, middle, plane, w, h, high);
    }
}

// The columns of the first level, on their way into the plane; a single line of pixels goes there as it is.
fn first_columns(pixels: &[u16], depth: u8, plane: &mut [i32], w: usize, h: usize)
    requires { PictureRoom depth pixels.now (length plane.old) w h }
    ensures { at plane.new ≡ columns_from forward_kernel w w h (loaded pixels.now (2 ^ (depth - 1)) w h (at plane.old)) }
{
    let middle = pictures::middle(depth);
    if h < 2 {
        lifting::put_pixels(pixels, middle, plane, w * h);
    } else {
        pixel_columns(pixels, middle, plane, w, h);
    }
}

// The first level forward, whose columns are those of the picture.
fn first_level(pixels: &[u16], depth: u8, plane: &mut [i32], buffer: &mut [i32], w: usize, h: usize)
    requires { FirstRoom depth pixels.now plane.old (length buffer.old) w h }
    ensures { at plane.new ≡ level_forward w w h (loaded pixels.now (2 ^ (depth - 1)) w h (at plane.old)) }
{
    first_columns(pixels, depth, plane, w, h);
    rows_from(plane, buffer, w, w, h, FORWARD_PASS);
}

// All levels forward, of a picture.
fn levels_forward(
    pixels: &[u16],
    depth: u8,
    plane: &mut [i32],
    buffer: &mut [i32],
    w: usize,
    h: usize,
    levels: u8,
)
    requires { ForwardRoom depth levels w h pixels.now (length plane.old) (length buffer.old) }
    ensures { ForwardDone w h levels (loaded pixels.now (2 ^ (depth - 1)) w h (at plane.old)) (at plane.new) }
{
    first_level(pixels, depth, plane, buffer, w, h);
    for k in 1..levels {
        level_forward(
            plane,
            buffer,
            w,
            pictures::side_after(w, k),
            pictures::side_after(h, k),
        );
    }
}

// What a forward call does that is not refused.
fn transform(
    depth: u8,
    levels: u8,
    pixels: &[u16],
    w: usize,
    h: usize,
    plane: &mut [i32],
    work: &mut [i32],
)
    requires { ForwardRoom depth levels w h pixels.now (length plane.old) (length work.old) }
    ensures plane { plane.new ≡ over (row_by_row w h (forward columns_first levels w h (sample pixels.now depth w))) plane.old }
    ensures work { work.new ≡ zeroed (w * h) work.old }
{
    let size = w * h;
    levels_forward(pixels, depth, plane, &mut work[..size], w, h, levels);
    slices::clear(work, size);
}

// The 5/3 transform of a picture, columns before rows: refusals 4, 8, 9 and 10; the plane, and a work area of which the first w * h elements become 0.
pub fn forward(
    depth: u8,
    levels: u8,
    pixels: &[u16],
    w: usize,
    h: usize,
    plane: &mut [i32],
    work: &mut [i32],
) -> Result<(), Refusal>
    ensures answer { told result ≡ forward_answer depth levels w h pixels.now plane.old work.old }
    ensures plane { plane.new ≡ forward_plane columns_first depth levels w h pixels.now plane.old work.old }
    ensures work { work.new ≡ forward_work depth levels w h pixels.now plane.old work.old }
{
    allowed(depth, levels, w, h, pixels.len(), plane.len(), work.len())?;
    pictures::pixels_right(depth, w, h, pixels)?;
    transform(depth, levels, pixels, w, h, plane, work);
    Ok(())
}
