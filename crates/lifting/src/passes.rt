// Passes over the rows and the columns of a plane.
ghost use Rattle.std.specs.Prelude.{◌≡◌, ℕ, ◌+◌, ◌*◌, ◌<◌, ◌≤◌, ◌^◌, length, pos, ◌-ℤ◌};
ghost use Rattle.slices.specs.Patch.{at, Free, patch};
ghost use Rattle.slices.specs.PatchLines.{line_at, patch_lines};
ghost use Rattle.lifting.specs.Passes.{evens, odds, Liftable};
ghost use Rattle.lifting.specs.Buffers.{BufferHolds};
ghost use Rattle.lifting.specs.Kernels.{worked, Forward, SafeKernel, rows_worked, columns_worked};
ghost use Rattle.slices.specs.Parts.{Part, row_of, column_of};
ghost use Rattle.slices.specs.Pixels.{pixel_line};

use crate::buffers::lift;
use crate::runs::scale_here;
use crate::strips::{finish, strip};
use crate::{Kernel, TwoPairs};

// A pixel less the middle of its range.
pub fn centred(pixel: u16, middle: u16) -> i32
    ensures { result ≡ pos pixel -ℤ pos middle }
{
    (pixel as i32) - (middle as i32)
}

// One pixel goes to the line buffer.
fn put_pixel(pixels: &[u16], from: usize, buffer: &mut [i32], to: usize, middle: u16)
    requires { (from < length pixels.now) × (to < length buffer.old) }
    ensures { at buffer.new ≡ patch to 1 (pixel_line pixels.now middle from) (at buffer.old) }
{
    buffer[to] = centred(pixels[from], middle);
}

// n pixels go to the line buffer, the even ones first.
fn split_pixels(pixels: &[u16], from: usize, buffer: &mut [i32], n: usize, middle: u16)
    requires { (n < 2 ^ 31) × (from + n ≤ length pixels.now) × (n ≤ length buffer.old) }
    ensures { BufferHolds 1 n (λ j. evens (pixel_line pixels.now middle from)) (λ j. odds (pixel_line pixels.now middle from)) (at buffer.new) }
{
    let low = (n + 1) / 2;
    let high = n / 2;
    // i numbers two pixels and a place of either half of the buffer
    for i in 0..high {
        let a = from + 2 * i;
        put_pixel(pixels, a, buffer, i, middle);
        put_pixel(pixels, a + 1, buffer, low + i, middle);
    }
    if high < low {
        put_pixel(pixels, from + 2 * high, buffer, high, middle);
    }
}

// The first n pixels, each less the middle of its range, go to the plane.
pub fn put_pixels(pixels: &[u16], middle: u16, plane: &mut [i32], n: usize)
    requires { (n ≤ length pixels.now) × (n ≤ length plane.old) }
    ensures { at plane.new ≡ patch 0 n (pixel_line pixels.now middle 0) (at plane.old) }
{
    // of what a zip of a lent part leaves a proof knows nothing
    for (j, x) in plane[..n].iter_mut().enumerate() {
        *x = centred(pixels[j], middle);
    }
}

// A line of w pixels, each less the middle of its range, split into a row and worked there by two pairs and a scaling.
fn pixel_row(pixels: &[u16], middle: u16, row: &mut [i32], w: usize, by: TwoPairs)
    requires w_bound { (w < 2 ^ 31) × Liftable w × (w ≤ length pixels.now) × (w ≤ length row.old) }
    requires safe_kernel { SafeKernel (Kernel.Two by) w (pixel_line pixels.now middle 0) }
    ensures { (i : ℕ) → i < w → at row.new i ≡ worked (Kernel.Two by) w (pixel_line pixels.now middle 0) i }
{
    split_pixels(pixels, 0, row, w, middle);
    lift(row, 1, w, &by.first);
    lift(row, 1, w, &by.second);
    let half = (w + 1) / 2;
    scale_here(row, 0, half, by.low);
    scale_here(row, half, w / 2, by.high);
}

// The same in a plane, from place `from` on.
pub fn pixel_line(
    pixels: &[u16],
    middle: u16,
    plane: &mut [i32],
    from: usize,
    w: usize,
    by: TwoPairs,
)
    requires w_bound { (w < 2 ^ 31) × Liftable w × (w ≤ length pixels.now) × (from + w ≤ length plane.old) }
    requires safe_kernel { SafeKernel (Kernel.Two by) w (pixel_line pixels.now middle 0) }
    ensures { at plane.new ≡ patch from w (worked (Kernel.Two by) w (pixel_line pixels.now middle 0)) (at plane.old) }
{
    let row = &mut plane[from..from + w];
    pixel_row(pixels, middle, row, w, by);
}

// h rows of w pixels, each less the middle of its range, worked on their way into a plane as wide.
pub fn pixel_rows(
    pixels: &[u16],
    middle: u16,
    plane: &mut [i32],
    buffer: &mut [i32],
    w: usize,
    h: usize,
    kernel: Kernel,
)
    requires part { Part plane.old w 0 w h × Liftable w × (w ≤ length buffer.old) × Forward kernel × (w * h ≤ length pixels.now) }
    requires by_index { (r : ℕ) → r < h → SafeKernel kernel w (pixel_line pixels.now middle (r * w)) }
    ensures plane { at plane.new ≡ patch_lines (line_at 0 w) w h (λ r. worked kernel w (pixel_line pixels.now middle (r * w))) (at plane.old) }
    ensures buffer { Free buffer.old buffer.new }
{
    // r numbers a row of the pixels and one of the plane
    for r in 0..h {
        let from = r * w;
        split_pixels(pixels, from, buffer, w, middle);
        let row = slices::Part {
            stride: 1,
            from,
            w: 1,
            h: w,
        };
        finish(plane, buffer, row, &kernel);
    }
}

// The part's rows, worked in place through the line buffer.
pub fn rows(plane: &mut [i32], buffer: &mut [i32], part: slices::Part, kernel: Kernel)
    requires part { Part plane.old part.stride part.from part.w part.h × Liftable part.w × (part.w ≤ length buffer.old) }
    requires by_index { (r : ℕ) → r < part.h → SafeKernel kernel part.w (row_of part.stride part.from (at plane.old) r) }
    ensures plane { at plane.new ≡ rows_worked kernel part.stride part.from part.w part.h (at plane.old) }
    ensures buffer { Free buffer.old buffer.new }
{
    // r numbers a row: rows lie part.stride apart
    for r in 0..part.h {
        let row = slices::Part {
            stride: 1,
            from: part.from + r * part.stride,
            w: 1,
            h: part.w,
        };
        strip(plane, buffer, row, &kernel);
    }
}

// As many columns as a strip has at most.
const STRIP: usize = 64;

// The part's columns, worked in place through the line buffer, strip by strip.
pub fn columns(plane: &mut [i32], buffer: &mut [i32], part: slices::Part, kernel: Kernel)
    requires part { Part plane.old part.stride part.from part.w part.h × Liftable part.h × (part.h ≤ length buffer.old) }
    requires by_index { (j : ℕ) → j < part.w → SafeKernel kernel part.h (column_of part.stride part.from (at plane.old) j) }
    ensures plane { at plane.new ≡ columns_worked kernel part.stride part.from part.w part.h (at plane.old) }
    ensures buffer { Free buffer.old buffer.new }
{
    let most = STRIP.min(buffer.len() / part.h);
    let mut done = 0;
    // no plainer as a `step_by`: the strip's width needs the place all the same
    while done < part.w {
        let s = most.min(part.w - done);
        let next = slices::Part {
            from: part.from + done,
            w: s,
            ..part
        };
        strip(plane, buffer, next, &kernel);
        done += s;
    }
}
