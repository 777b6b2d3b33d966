// A line buffer worked, and lines in and out of it. A line buffer is n lines of s values, one after the other: the lines of the lows first, then
// those of the highs.
ghost use Rattle.std.specs.Prelude.{◌≡◌, ℕ, ◌+◌, ◌<◌, ◌≤◌, length};
ghost use Rattle.lines.specs.Lines.{interleaved};
ghost use Rattle.lifting.specs.Steps.{applied, Safe, scaled_by, FactorSafe};
ghost use Rattle.slices.specs.Patch.{at, patch};
ghost use Rattle.slices.specs.PatchLines.{line_at, patch_lines, Lying};
ghost use Rattle.lifting.specs.Passes.{evens, odds};
ghost use Rattle.lifting.specs.Buffers.{Buffer, column, high_column, highs_done, lows_done, AtHighs, AtLows, lifted_buffer, inverse_lifted_buffer, LiftSafe, InverseLiftSafe, BufferHolds};
ghost use Rattle.slices.specs.Parts.{Part, column_of};
ghost use Rattle.lifting.specs.Strips.{StripRoom};

use crate::runs::{end_run, lift_run, scale_here, scale_run};
use crate::{Factor, Pair, Step};

// A step at each high of each column of a line buffer of n lines of s values.
fn on_highs(buffer: &mut [i32], s: usize, n: usize, step: Step)
    requires buffer { Buffer buffer.old s n }
    requires at_highs { AtHighs (Safe step) s n (at buffer.old) }
    ensures { at buffer.new ≡ highs_done (applied step) s n (at buffer.old) }
{
    let low = (n + 1) / 2;
    let top = low * s;
    let most = (low - 1) * s;
    lift_run(buffer, top, 0, s, most, step);
    // the last high of an even length: source document 003, equation 4; 004, equation 5
    if low - 1 < n / 2 {
        end_run(buffer, top + most, most, s, step);
    }
}

// A step at each low.
fn on_lows(buffer: &mut [i32], s: usize, n: usize, step: Step)
    requires buffer { Buffer buffer.old s n }
    requires at_lows { AtLows (Safe step) s n (at buffer.old) }
    ensures { at buffer.new ≡ lows_done (applied step) s n (at buffer.old) }
{
    let low = (n + 1) / 2;
    let high = n / 2;
    let top = low * s;
    let most = (high - 1) * s;
    // the first low: source document 003, equation 3; 004, equation 4
    end_run(buffer, 0, top, s, step);
    lift_run(buffer, s, top, top + s, most, step);
    // the last low of an odd length: source document 004, equation 6
    if high < low {
        end_run(buffer, high * s, top + most, s, step);
    }
}

// A pair: the highs, then the lows.
pub fn lift(buffer: &mut [i32], s: usize, n: usize, pair: &Pair)
    requires buffer { Buffer buffer.old s n }
    requires lift_safe { LiftSafe pair.now s n (at buffer.old) }
    ensures { at buffer.new ≡ lifted_buffer pair.now s n (at buffer.old) }
{
    on_highs(buffer, s, n, pair.highs);
    on_lows(buffer, s, n, pair.lows);
}

// A pair inverted: the lows, then the highs.
pub fn inverse_lift(buffer: &mut [i32], s: usize, n: usize, pair: &Pair)
    requires buffer { Buffer buffer.old s n }
    requires inverse_lift_safe { InverseLiftSafe pair.now s n (at buffer.old) }
    ensures { at buffer.new ≡ inverse_lifted_buffer pair.now s n (at buffer.old) }
{
    on_lows(buffer, s, n, pair.lows);
    on_highs(buffer, s, n, pair.highs);
}

// ---- lines in and out

// (Two sides with steps of their own, and so eight numbers.) n lines of m values: line i of src starts at from + i * step, line i of dst at to + i * leap. Lines without a gap are one run.
pub fn copy_lines(
    src: &[i32],
    from: usize,
    step: usize,
    dst: &mut [i32],
    to: usize,
    leap: usize,
    n: usize,
    m: usize,
)
    requires { Lying src.now from step n m × Lying dst.old to leap n m }
    ensures { at dst.new ≡ patch_lines (line_at to leap) m n (λ i j. at src.now (line_at from step i + j)) (at dst.old) }
{
    if step == m && leap == m {
        slices::copy_run(src, from, dst, to, n * m);
        return;
    }
    // i numbers a line on both sides, whose lines lie apart by other steps
    for i in 0..n {
        slices::copy_run(src, from + i * step, dst, to + i * leap, m);
    }
}

// The n lines of m values of src from place `from` on, scaled, go to dst: line i to to + i * leap.
pub fn scale_lines(
    src: &[i32],
    from: usize,
    dst: &mut [i32],
    to: usize,
    leap: usize,
    n: usize,
    m: usize,
    g: Factor,
)
    requires lying { Lying src.now from m n m × Lying dst.old to leap n m }
    requires by_index { (i j : ℕ) → i < n → j < m → FactorSafe g (at src.now (line_at from m i + j)) }
    ensures { at dst.new ≡ patch_lines (line_at to leap) m n (λ i j. scaled_by g (at src.now (line_at from m i + j))) (at dst.old) }
{
    if leap == m {
        scale_run(src, from, dst, to, n * m, g);
        return;
    }
    // i numbers a line on both sides, whose lines lie apart by other steps
    for i in 0..n {
        scale_run(src, from + i * m, dst, to + i * leap, m, g);
    }
}

// The values of a part, scaled in place. Lines without a gap are one run.
pub fn scale_part(plane: &mut [i32], part: slices::Part, g: Factor)
    requires part { Part plane.old part.stride part.from part.w part.h }
    requires by_index { (r j : ℕ) → r < part.h → j < part.w → FactorSafe g (at plane.old (line_at part.from part.stride r + j)) }
    ensures { at plane.new ≡ patch_lines (line_at part.from part.stride) part.w part.h (λ r j. scaled_by g (at plane.old (line_at part.from part.stride r + j))) (at plane.old) }
{
    if part.stride == part.w {
        scale_here(plane, part.from, part.h * part.w, g);
        return;
    }
    // r numbers a row: rows lie part.stride apart
    for r in 0..part.h {
        scale_here(plane, part.from + r * part.stride, part.w, g);
    }
}

// Two lines of m values, from places a and b of src to places c and d of dst.
fn copy_pair(src: &[i32], a: usize, b: usize, dst: &mut [i32], c: usize, d: usize, m: usize)
    requires { (a + m ≤ length src.now) × (b + m ≤ length src.now) × (c + m ≤ length dst.old) × (d + m ≤ length dst.old) }
    ensures { at dst.new ≡ patch d m (λ j. at src.now (b + j)) (patch c m (λ j. at src.now (a + j)) (at dst.old)) }
{
    slices::copy_run(src, a, dst, c, m);
    slices::copy_run(src, b, dst, d, m);
}

// The strip's lines go to the line buffer, the even ones first.
fn split_lines(plane: &[i32], buffer: &mut [i32], part: slices::Part)
    requires { StripRoom plane.now buffer.old part.stride part.from part.w part.h }
    ensures { BufferHolds part.w part.h (λ j. evens (column_of part.stride part.from (at plane.now) j)) (λ j. odds (column_of part.stride part.from (at plane.now) j)) (at buffer.new) }
{
    let low = (part.h + 1) / 2;
    let high = part.h / 2;
    let top = low * part.w;
    // i numbers two lines of the plane and one of either half of the buffer
    for i in 0..high {
        let a = part.from + 2 * i * part.stride;
        let c = i * part.w;
        copy_pair(plane, a, a + part.stride, buffer, c, top + c, part.w);
    }
    if high < low {
        slices::copy_run(
            plane,
            part.from + 2 * high * part.stride,
            buffer,
            high * part.w,
            part.w,
        );
    }
}

// The line buffer's lines go to the strip's, those of the lows to the even ones.
fn merge_lines(buffer: &[i32], plane: &mut [i32], part: slices::Part)
    requires { StripRoom plane.old buffer.now part.stride part.from part.w part.h }
    ensures { at plane.new ≡ patch_lines (line_at part.from part.stride) part.w part.h (λ i j. interleaved (column part.w (at buffer.now) j) (high_column part.w part.h (at buffer.now) j) i) (at plane.old) }
{
    let low = (part.h + 1) / 2;
    let high = part.h / 2;
    let top = low * part.w;
    // i numbers two lines of the plane and one of either half of the buffer
    for i in 0..high {
        let a = part.from + 2 * i * part.stride;
        let c = i * part.w;
        copy_pair(buffer, c, top + c, plane, a, a + part.stride, part.w);
    }
    if high < low {
        slices::copy_run(
            buffer,
            high * part.w,
            plane,
            part.from + 2 * high * part.stride,
            part.w,
        );
    }
}

// The same two, with a loop of its own for a row.
#[inline(always)]
pub fn split(plane: &[i32], buffer: &mut [i32], part: slices::Part)
    requires { StripRoom plane.now buffer.old part.stride part.from part.w part.h }
    ensures { BufferHolds part.w part.h (λ j. evens (column_of part.stride part.from (at plane.now) j)) (λ j. odds (column_of part.stride part.from (at plane.now) j)) (at buffer.new) }
{
    if part.stride == 1 {
        split_lines(
            plane,
            buffer,
            slices::Part {
                stride: 1,
                w: 1,
                ..part
            },
        );
    } else {
        split_lines(plane, buffer, part);
    }
}

pub fn merge(buffer: &[i32], plane: &mut [i32], part: slices::Part)
    requires { StripRoom plane.old buffer.now part.stride part.from part.w part.h }
    ensures { at plane.new ≡ patch_lines (line_at part.from part.stride) part.w part.h (λ i j. interleaved (column part.w (at buffer.now) j) (high_column part.w part.h (at buffer.now) j) i) (at plane.old) }
{
    if part.stride == 1 {
        merge_lines(
            buffer,
            plane,
            slices::Part {
                stride: 1,
                w: 1,
                ..part
            },
        );
    } else {
        merge_lines(buffer, plane, part);
    }
}
