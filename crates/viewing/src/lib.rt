// Viewing a stored strip: the picture of a 9/7 plane (document 02, job 1).
#![tactic(auto)]

ghost use Rattle.std.specs.Prelude.{◌≡◌, ℕ, ◌+◌, ◌*◌, ◌-◌, ◌<◌, ◌≤◌, ◌^◌, pos, nat_abs, length, get_or};
ghost use Rattle.numbers.specs.Lists.{over};
ghost use Rattle.refusals.specs.Told.{told};
ghost use Rattle.lines.specs.Planes.{row_by_row};
ghost use Rattle.slices.specs.Patch.{at, patch};
ghost use Rattle.slices.specs.PatchLines.{line_at};
ghost use Rattle.width_table.specs.Table.{max_depth, max_levels, fraction_bits};
ghost use Rattle.width_table.specs.Nodes.{G1, LowColumns};
ghost use Rattle.width_table.specs.Numbered.{node_of, pass_of, IsNode, IsPass};
ghost use Rattle.precision.specs.Verdict.{IsLevel};
ghost use Rattle.pictures.specs.Pictures.{max_side, plane_of};
ghost use Rattle.slices.specs.Fronts.{zeroed};
ghost use Rattle.pictures.specs.RangeChecks.{Tells};
ghost use Rattle.inverse_lifting.specs.Fixed.{node_bits, limit};
ghost use Rattle.viewing.specs.View.{entering_bits, view_picture, grey, pixel};
ghost use Rattle.viewing.specs.Calls.{coefficients_right, view_answer_of, view_answer, view_pixels, view_work};
ghost use Rattle.viewing.specs.WidthLaws.{PartFits, LookReady, DetailsFit, Lookable};
ghost use Rattle.viewing.specs.LevelSteps.{columned, level_inverse};
ghost use Rattle.viewing.specs.RowSteps.{RowReady, row_shown, RowsReady, shown_rows, cleared_rows};
ghost use Rattle.viewing.specs.CallSteps.{LevelReady, ViewReady, LevelsLeft};

use inverse_lifting::{ColumnsAt, ColumnsOf};
use refusals::Refusal;
use slices::Part;
use width_table::WidthTable;

// Elements of what is held of a strip of columns: five for each of 1024 columns.
const STATE: usize = 5 * 1024;

// Elements of the line that a row is inverted into.
const LINE: usize = pictures::MAX_SIDE + 6;

// The fractional bits of a value.
const VALUE_BITS: u8 = inverse_lifting::NODE_BITS as u8;

// The part of a plane that holds a subband, and the pass and the node that give its width.
#[derive(Clone, Copy)]
struct Subband {
    pass: u8,
    node: u8,
    part: Part,
}

// Whether the coefficients of a subband of a level are in the width of its node.
fn part_fits(table: WidthTable, level: u8, plane: &[i32], band: Subband) -> bool
    requires level { IsLevel table level × IsPass band.pass × IsNode band.node }
    requires by_index { (i : ℕ) → i < band.part.h → line_at band.part.from band.part.stride i + band.part.w ≤ length plane.now }
    ensures { Tells (PartFits table level (pass_of band.pass) (node_of band.node) (at plane.now) band.part.from band.part.stride band.part.w band.part.h) result }
{
    let bits = table.integer_bits(level, band.pass, band.node)
        + table.fraction_bits(level, band.pass, band.node);
    pictures::part_of_bits(plane, band.part, bits - 1)
}

// Whether HL, LH and HH of a level are in the widths of their nodes.
fn details_fit(
    table: WidthTable,
    level: u8,
    plane: &[i32],
    stride: usize,
    w: usize,
    h: usize,
) -> bool
    requires { LookReady table level plane.now stride w h }
    ensures { Tells (DetailsFit table level (at plane.now) stride w h) result }
{
    let right = (w + 1) / 2;
    let below = (h + 1) / 2;
    let hl = Subband {
        pass: WidthTable::HIGH_COLUMNS,
        node: WidthTable::G1,
        part: Part {
            stride,
            from: right,
            w: w / 2,
            h: below,
        },
    };
    let lh = Subband {
        pass: WidthTable::LOW_COLUMNS,
        node: WidthTable::G2,
        part: Part {
            stride,
            from: below * stride,
            w: right,
            h: h / 2,
        },
    };
    let hh = Subband {
        pass: WidthTable::HIGH_COLUMNS,
        node: WidthTable::G2,
        part: Part {
            stride,
            from: below * stride + right,
            w: w / 2,
            h: h / 2,
        },
    };
    part_fits(table, level, plane, hl)
        && part_fits(table, level, plane, lh)
        && part_fits(table, level, plane, hh)
}

// Refusal 12: looks at each of the first w * h coefficients.
fn coefficients_right(table: WidthTable, plane: &[i32], w: usize, h: usize) -> Result<(), Refusal>
    requires { Lookable table w h (length plane.now) }
    ensures { told result ≡ coefficients_right table w h plane.now }
{
    let mut across = w;
    let mut down = h;
    // k numbers the level, and the sides that it has go with it
    for k in 0..table.levels {
        if !details_fit(table, k + 1, plane, w, across, down) {
            return Err(Refusal::OutsideWidth);
        }
        across = (across + 1) / 2;
        down = (down + 1) / 2;
    }
    let ll = Subband {
        pass: WidthTable::LOW_COLUMNS,
        node: WidthTable::G1,
        part: Part {
            stride: w,
            from: 0,
            w: across,
            h: down,
        },
    };
    if !part_fits(table, table.levels, plane, ll) {
        return Err(Refusal::OutsideWidth);
    }
    Ok(())
}

// A value in greys, rounded to the nearest, halves up: half a grey is added, what is below a grey cut off, and the middle added.
fn greys(v: i64, depth: u8) -> i64
    requires { (1 ≤ depth) × (depth ≤ max_depth) × (nat_abs v ≤ limit) }
    ensures { result ≡ grey depth v }
{
    let cut = VALUE_BITS - depth;
    let half = fixed_stages::signed_power(cut - 1);
    let whole = fixed_stages::floor_shifted(v + half, cut);
    whole + fixed_stages::signed_power(depth - 1)
}

// A value as a pixel, limited to the depth.
fn shown(v: i64, depth: u8) -> u16
    requires { (1 ≤ depth) × (depth ≤ max_depth) × (nat_abs v ≤ limit) }
    ensures { result ≡ pixel depth v }
{
    let most = fixed_stages::signed_power(depth) - 1;
    greys(v, depth).clamp(0, most) as u16
}

// n values from a place on go to the pixels from another on.
fn show_row(values: &[i64], first: usize, pixels: &mut [u16], from: usize, n: usize, depth: u8)
    requires le_depth { (1 ≤ depth) × (depth ≤ max_depth) × (first + n ≤ length values.now) × (from + n ≤ length pixels.old) }
    requires by_index { (j : ℕ) → j < n → nat_abs (at values.now (first + j)) ≤ limit }
    ensures { (λ k. get_or pixels.new k 0) ≡ patch from n (λ j. pixel depth (at values.now (first + j))) (λ k. get_or pixels.old k 0) }
{
    // of what a zip of lent pixels leaves nothing is known
    for (i, p) in pixels[from..from + n].iter_mut().enumerate() {
        *p = shown(values[first + i], depth);
    }
}

// The fractional bits of a stored coefficient.
fn stored_bits(table: WidthTable, level: u8, pass: u8, node: u8) -> u32
    requires { IsLevel table level × IsPass pass × IsNode node }
    ensures { (result ≡ fraction_bits table level (pass_of pass) (node_of node)) × (result ≤ node_bits) }
{
    table.fraction_bits(level, pass, node) as u32
}

// The fractional bits of the low-low part that a level takes: stored at the last level, else left by the next coarser one.
fn low_low_bits(table: WidthTable, level: u8) -> u32
    requires { IsLevel table level }
    ensures { (result ≡ entering_bits table level LowColumns G1) × (result ≤ node_bits) }
{
    if level == table.levels {
        stored_bits(table, level, WidthTable::LOW_COLUMNS, WidthTable::G1)
    } else {
        inverse_lifting::NODE_BITS
    }
}

// From one row to the next of what level k + 1 leaves, where the plane's rows are w long: w doubled k times.
fn spread(w: usize, k: u8) -> usize
    requires { (w ≤ max_side) × (k ≤ max_levels) }
    ensures { result ≡ w * 2 ^ k }
{
    w << k
}

// Where a level is inverted: w columns and h rows, from a plane whose rows are `width` long to rows of the work area that are `stride`
// apart. What the next coarser level left stands there in every second row.
#[derive(Clone, Copy)]
struct Site {
    width: usize,
    stride: usize,
    w: usize,
    h: usize,
}

// The columns of a level inverted.
fn columns_back(
    table: WidthTable,
    level: u8,
    plane: &[i32],
    work: &mut [i64],
    state: &mut [i64],
    line: &mut [i64],
    site: Site,
)
    requires { LevelReady table level plane.now work.old (length state.old) (length line.old) site.width site.stride site.w site.h }
    ensures { at work.new ≡ columned table level site.width site.stride site.w site.h (at plane.now) (at work.old) }
{
    let low = (site.w + 1) / 2;
    let low_site = ColumnsAt {
        width: site.width,
        stride: site.stride,
        from: 0,
        stored: level == table.levels,
    };
    let lows = ColumnsOf {
        columns: low,
        lines: site.h,
        lowbits: low_low_bits(table, level),
        highbits: stored_bits(table, level, WidthTable::LOW_COLUMNS, WidthTable::G2),
    };
    inverse_lifting::columns(plane, work, state, line, low_site, lows);
    let high_site = ColumnsAt {
        width: site.width,
        stride: site.stride,
        from: low,
        stored: true,
    };
    let highs = ColumnsOf {
        columns: site.w / 2,
        lines: site.h,
        lowbits: stored_bits(table, level, WidthTable::HIGH_COLUMNS, WidthTable::G1),
        highbits: stored_bits(table, level, WidthTable::HIGH_COLUMNS, WidthTable::G2),
    };
    inverse_lifting::columns(plane, work, state, line, high_site, highs);
}

// One level inverted: its columns, then its rows.
fn level_back(
    table: WidthTable,
    level: u8,
    plane: &[i32],
    work: &mut [i64],
    state: &mut [i64],
    line: &mut [i64],
    site: Site,
)
    requires { LevelReady table level plane.now work.old (length state.old) (length line.old) site.width site.stride site.w site.h }
    ensures { at work.new ≡ level_inverse table level site.width site.stride site.w site.h (at plane.now) (at work.old) }
{
    columns_back(table, level, plane, work, state, line, site);
    inverse_lifting::rows(work, line, site.stride, site.w, site.h);
}

// All levels but the first inverted, the last one first.
fn levels_back(
    table: WidthTable,
    plane: &[i32],
    work: &mut [i64],
    state: &mut [i64],
    line: &mut [i64],
    w: usize,
    h: usize,
)
    requires { ViewReady table plane.now (length work.old) (length state.old) (length line.old) w h }
    ensures { LevelsLeft table w h 1 (at plane.now) (at work.old) (at work.new) }
{
    for k in (1..table.levels).rev() {
        let site = Site {
            width: w,
            stride: spread(w, k),
            w: pictures::side_after(w, k),
            h: pictures::side_after(h, k),
        };
        level_back(table, k + 1, plane, work, state, line, site);
    }
}

// A row of the first level inverted and shown, and its place in the work area cleared.
fn finish_row(
    work: &mut [i64],
    line: &mut [i64],
    pixels: &mut [u16],
    from: usize,
    w: usize,
    depth: u8,
)
    requires { RowReady depth work.old (length pixels.old) (length line.old) from w }
    ensures pixels { (λ k. get_or pixels.new k 0) ≡ patch from w (row_shown depth w (λ c. at work.old (from + c))) (λ k. get_or pixels.old k 0) }
    ensures work { at work.new ≡ patch from w (λ j. pos 0) (at work.old) }
{
    inverse_lifting::row(work, line, from, w);
    show_row(line, inverse_lifting::ROW_START, pixels, from, w, depth);
    work[from..from + w].fill(0);
}

// The rows of the first level, one after the other: each is still in the cache when it is shown and cleared.
fn finish_rows(
    work: &mut [i64],
    line: &mut [i64],
    pixels: &mut [u16],
    w: usize,
    h: usize,
    depth: u8,
)
    requires { RowsReady depth work.old (length pixels.old) (length line.old) w h }
    ensures pixels { (λ k. get_or pixels.new k 0) ≡ shown_rows depth w h (at work.old) (λ k. get_or pixels.old k 0) }
    ensures work { at work.new ≡ cleared_rows w h (at work.old) }
{
    // r names a place in the work area and one in the pixels
    for r in 0..h {
        finish_row(work, line, pixels, r * w, w, depth);
    }
}

// What a call does that is not refused. What is lent goes one by one (see `Lent` in rolling_lines).
fn show(
    table: WidthTable,
    plane: &[i32],
    w: usize,
    h: usize,
    pixels: &mut [u16],
    work: &mut [i64],
    state: &mut [i64],
    line: &mut [i64],
)
    requires { ViewReady table plane.now (length work.old) (length state.old) (length line.old) w h × (w * h ≤ length pixels.old) }
    ensures pixels { pixels.new ≡ over (row_by_row w h (view_picture table w h (plane_of w plane.now))) pixels.old }
    ensures work { work.new ≡ zeroed (w * h) work.old }
{
    levels_back(table, plane, work, state, line, w, h);
    let site = Site {
        width: w,
        stride: w,
        w,
        h,
    };
    columns_back(table, 1, plane, work, state, line, site);
    finish_rows(work, line, pixels, w, h, table.depth);
}

// The answer of the call, for pixels and a work area of so many elements.
fn answer(
    table: WidthTable,
    plane: &[i32],
    w: usize,
    h: usize,
    first: usize,
    third: usize,
) -> Result<(), Refusal>
    ensures { told result ≡ view_answer_of table w h plane.now first third }
{
    view_precision::judge(table)?;
    pictures::room_right(w, h, first, plane.len(), third)?;
    coefficients_right(table, plane, w, h)
}

// The picture of a 9/7 plane: refusals 4, 6, 7, 13, 8, 9 and 12. Success leaves the picture in the pixels, row by row, and zeros in the
// work area; a refusal leaves both as they were. The two arrays are made before anything is judged (docs/DECISIONS.md, the compiler's back end).
pub fn view(
    table: WidthTable,
    plane: &[i32],
    w: usize,
    h: usize,
    pixels: &mut [u16],
    work: &mut [i64],
) -> Result<(), Refusal>
    ensures answer { told result ≡ view_answer table w h plane.now pixels.old work.old }
    ensures pixels { pixels.new ≡ view_pixels table w h plane.now pixels.old work.old }
    ensures work { work.new ≡ view_work table w h plane.now pixels.old work.old }
{
    let mut state = [0i64; STATE];
    let mut line = [0i64; LINE];
    answer(table, plane, w, h, pixels.len(), work.len())?;
    show(table, plane, w, h, pixels, work, &mut state, &mut line);
    Ok(())
}
