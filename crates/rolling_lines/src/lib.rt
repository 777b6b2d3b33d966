// The lines of a rolling scan (document 02, jobs 5 and 6): what a line and an end do to the lines held and to the output. The order is
// that of specs/Schedule.
#![tactic(auto)]

ghost use Rattle.std.specs.Prelude.{◌≡◌, ℕ, ◌+◌, ◌*◌, ◌<◌, ◌≤◌, ◌⊎◌, length};
ghost use Rattle.slices.specs.Patch.{at};
ghost use Rattle.slices.specs.PatchLines.{line_at};
ghost use Rattle.width_table.specs.Numbered.{pass_of, IsPass};
ghost use Rattle.width_table.specs.Table.{max_fraction_bits};
ghost use Rattle.pictures.specs.RangeChecks.{Tells};
ghost use Rattle.precision.specs.Verdict.{IsLevel};
ghost use Rattle.rolling_lines.specs.SoundLaws.{ColumnsSound};
ghost use Rattle.rolling_lines.specs.Program.{AsColumns, FirstFits, SecondFits, GiveFits, first_done, second_done, two_given, first_kept, LaterFits, later_done, later_kept, HeldFits, LastFits, set_u2, last_given, Enters, one_ended, two_ended, even_ended, odd_ended, PastSame};
ghost use Rattle.rolling_lines.specs.LentLines.{held_lines, out_lines, held_in, FiveBits, Sound, KeptFrom};
ghost use Rattle.rolling_lines.specs.Memory.{line_in, set_line, moved, staged, SafeStage, scaled_line, SafeScaling, Lent, Apart};
ghost use Rattle.rolling_lines.specs.Rows.{LineRight, row_of};
ghost use Rattle.rolling_lines.specs.Worked.{HeldWorked, LineWorked, Later, LowReady, EndWorked};
ghost use Rattle.rolling_lines.specs.Schedule.{next, any_taken, line_gives, end_gives};
ghost use Rattle.pictures.specs.Pictures.{Admitted};

use lifting::{Factor, Step, TwoPairs};
use slices::Part;
use width_table::WidthTable;

// How many lines a scan has taken, as far as it matters: from five on, whether the number is odd or even.
#[derive(Clone, Copy, PartialEq, Eq)]
pub enum Taken {
    Zero,
    One,
    Two,
    Three,
    Four,
    OddMany,
    EvenMany,
}

impl Taken {
    // One line more.
    pub fn next(self) -> Taken
        ensures { result ≡ next self }
    {
        match self {
            Taken::Zero => Taken::One,
            Taken::One => Taken::Two,
            Taken::Two => Taken::Three,
            Taken::Three => Taken::Four,
            Taken::Four | Taken::EvenMany => Taken::OddMany,
            Taken::OddMany => Taken::EvenMany,
        }
    }

    // Whether any line was taken.
    pub fn any(self) -> bool
        ensures { result ≡ any_taken self }
    {
        self != Taken::Zero
    }
}

// ---- lines in memory
// (`Lent` is said of the slice in each contract: a ghost field beside a `&mut` is little covered, and the laws speak of the slice.)

// Line `to` becomes line `from`.
fn move_line(held: &mut [i32], w: usize, to: usize, from: usize)
    requires { Lent held.old w × (to < held_lines) × (from < held_lines) }
    ensures { at held.new ≡ moved w to from (at held.old) }
{
    let f = from * w;
    held.copy_within(f..f + w, to * w);
}

// A stage on line `own`, with lines a and b beside it: `low` in the row-low columns, which stand first, `high` in the row-high ones.
fn stage_line(held: &mut [i32], w: usize, own: usize, a: usize, b: usize, low: Step, high: Step)
    requires lent { Lent held.old w × Apart own a × Apart own b }
    requires safe_stage { SafeStage low high w own a b (at held.old) }
    ensures { at held.new ≡ staged low high w own a b (at held.old) }
{
    let half = (w + 1) / 2;
    let t = own * w;
    let p = a * w;
    let q = b * w;
    lifting::lift_run(held, t, p, q, half, low);
    lifting::lift_run(held, t + half, p + half, q + half, w / 2, high);
}

// A line of what is held, scaled, becomes line `place` of the output.
fn scale_line(
    held: &[i32],
    w: usize,
    line: usize,
    out: &mut [i32],
    place: usize,
    low: Factor,
    high: Factor,
)
    requires lent { Lent held.now w × (line < held_lines) × (place < out_lines) × (out_lines * w ≤ length out.old) }
    requires safe_scaling { SafeScaling low high w (line_in w (at held.now) line) }
    ensures { at out.new ≡ set_line w place (scaled_line low high w (line_in w (at held.now) line)) (at out.old) }
{
    let half = (w + 1) / 2;
    let from = line * w;
    let to = place * w;
    lifting::scale_run(held, from, out, to, half, low);
    lifting::scale_run(held, from + half, out, to + half, w / 2, high);
}

// A line of one pixel, less the middle of its range and cut, becomes line `line`.
fn single_row(table: WidthTable, pixels: &[u16], held: &mut [i32], line: usize)
    requires { LineRight table pixels.now 1 × Lent held.old 1 × (line < held_lines) }
    ensures { at held.new ≡ set_line 1 line (row_of table pixels.now 1) (at held.old) }
{
    let middle = pictures::middle(table.depth);
    let single = fixed_stages::single_of(table, 1, WidthTable::ROWS);
    held[line] = lifting::centred(pixels[0], middle);
    lifting::scale_here(held, line, 1, single);
}

// A line of pixels, worked along its row, becomes line `line`.
fn row_to(table: WidthTable, pixels: &[u16], w: usize, held: &mut [i32], line: usize)
    requires { LineRight table pixels.now w × Lent held.old w × (line < held_lines) }
    ensures { at held.new ≡ set_line w line (row_of table pixels.now w) (at held.old) }
{
    if w < 2 {
        single_row(table, pixels, held, line);
        return;
    }
    let middle = pictures::middle(table.depth);
    let stages = fixed_stages::stages_of(table, 1, WidthTable::ROWS);
    lifting::pixel_line(pixels, middle, held, line * w, w, stages);
}

// ---- what is held

// Whether the values in n columns of so many lines, the first from place `from` on, are of five integer bits.
fn five_bits(held: &[i32], w: usize, from: usize, n: usize, lines: usize, bits: u8) -> bool
    requires { (bits ≤ max_fraction_bits) × ((i : ℕ) → i < lines → line_at from w i + n ≤ length held.now) }
    ensures { Tells ((i : ℕ) → i < lines → (j : ℕ) → j < n → FiveBits bits (at held.now (line_at from w i + j))) result }
{
    let part = Part {
        stride: w,
        from,
        w: n,
        h: lines,
    };
    pictures::part_of_bits(held, part, bits + 4)
}

// Whether what is held in the n columns from column `from` on, which go by a pass, is sound.
fn columns_sound(table: WidthTable, held: &[i32], w: usize, from: usize, n: usize, pass: u8) -> bool
    requires { IsLevel table 1 × IsPass pass × Lent held.now w × (from + n ≤ w) }
    ensures { Tells (ColumnsSound table (pass_of pass) w from n (at held.now)) result }
{
    let enters = table.input_bits(1, pass);
    let p1 = table.fraction_bits(1, pass, WidthTable::P1);
    let u1 = table.fraction_bits(1, pass, WidthTable::U1);
    let p2 = table.fraction_bits(1, pass, WidthTable::P2);
    five_bits(held, w, from, n, 2, enters)
        && five_bits(held, w, 2 * w + from, n, 1, p1)
        && five_bits(held, w, 3 * w + from, n, 1, u1)
        && five_bits(held, w, 4 * w + from, n, 1, p2)
}

// Makes sure that what is held is sound: memory that no scan left may hold anything, and becomes zeros.
fn make_sound(table: WidthTable, held: &mut [i32], w: usize)
    requires { IsLevel table 1 × Lent held.old w }
    ensures sound { Sound table w (held_in w held.new) }
    ensures kept { Sound table w (held_in w held.old) → held.new ≡ held.old }
    ensures past { KeptFrom (held_lines * w) held.old held.new }
{
    let half = (w + 1) / 2;
    if columns_sound(table, held, w, 0, half, WidthTable::LOW_COLUMNS)
        && columns_sound(table, held, w, half, w / 2, WidthTable::HIGH_COLUMNS)
    {
        return;
    }
    slices::clear(held, 5 * w);
}

// ---- the stages of the columns

// A table of one level, and its stages in row-low and in row-high columns. (`AsColumns` is no ghost field: when a step is safe is said by
// cases, and a ghost field takes a proposition alone.)
#[derive(Clone, Copy)]
struct Columns {
    table: WidthTable,
    low: TwoPairs,
    high: TwoPairs,
}

// The stages of the columns under a table.
fn columns_of(table: WidthTable) -> Columns
    requires { IsLevel table 1 }
    ensures { AsColumns result × (result.table ≡ table) }
{
    Columns {
        table,
        low: fixed_stages::stages_of(table, 1, WidthTable::LOW_COLUMNS),
        high: fixed_stages::stages_of(table, 1, WidthTable::HIGH_COLUMNS),
    }
}

// P1 of the high line, whose low line after it is in line 5, and U1 of the low line before it: its P1 before is in line 2, or, of the
// first line, is the new one in line 6.
fn first_stages(columns: Columns, held: &mut [i32], w: usize, before: usize)
    requires { Lent held.old w × AsColumns columns × FirstFits columns.table w before (at held.old) }
    ensures { at held.new ≡ first_done columns.table w before (at held.old) }
{
    let (low, high) = (columns.low.first, columns.high.first);
    move_line(held, w, 6, 1);
    stage_line(held, w, 6, 0, 5, low.highs, high.highs);
    stage_line(held, w, 0, before, 6, low.lows, high.lows);
}

// P2 and U2 of the lines before those: the U1 after is in line `after`, the P2 before in line 4 or, of the first line, the new one in
// line 2.
fn second_stages(columns: Columns, held: &mut [i32], w: usize, after: usize, before: usize)
    requires { Lent held.old w × AsColumns columns × SecondFits columns.table w after before (at held.old) }
    ensures { at held.new ≡ second_done columns.table w after before (at held.old) }
{
    let (low, high) = (columns.low.second, columns.high.second);
    stage_line(held, w, 2, 3, after, low.highs, high.highs);
    stage_line(held, w, 3, before, 2, low.lows, high.lows);
}

// A low line and a high line go out, to lines `place` and `place` + 1.
fn give_two(columns: Columns, held: &[i32], out: &mut [i32], w: usize, place: usize)
    requires { Lent held.now w × AsColumns columns × GiveFits columns.table w (at held.now) × (place + 2 ≤ out_lines) × (out_lines * w ≤ length out.old) }
    ensures { at out.new ≡ two_given columns.table w place (at held.now) (at out.old) }
{
    let (low, high) = (columns.low, columns.high);
    scale_line(held, w, 3, out, place, low.low, high.low);
    scale_line(held, w, 2, out, place + 1, low.high, high.high);
}

// The second stages, and the two lines that they make ready go out.
fn second_given(
    columns: Columns,
    held: &mut [i32],
    out: &mut [i32],
    w: usize,
    after: usize,
    before: usize,
    place: usize,
)
    requires { Lent held.old w × AsColumns columns × SecondFits columns.table w after before (at held.old) × (place + 2 ≤ out_lines) × (out_lines * w ≤ length out.old) }
    ensures held { at held.new ≡ second_done columns.table w after before (at held.old) }
    ensures out { at out.new ≡ two_given columns.table w place (second_done columns.table w after before (at held.old)) (at out.old) }
{
    second_stages(columns, held, w, after, before);
    give_two(columns, held, out, w, place);
}

// P1, U1 and the low line go to their places.
fn keep_first(held: &mut [i32], w: usize)
    requires { Lent held.old w }
    ensures { at held.new ≡ first_kept w (at held.old) }
{
    move_line(held, w, 2, 6);
    move_line(held, w, 3, 0);
    move_line(held, w, 0, 5);
}

// ---- low lines

// A low line in line 5, after two lines: the first P1 and U1.
fn first_low(columns: Columns, held: &mut [i32], w: usize)
    requires { Lent held.old w × AsColumns columns × FirstFits columns.table w 6 (at held.old) }
    ensures { at held.new ≡ first_kept w (first_done columns.table w 6 (at held.old)) }
{
    first_stages(columns, held, w, 6);
    keep_first(held, w);
}

// A low line in line 5, after four lines or more: all stages, and two lines go out.
fn later_low(columns: Columns, held: &mut [i32], out: &mut [i32], w: usize, before: usize)
    requires { Lent held.old w × AsColumns columns × LaterFits columns.table w before (at held.old) × (out_lines * w ≤ length out.old) }
    ensures held { at held.new ≡ later_kept columns.table w before (at held.old) }
    ensures out { at out.new ≡ two_given columns.table w 0 (later_done columns.table w before (at held.old)) (at out.old) }
{
    first_stages(columns, held, w, 2);
    second_given(columns, held, out, w, 0, before, 0);
    move_line(held, w, 4, 2);
    keep_first(held, w);
}

// ---- the end

// After one line: it goes out as it is, cut.
fn end_one(table: WidthTable, held: &[i32], out: &mut [i32], w: usize)
    requires { IsLevel table 1 × Lent held.now w × Enters table w (line_in w (at held.now) 0) × (out_lines * w ≤ length out.old) }
    ensures { at out.new ≡ one_ended table w (at held.now) (at out.old) }
{
    let low = fixed_stages::single_of(table, 1, WidthTable::LOW_COLUMNS);
    let high = fixed_stages::single_of(table, 1, WidthTable::HIGH_COLUMNS);
    scale_line(held, w, 0, out, 0, low, high);
}

// After two lines: the last low line comes once more, and the last U1 serves as the one past it.
fn end_two(columns: Columns, held: &mut [i32], out: &mut [i32], w: usize)
    requires { Lent held.old w × AsColumns columns × HeldFits columns.table w (at held.old) × (out_lines * w ≤ length out.old) }
    ensures held { PastSame w (at held.old) (at held.new) }
    ensures out { at out.new ≡ two_ended columns.table w (at held.old) (at out.old) }
{
    move_line(held, w, 5, 0);
    first_low(columns, held, w);
    second_given(columns, held, out, w, 3, 2, 0);
}

// After an even number of lines, from four on.
fn end_even(columns: Columns, held: &mut [i32], out: &mut [i32], w: usize, before: usize)
    requires { Lent held.old w × AsColumns columns × HeldFits columns.table w (at held.old) × (out_lines * w ≤ length out.old) × ((before ≡ 2) ⊎ (before ≡ 4)) }
    ensures held { PastSame w (at held.old) (at held.new) }
    ensures out { at out.new ≡ even_ended columns.table w before (at held.old) (at out.old) }
{
    move_line(held, w, 5, 0);
    later_low(columns, held, out, w, before);
    second_given(columns, held, out, w, 3, 4, 2);
}

// U2 of the last low line of an odd number, whose U1 is in line 0 and whose P2 is in line 2: the third line that goes out.
fn last_given(columns: Columns, held: &mut [i32], out: &mut [i32], w: usize)
    requires { Lent held.old w × AsColumns columns × LastFits columns.table w (at held.old) × (out_lines * w ≤ length out.old) }
    ensures held { at held.new ≡ set_u2 columns.table w 0 2 2 (at held.old) }
    ensures out { at out.new ≡ last_given columns.table w (at held.old) (at out.old) }
{
    let (low, high) = (columns.low, columns.high);
    stage_line(held, w, 0, 2, 2, low.second.lows, high.second.lows);
    scale_line(held, w, 0, out, 2, low.low, high.low);
}

// After an odd number of lines: the last P1 serves as the one past the last low line, and so does the last P2.
fn end_odd(columns: Columns, held: &mut [i32], out: &mut [i32], w: usize, before: usize)
    requires { Lent held.old w × AsColumns columns × HeldFits columns.table w (at held.old) × (out_lines * w ≤ length out.old) × ((before ≡ 2) ⊎ (before ≡ 4)) }
    ensures held { PastSame w (at held.old) (at held.new) }
    ensures out { at out.new ≡ odd_ended columns.table w before (at held.old) (at out.old) }
{
    let (low, high) = (columns.low.first, columns.high.first);
    stage_line(held, w, 0, 2, 2, low.lows, high.lows);
    second_given(columns, held, out, w, 0, before, 0);
    last_given(columns, held, out, w);
}

// ---- one line

// The first line: its row is the first low line; nothing else is held.
fn first_row(table: WidthTable, pixels: &[u16], w: usize, held: &mut [i32])
    requires { LineRight table pixels.now w × Lent held.old w }
    ensures { HeldWorked table w Taken.Zero (row_of table pixels.now w) held.old held.new }
{
    slices::clear(held, 5 * w);
    row_to(table, pixels, w, held, 0);
}

// What is held, made sound, and a low line in line 5.
fn low_row(table: WidthTable, pixels: &[u16], w: usize, held: &mut [i32])
    requires { LineRight table pixels.now w × Lent held.old w }
    ensures { LowReady table w (row_of table pixels.now w) held.old held.new }
{
    make_sound(table, held, w);
    row_to(table, pixels, w, held, 5);
}

// The third line.
fn third_row(table: WidthTable, pixels: &[u16], w: usize, held: &mut [i32])
    requires { LineRight table pixels.now w × Lent held.old w }
    ensures { HeldWorked table w Taken.Two (row_of table pixels.now w) held.old held.new }
{
    low_row(table, pixels, w, held);
    first_low(columns_of(table), held, w);
}

// The fifth line, or any low line after it; the P2 before is in line 4 or, of the first, the new one in line 2.
fn later_row(
    table: WidthTable,
    pixels: &[u16],
    w: usize,
    held: &mut [i32],
    out: &mut [i32],
    before: usize,
)
    requires { LineRight table pixels.now w × Lent held.old w × (out_lines * w ≤ length out.old) × ((before ≡ 2) ⊎ (before ≡ 4)) }
    ensures { (k : Taken) → Later k before → LineWorked table w k (row_of table pixels.now w) held.old out.old held.new out.new }
{
    low_row(table, pixels, w, held);
    later_low(columns_of(table), held, out, w, before);
}

// A line, by how many came before it: so many lines go out.
pub fn work_line(
    table: WidthTable,
    taken: Taken,
    pixels: &[u16],
    w: usize,
    held: &mut [i32],
    out: &mut [i32],
) -> usize
    requires { LineRight table pixels.now w × Lent held.old w × (out_lines * w ≤ length out.old) }
    ensures count { result ≡ length (line_gives table w taken (held_in w held.old) (row_of table pixels.now w)) }
    ensures work { LineWorked table w taken (row_of table pixels.now w) held.old out.old held.new out.new }
{
    match taken {
        Taken::Zero => {
            first_row(table, pixels, w, held);
            0
        }
        Taken::Two => {
            third_row(table, pixels, w, held);
            0
        }
        Taken::Four => {
            later_row(table, pixels, w, held, out, 2);
            2
        }
        Taken::EvenMany => {
            later_row(table, pixels, w, held, out, 4);
            2
        }
        Taken::One | Taken::Three | Taken::OddMany => {
            row_to(table, pixels, w, held, 1);
            0
        }
    }
}

// The end, by how many lines came: so many lines go out.
pub fn work_end(
    table: WidthTable,
    taken: Taken,
    w: usize,
    held: &mut [i32],
    out: &mut [i32],
) -> usize
    requires { IsLevel table 1 × Admitted w × Lent held.old w × (out_lines * w ≤ length out.old) }
    ensures count { result ≡ length (end_gives table w taken (held_in w held.old)) }
    ensures work { EndWorked table w taken held.old out.old held.new out.new }
{
    make_sound(table, held, w);
    let columns = columns_of(table);
    match taken {
        Taken::Two => {
            end_two(columns, held, out, w);
            2
        }
        Taken::Four => {
            end_even(columns, held, out, w, 2);
            4
        }
        Taken::EvenMany => {
            end_even(columns, held, out, w, 4);
            4
        }
        Taken::Three => {
            end_odd(columns, held, out, w, 2);
            3
        }
        Taken::OddMany => {
            end_odd(columns, held, out, w, 4);
            3
        }
        Taken::One => {
            end_one(table, held, out, w);
            1
        }
        Taken::Zero => 0,
    }
}
