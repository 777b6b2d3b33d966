// Pictures and planes in memory: refusals 8, 9 and 10, looks over values, the middle of the pixels.
#![tactic(auto)]

ghost use Rattle.std.specs.Prelude.{◌≡◌, ℕ, ◌+◌, ◌-◌, ◌*◌, ◌^◌, ◌<◌, ◌≤◌, length, List, ℤ, Bool};
ghost use Rattle.std.specs.Fn.{FnReturnsAt};
ghost use Rattle.width_table.specs.Table.{max_depth};
ghost use Rattle.lines.specs.Planes.{side};
ghost use Rattle.slices.specs.Patch.{at};
ghost use Rattle.slices.specs.PatchLines.{line_at};
ghost use Rattle.slices.specs.Parts.{row_of};
ghost use Rattle.refusals.specs.Answers.{◌then◌};
ghost use Rattle.refusals.specs.Told.{told};
ghost use Rattle.pictures.specs.Pictures.{max_side, side_right, side_answer, length_answer, pixel_answer};
ghost use Rattle.pictures.specs.PixelLaws.{Largest};
ghost use Rattle.pictures.specs.RangeChecks.{Tells, Between, OfBits, above_least};

use refusals::Refusal;
use slices::Part;

// The limit of a side of a picture.
pub const MAX_SIDE: usize = 4096;

// Whether a side is admitted.
pub fn side_admitted(side: usize) -> bool
    ensures { result ≡ side_right side }
{
    1 <= side && side <= MAX_SIDE
}

// Refusal 8.
pub fn sides_right(w: usize, h: usize) -> Result<(), Refusal>
    ensures { told result ≡ side_answer w h }
{
    if !side_admitted(w) || !side_admitted(h) {
        return Err(Refusal::SideNotAdmitted);
    }
    Ok(())
}

// Refusal 9, for a slice of so many elements that is to hold n.
pub fn slice_holds(n: usize, length: usize) -> Result<(), Refusal>
    ensures { told result ≡ length_answer n length }
{
    if length < n {
        return Err(Refusal::SliceTooShort);
    }
    Ok(())
}

// Refusals 8 and 9, for three slices of so many elements.
pub fn room_right(
    w: usize,
    h: usize,
    first: usize,
    second: usize,
    third: usize,
) -> Result<(), Refusal>
    ensures { told result ≡ side_answer w h then length_answer (w * h) first then length_answer (w * h) second then length_answer (w * h) third }
{
    sides_right(w, h)?;
    let n = w * h;
    slice_holds(n, first)?;
    slice_holds(n, second)?;
    slice_holds(n, third)
}

// The largest of some pixels; 0 of none.
fn largest(pixels: &[u16]) -> u16
    ensures { Largest pixels.now result }
{
    let mut most: u16 = 0;
    for p in pixels {
        most = most.max(*p);
    }
    most
}

// Refusal 10: looks at all of the first w * h pixels.
pub fn pixels_right(depth: u8, w: usize, h: usize, pixels: &[u16]) -> Result<(), Refusal>
    requires { (depth ≤ max_depth) × (w ≤ max_side) × (h ≤ max_side) × (w * h ≤ length pixels.now) }
    ensures { told result ≡ pixel_answer depth w h pixels.now }
{
    let n = w * h;
    let most = largest(&pixels[..n]);
    if most < (1u16 << depth) {
        Ok(())
    } else {
        Err(Refusal::PixelTooLarge)
    }
}

// The middle of the pixels' range.
pub fn middle(depth: u8) -> u16
    requires { (1 ≤ depth) × (depth ≤ max_depth) }
    ensures { result ≡ 2 ^ (depth - 1) }
{
    1u16 << (depth - 1)
}

// The side that k levels leave of a side of n.
pub fn side_after(n: usize, k: u8) -> usize
    requires { (1 ≤ n) × (n ≤ max_side) }
    ensures { result ≡ side k n }
{
    let mut m = n;
    for _ in 0..k {
        m = (m + 1) / 2;
    }
    m
}

// Whether a value lies between two others.
fn in_range(v: i32, least: i32, most: i32) -> bool
    ensures { Tells (Between least most v) result }
{
    least <= v && v <= most
}

// Whether values lie between two numbers. With no early stop, so that the loop is compiled to vectors, as the next ones.
pub fn all_between(values: &[i32], least: i32, most: i32) -> bool
    ensures { Tells ((j : ℕ) → j < length values.now → Between least most (at values.now j)) result }
{
    let mut fits = true;
    for v in values {
        fits = fits & in_range(*v, least, most);
    }
    fits
}

// Whether a look at each row of a part, which starts at a place and has w columns and h rows, tells so.
fn rows_tell<F: Fn(&[i32]) -> bool>(values: &[i32], part: Part, look: F) -> bool
    requires part { (i : ℕ) → i < part.h → line_at part.from part.stride i + part.w ≤ length values.now }
    requires callable { F.IsAlwaysCallable look }
    ensures { (least most : ℤ) → ((row : List ℤ) (r : Bool) → FnReturnsAt F.Fn look row r → Tells ((j : ℕ) → j < length row → Between least most (at row j)) r) → Tells ((i : ℕ) → i < part.h → (j : ℕ) → j < part.w → Between least most (row_of part.stride part.from (at values.now) i j)) result }
{
    let mut fits = true;
    // i numbers a row: rows lie part.stride apart
    for i in 0..part.h {
        let start = part.from + i * part.stride;
        fits = fits & look(&values[start..start + part.w]);
    }
    fits
}

// Whether the values of a part of w columns and h rows, which starts at a place, lie between two numbers.
pub fn part_between(values: &[i32], part: Part, least: i32, most: i32) -> bool
    requires { (i : ℕ) → i < part.h → line_at part.from part.stride i + part.w ≤ length values.now }
    ensures { Tells ((i : ℕ) → i < part.h → (j : ℕ) → j < part.w → Between least most (row_of part.stride part.from (at values.now) i j)) result }
{
    rows_tell(values, part, |row| all_between(row, least, most))
}

// How far a value lies above -top, where 2 ^ 32 counts as 0.
fn above(v: i32, top: u32) -> u32
    ensures { result ≡ above_least top v }
{
    let bits = std::num::wrapping_add_u32(slices::bias(v), 2147483648);
    std::num::wrapping_add_u32(bits, top)
}

// Whether values are numbers of so many bits beside the sign. The bits of what they lie above the least are gathered, and looked at once.
fn all_of_bits(values: &[i32], bits: u8) -> bool
    requires { bits ≤ 31 }
    ensures { Tells ((j : ℕ) → j < length values.now → OfBits bits (at values.now j)) result }
{
    let top = 1u32 << bits;
    let mut gathered: u32 = 0;
    for v in values {
        gathered = gathered | above(*v, top);
    }
    gathered / 2 < top
}

// Whether the values of a part of w columns and h rows, which starts at a place, are numbers of so many bits beside the sign.
pub fn part_of_bits(values: &[i32], part: Part, bits: u8) -> bool
    requires { (bits ≤ 31) × ((i : ℕ) → i < part.h → line_at part.from part.stride i + part.w ≤ length values.now) }
    ensures { Tells ((i : ℕ) → i < part.h → (j : ℕ) → j < part.w → OfBits bits (row_of part.stride part.from (at values.now) i j)) result }
{
    rows_tell(values, part, |row| all_of_bits(row, bits))
}
