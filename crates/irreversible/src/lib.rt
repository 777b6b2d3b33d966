// The 9/7 transform in fixed point under a width table.
#![tactic(auto)]

ghost use Rattle.std.specs.Prelude.{◌≡◌, ◌+◌, ◌*◌, ◌-◌, ◌<◌, ◌^◌};
ghost use Rattle.slices.specs.Patch.{at};
ghost use Rattle.lines.specs.Planes.{row_by_row};
ghost use Rattle.numbers.specs.Lists.{over};
ghost use Rattle.refusals.specs.Told.{told};
ghost use Rattle.fixed_stages.specs.Fixed.{fixed_line};
ghost use Rattle.irreversible.specs.Transforms.{fixed_plane};
ghost use Rattle.irreversible.specs.Calls.{fixed_answer_of, fixed_answer, fixed_plane_after, fixed_work};
ghost use Rattle.width_table.specs.Numbered.{pass_of, IsPass};
ghost use Rattle.irreversible.specs.Memory.{rowed, columned, level_worked};
ghost use Rattle.irreversible.specs.Ready.{RowsReady, ColumnsReady, BothReady, LevelReady, Ready};
ghost use Rattle.slices.specs.Parts.{columns_by};
ghost use Rattle.slices.specs.Pixels.{loaded};

use lifting::{Factor, Kernel, Pair, Step};
use refusals::Refusal;
use slices::Part;
use width_table::WidthTable;

// w columns and h rows at the front of a plane whose rows are `stride` long: a part from column 0 on, as the laws of specs/Memory have it.
#[derive(Clone, Copy)]
struct Front {
    stride: usize,
    w: usize,
    h: usize,
}

// The rows of a level.
fn work_rows(table: WidthTable, level: u8, plane: &mut [i32], buffer: &mut [i32], front: Front)
    requires { RowsReady table level plane.old buffer.old front.stride front.w front.h }
    ensures { at plane.new ≡ rowed table level front.stride front.w front.h (at plane.old) }
{
    let part = Part {
        stride: front.stride,
        from: 0,
        w: front.w,
        h: front.h,
    };
    if front.w < 2 {
        lifting::scale_part(
            plane,
            part,
            fixed_stages::single_of(table, level, WidthTable::ROWS),
        );
        return;
    }
    lifting::rows(
        plane,
        buffer,
        part,
        fixed_stages::kernel_of(table, level, WidthTable::ROWS),
    );
}

// w columns of h rows, from column `from` on, by a pass.
fn columns_by(
    table: WidthTable,
    level: u8,
    pass: u8,
    plane: &mut [i32],
    buffer: &mut [i32],
    part: Part,
)
    requires { ColumnsReady table level (pass_of pass) plane.old buffer.old part.stride part.from part.w part.h × IsPass pass }
    ensures { at plane.new ≡ columns_by (fixed_line table level (pass_of pass)) part.stride part.from part.w part.h (at plane.old) }
{
    if part.h < 2 {
        lifting::scale_part(plane, part, fixed_stages::single_of(table, level, pass));
        return;
    }
    lifting::columns(
        plane,
        buffer,
        part,
        fixed_stages::kernel_of(table, level, pass),
    );
}

// The columns of a level.
fn work_columns(table: WidthTable, level: u8, plane: &mut [i32], buffer: &mut [i32], front: Front)
    requires { BothReady table level plane.old buffer.old front.stride front.w front.h }
    ensures { at plane.new ≡ columned table level front.stride front.w front.h (at plane.old) }
{
    let low = Part {
        stride: front.stride,
        from: 0,
        w: (front.w + 1) / 2,
        h: front.h,
    };
    columns_by(table, level, WidthTable::LOW_COLUMNS, plane, buffer, low);
    let high = Part {
        stride: front.stride,
        from: low.w,
        w: front.w / 2,
        h: front.h,
    };
    columns_by(table, level, WidthTable::HIGH_COLUMNS, plane, buffer, high);
}

// One level: its rows, then its columns.
fn work_level(table: WidthTable, level: u8, plane: &mut [i32], buffer: &mut [i32], front: Front)
    requires { LevelReady table level plane.old buffer.old front.stride front.w front.h }
    ensures { at plane.new ≡ level_worked table level front.stride front.w front.h (at plane.old) }
{
    work_rows(table, level, plane, buffer, front);
    work_columns(table, level, plane, buffer, front);
}

// The rows of the first level, from the pixels.
fn pixel_rows(
    table: WidthTable,
    pixels: &[u16],
    plane: &mut [i32],
    buffer: &mut [i32],
    w: usize,
    h: usize,
)
    requires { Ready table pixels.now plane.old buffer.old w h }
    ensures { at plane.new ≡ rowed table 1 w w h (loaded pixels.now (2 ^ (table.depth - 1)) w h (at plane.old)) }
{
    let middle = pictures::middle(table.depth);
    if w < 2 {
        lifting::put_pixels(pixels, middle, plane, w * h);
        let front = Front { stride: w, w, h };
        work_rows(table, 1, plane, buffer, front);
        return;
    }
    let kernel = fixed_stages::kernel_of(table, 1, WidthTable::ROWS);
    lifting::pixel_rows(pixels, middle, plane, buffer, w, h, kernel);
}

// The first level, whose rows are those of the picture.
fn first_level(
    table: WidthTable,
    pixels: &[u16],
    plane: &mut [i32],
    buffer: &mut [i32],
    w: usize,
    h: usize,
)
    requires { Ready table pixels.now plane.old buffer.old w h }
    ensures { at plane.new ≡ level_worked table 1 w w h (loaded pixels.now (2 ^ (table.depth - 1)) w h (at plane.old)) }
{
    pixel_rows(table, pixels, plane, buffer, w, h);
    let front = Front { stride: w, w, h };
    work_columns(table, 1, plane, buffer, front);
}

// The plane of a picture.
fn transform(
    table: WidthTable,
    pixels: &[u16],
    plane: &mut [i32],
    buffer: &mut [i32],
    w: usize,
    h: usize,
)
    requires { Ready table pixels.now plane.old buffer.old w h }
    ensures { plane.new ≡ over (row_by_row w h (fixed_plane table pixels.now w h)) plane.old }
{
    first_level(table, pixels, plane, buffer, w, h);
    let mut across = (w + 1) / 2;
    let mut down = (h + 1) / 2;
    // k numbers the level, and the sides that it has go with it
    for k in 1..table.levels {
        let front = Front {
            stride: w,
            w: across,
            h: down,
        };
        work_level(table, k + 1, plane, buffer, front);
        across = (across + 1) / 2;
        down = (down + 1) / 2;
    }
}

// The answer of the call, for a plane and a work area of so many elements.
fn answer(
    table: WidthTable,
    pixels: &[u16],
    w: usize,
    h: usize,
    second: usize,
    third: usize,
) -> Result<(), Refusal>
    ensures { told result ≡ fixed_answer_of table w h pixels.now second third }
{
    precision::judge(table)?;
    pictures::room_right(w, h, pixels.len(), second, third)?;
    pictures::pixels_right(table.depth, w, h, pixels)
}

// The 9/7 transform of a picture. Success leaves the coefficients in the plane, row by row, and zeros in the work area;
// a refusal leaves both as they were.
pub fn forward(
    table: WidthTable,
    pixels: &[u16],
    w: usize,
    h: usize,
    plane: &mut [i32],
    work: &mut [i32],
) -> Result<(), Refusal>
    ensures answer { told result ≡ fixed_answer table w h pixels.now plane.old work.old }
    ensures plane { plane.new ≡ fixed_plane_after table w h pixels.now plane.old work.old }
    ensures work { work.new ≡ fixed_work table w h pixels.now plane.old work.old }
{
    answer(table, pixels, w, h, plane.len(), work.len())?;
    let n = w * h;
    transform(table, pixels, plane, &mut work[..n], w, h);
    slices::clear(work, n);
    Ok(())
}
