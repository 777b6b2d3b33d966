// A strip: a part of a plane with a few neighbouring columns, worked as columns. A row is a strip of one column whose stride is 1.
// Kernels are lent: for a short row a copy is a large part of the work. `strip`, `strip_forward` and `split` are compiled into the loops over
// rows and over strips, so that a row's stride and width are constants there; the way back is a function of its own, which they call.
ghost use Rattle.std.specs.Prelude.{◌≡◌, ℕ, ◌<◌};
ghost use Rattle.slices.specs.Patch.{at};
ghost use Rattle.lifting.specs.Kernels.{Forward, SafeKernel, columns_worked};
ghost use Rattle.slices.specs.Parts.{column_of};
ghost use Rattle.lifting.specs.Strips.{StripRoom, Ready, Finished};

use crate::buffers::{copy_lines, inverse_lift, lift, merge, scale_lines, split};
use crate::{Kernel, Pair, TwoPairs};
use slices::Part;

// A line buffer that holds lines, worked by a pair on their way into the plane.
fn finish_one(plane: &mut [i32], buffer: &mut [i32], part: Part, pair: &Pair)
    requires strip_room { StripRoom plane.old buffer.old part.stride part.from part.w part.h }
    requires ready { Ready (Kernel.One pair.now) part.w part.h (at buffer.old) }
    ensures { Finished (Kernel.One pair.now) part.stride part.from part.w part.h (at buffer.old) (at plane.old) (at plane.new) }
{
    lift(buffer, part.w, part.h, pair);
    copy_lines(
        buffer,
        0,
        part.w,
        plane,
        part.from,
        part.stride,
        part.h,
        part.w,
    );
}

// The same, by two pairs and a scaling.
fn finish_two(plane: &mut [i32], buffer: &mut [i32], part: Part, by: &TwoPairs)
    requires strip_room { StripRoom plane.old buffer.old part.stride part.from part.w part.h }
    requires ready { Ready (Kernel.Two by.now) part.w part.h (at buffer.old) }
    ensures { Finished (Kernel.Two by.now) part.stride part.from part.w part.h (at buffer.old) (at plane.old) (at plane.new) }
{
    lift(buffer, part.w, part.h, &by.first);
    lift(buffer, part.w, part.h, &by.second);
    let half = (part.h + 1) / 2;
    scale_lines(
        buffer,
        0,
        plane,
        part.from,
        part.stride,
        half,
        part.w,
        by.low,
    );
    scale_lines(
        buffer,
        half * part.w,
        plane,
        part.from + half * part.stride,
        part.stride,
        part.h / 2,
        part.w,
        by.high,
    );
}

// The same, by a kernel that is worked forward.
pub fn finish(plane: &mut [i32], buffer: &mut [i32], part: Part, kernel: &Kernel)
    requires strip_room { StripRoom plane.old buffer.old part.stride part.from part.w part.h × Forward kernel.now }
    requires ready { Ready kernel.now part.w part.h (at buffer.old) }
    ensures { Finished kernel.now part.stride part.from part.w part.h (at buffer.old) (at plane.old) (at plane.new) }
{
    match kernel {
        Kernel::One(pair) => finish_one(plane, buffer, part, pair),
        Kernel::Two(by) => finish_two(plane, buffer, part, by),
        Kernel::Inverse(_) => {}
    }
}

// The strip, worked forward through the line buffer.
#[inline(always)]
pub fn strip_forward(plane: &mut [i32], buffer: &mut [i32], part: Part, kernel: &Kernel)
    requires strip_room { StripRoom plane.old buffer.old part.stride part.from part.w part.h × Forward kernel.now }
    requires by_index { (j : ℕ) → j < part.w → SafeKernel kernel.now part.h (column_of part.stride part.from (at plane.old) j) }
    ensures { at plane.new ≡ columns_worked kernel.now part.stride part.from part.w part.h (at plane.old) }
{
    split(plane, buffer, part);
    finish(plane, buffer, part, kernel);
}

// The strip, a pair inverted.
#[inline(never)]
pub fn strip_inverse(plane: &mut [i32], buffer: &mut [i32], part: Part, pair: &Pair)
    requires strip_room { StripRoom plane.old buffer.old part.stride part.from part.w part.h }
    requires by_index { (j : ℕ) → j < part.w → SafeKernel (Kernel.Inverse pair.now) part.h (column_of part.stride part.from (at plane.old) j) }
    ensures { at plane.new ≡ columns_worked (Kernel.Inverse pair.now) part.stride part.from part.w part.h (at plane.old) }
{
    copy_lines(
        plane,
        part.from,
        part.stride,
        buffer,
        0,
        part.w,
        part.h,
        part.w,
    );
    inverse_lift(buffer, part.w, part.h, pair);
    merge(buffer, plane, part);
}

// The strip, worked through the line buffer. By cases of the kernel, which a table decides: each hands its own steps to the loops.
#[inline(always)]
pub fn strip(plane: &mut [i32], buffer: &mut [i32], part: Part, kernel: &Kernel)
    requires strip_room { StripRoom plane.old buffer.old part.stride part.from part.w part.h }
    requires by_index { (j : ℕ) → j < part.w → SafeKernel kernel.now part.h (column_of part.stride part.from (at plane.old) j) }
    ensures { at plane.new ≡ columns_worked kernel.now part.stride part.from part.w part.h (at plane.old) }
{
    match kernel {
        Kernel::Inverse(pair) => strip_inverse(plane, buffer, part, pair),
        Kernel::One(_) => strip_forward(plane, buffer, part, kernel),
        Kernel::Two(_) => strip_forward(plane, buffer, part, kernel),
    }
}
