// What the C interface (include/suzdrepa.h) does: thin functions over the layers below, which engine_c exports. Every definition that the contracts cite is in specs/.
// Parameters one by one, and answers as numbers, are the C interface's; inside, an inner function answers with `?`.
#![tactic(auto)]

ghost use Rattle.std.specs.Prelude.{◌≡◌, ◌≤◌};
ghost use Rattle.refusals.specs.Answers.{code};
ghost use Rattle.refusals.specs.Told.{told};
ghost use Rattle.table_bytes.specs.Bytes.{form, write_answer, bytes_after};
ghost use Rattle.table_bytes.specs.Names.{name_answer};
ghost use Rattle.reversible.specs.Reversible.{columns_first, rows_first};
ghost use Rattle.reversible.specs.Calls.{forward_answer, forward_plane, forward_work, back_answer, back_pixels, back_work};
ghost use Rattle.table_calls.specs.Calls.{check_answer, answer97, plane97, work97};
ghost use Rattle.engine.specs.Answers.{table_bound_answer, range_after, error_after, start_after, length_after, change_answer, change_out, constant_change_answer, constant_change_out, product_change_answer, product_change_out, table_with, table_from, view_check_answer, distance_after, view_answer97, view_pixels97, view_work97, Changed};
ghost use Rattle.rolling_lines.specs.LentLines.{out_lines};
ghost use Rattle.scan_bytes.specs.ScanBytes.{numbers_after};
ghost use Rattle.engine.specs.ScanAnswers.{scan_begin_answer, scan_begin_state, scan_line_answer, scan_line_state, scan_line_given, ScanLineLeft, scan_end_answer, scan_end_state, scan_end_given, ScanEndLeft};

use refusals::Refusal;
use rolling::Scan;
use width_table::{NotChanged, WidthTable};

// Whether bytes are those of a width table: 0, or 1 to 5.
pub fn suz_table_form(table: &[u8]) -> u32
    ensures { result ≡ code (form table.now) }
{
    refusals::code(table_bytes::form_of(table))
}

// Where the value of a tag stands goes to start and length.
fn place_written(table: &[u8], tag: u8, start: &mut u32, length: &mut u32) -> Result<(), Refusal>
    ensures answer { told result ≡ name_answer table.now tag }
    ensures start { start.new ≡ start_after table.now tag start.old }
    ensures length { length.new ≡ length_after table.now tag length.old }
{
    let (from, len) = table_bytes::value_place(table, tag)?;
    *start = from as u32;
    *length = len as u32;
    Ok(())
}

// Where the value of a tag stands in the table's bytes; start and length are written where the answer is 0.
pub fn suz_table_value(table: &[u8], tag: u8, start: &mut u32, length: &mut u32) -> u32
    ensures answer { result ≡ code (name_answer table.now tag) }
    ensures start { start.new ≡ start_after table.now tag start.old }
    ensures length { length.new ≡ length_after table.now tag length.old }
{
    refusals::code(place_written(table, tag, start, length))
}

// Reads a width table and judges it: 1 to 5 by fields, then 6 and 7 in node order.
pub fn suz_table_check(table: &[u8]) -> u32
    ensures { result ≡ code (check_answer table.now) }
{
    refusals::code(table_calls::check(table))
}

// Range and error of one node go to range and error.
fn bound_written(
    table: &[u8],
    level: u8,
    pass: u8,
    node: u8,
    range: &mut u64,
    error: &mut u64,
) -> Result<(), Refusal>
    ensures answer { told result ≡ table_bound_answer table.now level pass node }
    ensures range { range.new ≡ range_after table.now level pass node range.old }
    ensures error { error.new ≡ error_after table.now level pass node error.old }
{
    let bound = precision::bound_of(table_bytes::read(table)?, level, pass, node)?;
    *range = bound.range;
    *error = bound.error;
    Ok(())
}

// Range and error of one node, in units of 2^-32, written where the answer is 0: 1 to 5, 4, then 6 or 7 of the nodes before it.
pub fn suz_table_bound(
    table: &[u8],
    level: u8,
    pass: u8,
    node: u8,
    range: &mut u64,
    error: &mut u64,
) -> u32
    ensures answer { result ≡ code (table_bound_answer table.now level pass node) }
    ensures range { range.new ≡ range_after table.now level pass node range.old }
    ensures error { error.new ≡ error_after table.now level pass node error.old }
{
    refusals::code(bound_written(table, level, pass, node, range, error))
}

// A table goes to out: 4, 9.
fn table_written(table: WidthTable, out: &mut [u8]) -> Result<(), Refusal>
    ensures answer { told result ≡ write_answer table out.old }
    ensures out { out.new ≡ bytes_after table out.old }
{
    table_bytes::write(table, out)?;
    Ok(())
}

// Reads a table, changes it, and writes the new table to out.
fn change_to<F: FnOnce(WidthTable) -> Result<WidthTable, NotChanged>>(
    table: &[u8],
    change: F,
    out: &mut [u8],
) -> Result<(), Refusal>
    requires { F.IsAlwaysCallable change }
    ensures { Changed (F.post change) table.now out.old (told result) out.new }
{
    table_written(change(table_bytes::read(table)?)?, out)
}

// Reads a table, sets the width of one node, and writes the new table to out: 1 to 5, 4, 9.
pub fn suz_table_change(
    table: &[u8],
    level: u8,
    pass: u8,
    node: u8,
    integer: u8,
    fraction: u8,
    out: &mut [u8],
) -> u32
    ensures answer { result ≡ code (change_answer table.now level pass node integer fraction out.old) }
    ensures out { out.new ≡ change_out table.now level pass node integer fraction out.old }
{
    refusals::code(change_to(
        table,
        |old| old.with_width(level, pass, node, integer, fraction),
        out,
    ))
}

// Reads a table, sets the bits of one stage's constant, and writes the new table to out: 1 to 5, 4, 9.
pub fn suz_table_change_constant(table: &[u8], node: u8, bits: u8, out: &mut [u8]) -> u32
    ensures answer { result ≡ code (constant_change_answer table.now node bits out.old) }
    ensures out { out.new ≡ constant_change_out table.now node bits out.old }
{
    refusals::code(change_to(table, |old| old.with_constant(node, bits), out))
}

// Reads a table, sets the width of one product, and writes the new table to out: 1 to 5, 4, 9.
pub fn suz_table_change_product(
    table: &[u8],
    level: u8,
    pass: u8,
    product: u8,
    bits: u8,
    out: &mut [u8],
) -> u32
    ensures answer { result ≡ code (product_change_answer table.now level pass product bits out.old) }
    ensures out { out.new ≡ product_change_out table.now level pass product bits out.old }
{
    refusals::code(change_to(
        table,
        |old| old.with_product(level, pass, product, bits),
        out,
    ))
}

// Writes a table of these parts to out: 4, 9. The widths are those of a table in memory, with zeros at unused levels.
pub fn suz_table_write(
    depth: u8,
    levels: u8,
    constants: &[u8; WidthTable::CONSTANTS],
    widths: &[u8; WidthTable::NODE_BYTES],
    out: &mut [u8],
) -> u32
    ensures answer { result ≡ code (write_answer (table_from depth levels constants.now widths.now) out.old) }
    ensures out { out.new ≡ bytes_after (table_from depth levels constants.now widths.now) out.old }
{
    let none = [0u8; WidthTable::PRODUCT_BYTES];
    let table = WidthTable::new(depth, levels, *constants, *widths, false, none);
    refusals::code(table_written(table, out))
}

// The same with the widths of products, and a number that is 0 where the table has no tag 5: 4, 9.
pub fn suz_table_write_products(
    depth: u8,
    levels: u8,
    constants: &[u8; WidthTable::CONSTANTS],
    widths: &[u8; WidthTable::NODE_BYTES],
    has_products: u8,
    products: &[u8; WidthTable::PRODUCT_BYTES],
    out: &mut [u8],
) -> u32
    ensures answer { result ≡ code (write_answer (table_with depth levels constants.now widths.now has_products products.now) out.old) }
    ensures out { out.new ≡ bytes_after (table_with depth levels constants.now widths.now has_products products.now) out.old }
{
    let table = WidthTable::new(
        depth,
        levels,
        *constants,
        *widths,
        has_products != 0,
        *products,
    );
    refusals::code(table_written(table, out))
}

// 5/3 forward, columns before rows: 4, 8, 9, 10.
pub fn suz_forward53(
    depth: u8,
    levels: u8,
    pixels: &[u16],
    width: usize,
    height: usize,
    plane: &mut [i32],
    work: &mut [i32],
) -> u32
    ensures answer { result ≡ code (forward_answer depth levels width height pixels.now plane.old work.old) }
    ensures plane { plane.new ≡ forward_plane columns_first depth levels width height pixels.now plane.old work.old }
    ensures work { work.new ≡ forward_work depth levels width height pixels.now plane.old work.old }
{
    refusals::code(reversible::forward(depth, levels, pixels, width, height, plane, work))
}

// 5/3 back, of what suz_forward53 makes: rows inverted before columns. 4, 8, 9, 11.
pub fn suz_inverse53(
    depth: u8,
    levels: u8,
    plane: &[i32],
    width: usize,
    height: usize,
    pixels: &mut [u16],
    work: &mut [i32],
) -> u32
    ensures answer { result ≡ code (back_answer columns_first depth levels width height plane.now pixels.old work.old) }
    ensures pixels { pixels.new ≡ back_pixels columns_first depth levels width height plane.now pixels.old work.old }
    ensures work { work.new ≡ back_work depth levels width height plane.now pixels.old work.old }
{
    refusals::code(reversible_back::back(depth, levels, plane, width, height, pixels, work))
}

// 5/3 back, of copies made earlier, rows before columns: columns inverted before rows. 4, 8, 9, 11.
pub fn suz_inverse53_rows_first(
    depth: u8,
    levels: u8,
    plane: &[i32],
    width: usize,
    height: usize,
    pixels: &mut [u16],
    work: &mut [i32],
) -> u32
    ensures answer { result ≡ code (back_answer rows_first depth levels width height plane.now pixels.old work.old) }
    ensures pixels { pixels.new ≡ back_pixels rows_first depth levels width height plane.now pixels.old work.old }
    ensures work { work.new ≡ back_work depth levels width height plane.now pixels.old work.old }
{
    refusals::code(reversible_back::back_rows_first(
        depth, levels, plane, width, height, pixels, work,
    ))
}

// 9/7 forward: 1 to 5 of the bytes, then 6, 7, 8, 9, 10.
pub fn suz_forward97(
    table: &[u8],
    pixels: &[u16],
    width: usize,
    height: usize,
    plane: &mut [i32],
    work: &mut [i32],
) -> u32
    ensures answer { result ≡ code (answer97 table.now width height pixels.now plane.old work.old) }
    ensures plane { plane.new ≡ plane97 table.now width height pixels.now plane.old work.old }
    ensures work { work.new ≡ work97 table.now width height pixels.now plane.old work.old }
{
    refusals::code(table_calls::forward(table, pixels, width, height, plane, work))
}

// Would viewing refuse this table? 1 to 5, 6 and 7, 13.
pub fn suz_table_view(table: &[u8]) -> u32
    ensures { result ≡ code (view_check_answer table.now) }
{
    refusals::code(table_bytes::read(table).and_then(view_precision::judge))
}

// How far a viewed strip can be goes to distance.
fn distance_written(table: &[u8], distance: &mut u64) -> Result<(), Refusal>
    ensures answer { told result ≡ view_check_answer table.now }
    ensures distance { distance.new ≡ distance_after table.now distance.old }
{
    *distance = view_precision::distance(table_bytes::read(table)?)?;
    Ok(())
}

// How far a viewed strip can be from what was scanned, in units of 2^-32, written where the answer is 0: 1 to 5, 6 and 7, 13.
pub fn suz_view_distance(table: &[u8], distance: &mut u64) -> u32
    ensures answer { result ≡ code (view_check_answer table.now) }
    ensures distance { distance.new ≡ distance_after table.now distance.old }
{
    refusals::code(distance_written(table, distance))
}

// The picture of a stored 9/7 plane goes to the pixels.
fn viewed(
    table: &[u8],
    plane: &[i32],
    width: usize,
    height: usize,
    pixels: &mut [u16],
    work: &mut [i64],
) -> Result<(), Refusal>
    ensures answer { told result ≡ view_answer97 table.now width height plane.now pixels.old work.old }
    ensures pixels { pixels.new ≡ view_pixels97 table.now width height plane.now pixels.old work.old }
    ensures work { work.new ≡ view_work97 table.now width height plane.now pixels.old work.old }
{
    let held = table_bytes::read(table)?;
    viewing::view(held, plane, width, height, pixels, work)
}

// The picture of a stored 9/7 plane: 1 to 5 of the bytes, then 6 and 7, 13, 8, 9, 12.
pub fn suz_view97(
    table: &[u8],
    plane: &[i32],
    width: usize,
    height: usize,
    pixels: &mut [u16],
    work: &mut [i64],
) -> u32
    ensures answer { result ≡ code (view_answer97 table.now width height plane.now pixels.old work.old) }
    ensures pixels { pixels.new ≡ view_pixels97 table.now width height plane.now pixels.old work.old }
    ensures work { work.new ≡ view_work97 table.now width height plane.now pixels.old work.old }
{
    refusals::code(viewed(table, plane, width, height, pixels, work))
}

// A scan that begins goes to the state.
fn scan_begun(table: &[u8], state: &mut [u8]) -> Result<(), Refusal>
    ensures answer { told result ≡ scan_begin_answer table.now state.old }
    ensures state { state.new ≡ scan_begin_state table.now state.old }
{
    let scan = rolling::begin(table_bytes::read(table)?)?;
    scan_bytes::write(scan, state);
    if state.len() < scan_bytes::SCAN_LENGTH {
        return Err(Refusal::SliceTooShort);
    }
    Ok(())
}

// Begins a rolling scan, which the state holds: 1 to 5 of the table's bytes, 14, 6 and 7, 9.
pub fn suz_scan_begin(table: &[u8], state: &mut [u8]) -> u32
    ensures answer { result ≡ code (scan_begin_answer table.now state.old) }
    ensures state { state.new ≡ scan_begin_state table.now state.old }
{
    refusals::code(scan_begun(table, state))
}

// After a line or an end: the scan's numbers go to the state, after the table, which stays; and how many lines were given.
// (One function of both, with the call on the scan as a closure, is no plainer: its promise would say what a closure leaves of two lent slices.)
fn scan_went(scan: Scan, lines: usize, state: &mut [u8], given: &mut u32)
    requires { lines ≤ out_lines }
    ensures state { state.new ≡ numbers_after scan.width scan.taken scan.ended state.old }
    ensures given { given.new ≡ lines }
{
    scan_bytes::renew(scan.width, scan.taken, scan.ended, state);
    *given = lines as u32;
}

// A line of pixels of the scan that the state holds.
fn line_taken(
    state: &mut [u8],
    pixels: &[u16],
    width: usize,
    held: &mut [i32],
    out: &mut [i32],
    given: &mut u32,
) -> Result<(), Refusal>
    ensures answer { told result ≡ scan_line_answer state.old pixels.now width held.old out.old }
    ensures state { state.new ≡ scan_line_state state.old pixels.now width held.old out.old }
    ensures given { given.new ≡ scan_line_given state.old pixels.now width held.old out.old given.old }
    ensures lines { ScanLineLeft state.old pixels.now width held.old out.old held.new out.new }
{
    let mut scan = scan_bytes::read(state)?;
    let lines = rolling::line(&mut scan, pixels, width, held, out)?;
    scan_went(scan, lines, state, given);
    Ok(())
}

// Takes a line of pixels; the lines that it makes ready stand first in out, and given says how many: 9 for the state, 14, 8, 9, 10.
pub fn suz_scan_line(
    state: &mut [u8],
    pixels: &[u16],
    width: usize,
    held: &mut [i32],
    out: &mut [i32],
    given: &mut u32,
) -> u32
    ensures answer { result ≡ code (scan_line_answer state.old pixels.now width held.old out.old) }
    ensures state { state.new ≡ scan_line_state state.old pixels.now width held.old out.old }
    ensures given { given.new ≡ scan_line_given state.old pixels.now width held.old out.old given.old }
    ensures lines { ScanLineLeft state.old pixels.now width held.old out.old held.new out.new }
{
    refusals::code(line_taken(state, pixels, width, held, out, given))
}

// The end of the scan that the state holds.
fn end_announced(
    state: &mut [u8],
    held: &mut [i32],
    out: &mut [i32],
    given: &mut u32,
) -> Result<(), Refusal>
    ensures answer { told result ≡ scan_end_answer state.old held.old out.old }
    ensures state { state.new ≡ scan_end_state state.old held.old out.old }
    ensures given { given.new ≡ scan_end_given state.old held.old out.old given.old }
    ensures lines { ScanEndLeft state.old held.old out.old held.new out.new }
{
    let mut scan = scan_bytes::read(state)?;
    let lines = rolling::end(&mut scan, held, out)?;
    scan_went(scan, lines, state, given);
    Ok(())
}

// Announces the end; the lines that are left stand first in out, and given says how many: 9 for the state, 14, 9.
pub fn suz_scan_end(state: &mut [u8], held: &mut [i32], out: &mut [i32], given: &mut u32) -> u32
    ensures answer { result ≡ code (scan_end_answer state.old held.old out.old) }
    ensures state { state.new ≡ scan_end_state state.old held.old out.old }
    ensures given { given.new ≡ scan_end_given state.old held.old out.old given.old }
    ensures lines { ScanEndLeft state.old held.old out.old held.new out.new }
{
    refusals::code(end_announced(state, held, out, given))
}
