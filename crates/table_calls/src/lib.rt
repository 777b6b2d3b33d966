// Calls that take a width table as its bytes. Every definition that the contracts cite is in specs/.
#![tactic(auto)]

ghost use Rattle.std.specs.Prelude.{◌≡◌};
ghost use Rattle.refusals.specs.Told.{told};
ghost use Rattle.table_calls.specs.Calls.{check_answer, answer97, plane97, work97};

use refusals::Refusal;
use width_table::WidthTable;

// Reads a width table and judges it: 1 to 5 by fields, then 6 and 7 in node order.
pub fn check(table: &[u8]) -> Result<(), Refusal>
    ensures { told result ≡ check_answer table.now }
{
    precision::judge(table_bytes::read(table)?)
}

// 9/7 forward: 1 to 5 of the bytes, then 6, 7, 8, 9, 10.
pub fn forward(
    table: &[u8],
    pixels: &[u16],
    width: usize,
    height: usize,
    plane: &mut [i32],
    work: &mut [i32],
) -> Result<(), Refusal>
    ensures answer { told result ≡ answer97 table.now width height pixels.now plane.old work.old }
    ensures plane { plane.new ≡ plane97 table.now width height pixels.now plane.old work.old }
    ensures work { work.new ≡ work97 table.now width height pixels.now plane.old work.old }
{
    irreversible::forward(
        table_bytes::read(table)?,
        pixels,
        width,
        height,
        plane,
        work,
    )
}
