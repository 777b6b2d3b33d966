// The rolling scan (document 02, jobs 5 and 6): a one-level 9/7 transform line by line. Definitions in specs/; the lines are worked in
// rolling_lines.
#![tactic(auto)]

ghost use Rattle.std.specs.Prelude.{◌≡◌, IfOk};
ghost use Rattle.refusals.specs.Answers.{passed, ◌then◌};
ghost use Rattle.refusals.specs.Told.{told};
ghost use Rattle.rolling.specs.Calls.{begin_answer, scan_of, line_width_right, goes_on, line_answer_of, LineCall, end_answer_of, EndCall};

use refusals::Refusal;
use rolling_lines::Taken;
use width_table::WidthTable;

// A scan: its table; the width of its lines, 0 before the first (a number, since the state's bytes hold any); the lines taken; whether the end was announced.
#[derive(Clone, Copy)]
pub struct Scan {
    pub table: WidthTable,
    pub width: usize,
    pub taken: Taken,
    pub ended: bool,
}

// Lines lent to hold, and lines lent for output.
pub const HELD_LINES: usize = 7;

pub const OUT_LINES: usize = 4;

// ---- the calls

// 14 for a table that is not of one level, then 4, then 6 and 7.
#[tactic(auto, unfolding(crate::specs::Calls::begin_answer))]
fn begin_answer(table: WidthTable) -> Result<(), Refusal>
    ensures { told result ≡ begin_answer table }
{
    if table.levels == 1 {
        precision::judge(table)
    } else {
        Err(Refusal::OutOfTurn)
    }
}

impl Scan {
    // Whether its width is one that a scan has after so many lines.
    #[tactic(auto, unfolding(crate::specs::Calls::line_width_right))]
    fn width_right(self) -> bool
        ensures { result ≡ line_width_right self.taken self.width }
    {
        if self.taken.any() {
            return pictures::side_admitted(self.width);
        }
        self.width == 0
    }

    // Whether it goes on.
    #[tactic(auto, unfolding(crate::specs::Calls::goes_on))]
    fn goes_on(self) -> bool
        ensures { result ≡ goes_on self }
    {
        !self.ended && self.width_right() && begin_answer(self.table).is_ok()
    }

    // The answer of a line, for a held slice and an output of so many elements.
    #[tactic(auto, unfolding(crate::specs::Calls::line_answer_of))]
    fn line_answer(self, pixels: &[u16], w: usize, held: usize, out: usize) -> Result<(), Refusal>
        ensures { told result ≡ line_answer_of self pixels.now w held out }
    {
        if !self.goes_on() || (self.taken.any() && w != self.width) {
            return Err(Refusal::OutOfTurn);
        }
        if !pictures::side_admitted(w) {
            return Err(Refusal::SideNotAdmitted);
        }
        if pixels.len() < w || held < HELD_LINES * w || out < OUT_LINES * w {
            return Err(Refusal::SliceTooShort);
        }
        pictures::pixels_right(self.table.depth, w, 1, pixels)
    }

    // The answer of an end.
    #[tactic(auto, unfolding(crate::specs::Calls::end_answer_of))]
    fn end_answer(self, held: usize, out: usize) -> Result<(), Refusal>
        ensures { told result ≡ end_answer_of self held out }
    {
        if !self.goes_on() || !self.taken.any() {
            return Err(Refusal::OutOfTurn);
        }
        if held < HELD_LINES * self.width || out < OUT_LINES * self.width {
            return Err(Refusal::SliceTooShort);
        }
        Ok(())
    }
}

// Begins a scan under a table of one level: 14, then 4, then 6 and 7.
#[tactic(auto, unfolding(crate::specs::Calls::scan_of))]
pub fn begin(table: WidthTable) -> Result<Scan, Refusal>
    ensures outcome { told result then passed ≡ begin_answer table }
    ensures scan { IfOk result (λ s. s ≡ scan_of table) }
{
    begin_answer(table)?;
    Ok(Scan {
        table,
        width: 0,
        taken: Taken::Zero,
        ended: false,
    })
}

// Takes a line of pixels: 14, 8, 9, 10. Lines that it makes ready stand first in the output, and it gives how many.
pub fn line(
    scan: &mut Scan,
    pixels: &[u16],
    w: usize,
    held: &mut [i32],
    out: &mut [i32],
) -> Result<usize, Refusal>
    ensures { LineCall scan.old pixels.now w held.old out.old (told result) scan.new held.new out.new }
{
    scan.line_answer(pixels, w, held.len(), out.len())?;
    let lines = rolling_lines::work_line(scan.table, scan.taken, pixels, w, held, out);
    scan.width = w;
    scan.taken = scan.taken.next();
    Ok(lines)
}

// Announces the end: 14, 9. The lines that are left stand first in the output, and it gives how many.
pub fn end(scan: &mut Scan, held: &mut [i32], out: &mut [i32]) -> Result<usize, Refusal>
    ensures { EndCall scan.old held.old out.old (told result) scan.new held.new out.new }
{
    scan.end_answer(held.len(), out.len())?;
    let lines = rolling_lines::work_end(scan.table, scan.taken, scan.width, held, out);
    scan.ended = true;
    Ok(lines)
}
