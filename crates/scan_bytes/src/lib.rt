// A rolling scan as bytes of the caller (include/suzdrepa.h). Definitions in specs/.
#![tactic(auto)]

ghost use Rattle.std.specs.Prelude.{◌≡◌, ◌+◌, ◌≤◌, IfOk, length, get_or};
ghost use Rattle.numbers.specs.Lists.{over};
ghost use Rattle.refusals.specs.Told.{told};
ghost use Rattle.scan_bytes.specs.ScanBytes.{table_room, scan_length, taken_number, keepable, held_with, table_end, scan_in, scan_read, state_after, numbers_after};

use refusals::Refusal;
use rolling::Scan;
use rolling_lines::Taken;
use width_table::WidthTable;

// Bytes of a table of one level without tag 5 and with it (document 02, job 7), which is a table's room; and of a scan.
const FOUR_FIELDS: usize = 56;

const TABLE_ROOM: usize = 71;

pub const SCAN_LENGTH: usize = 75;

// Lines taken, by their number. (Not `TryFrom`: an impl of a library's trait stands beside the type, and rolling_lines knows no bytes.)
const TAKEN: [Taken; 7] = [
    Taken::Zero,
    Taken::One,
    Taken::Two,
    Taken::Three,
    Taken::Four,
    Taken::OddMany,
    Taken::EvenMany,
];

// The number of lines taken.
fn taken_number(taken: Taken) -> u8
    ensures { result ≡ taken_number taken }
{
    taken as u8
}

// The scan that right bytes hold, with the table that was read from them.
fn scan_held(table: WidthTable, state: &[u8]) -> Scan
    requires { (scan_length ≤ length state.now) × (get_or state.now (table_room + 2) 0 ≤ 6) }
    ensures { result ≡ held_with table state.now }
{
    Scan {
        table,
        width: numbers::two(state[TABLE_ROOM], state[TABLE_ROOM + 1]) as usize,
        taken: TAKEN[state[TABLE_ROOM + 2] as usize],
        ended: state[TABLE_ROOM + 3] == 1,
    }
}

// Where the table's bytes end: where a byte 5 follows the fourth field, with tag 5.
fn table_end(state: &[u8]) -> usize
    requires { scan_length ≤ length state.now }
    ensures { result ≡ table_end state.now }
{
    if state[FOUR_FIELDS] == table_bytes::PRODUCTS_TAG {
        return TABLE_ROOM;
    }
    FOUR_FIELDS
}

// The scan that bytes hold: 9, 14.
#[tactic(auto, unfolding(crate::specs::ScanBytes::scan_in, crate::specs::ScanBytes::scan_read, crate::specs::ScanBytes::scan_right))]
pub fn read(state: &[u8]) -> Result<Scan, Refusal>
    ensures answer { told result ≡ scan_in state.now }
    ensures scan { IfOk result (λ s. s ≡ scan_read state.now) }
{
    if state.len() < SCAN_LENGTH {
        return Err(Refusal::SliceTooShort);
    }
    if 6 < state[TABLE_ROOM + 2] || 1 < state[TABLE_ROOM + 3] {
        return Err(Refusal::OutOfTurn);
    }
    let end = table_end(state);
    if !state[end..TABLE_ROOM].iter().all(|byte| *byte == 0) {
        return Err(Refusal::OutOfTurn);
    }
    let Ok(table) = table_bytes::read(&state[..end]) else {
        return Err(Refusal::OutOfTurn);
    };
    Ok(scan_held(table, state))
}

// Whether bytes can hold a scan.
#[tactic(auto, unfolding(crate::specs::ScanBytes::keepable))]
fn keepable(scan: Scan) -> bool
    ensures { result ≡ keepable scan }
{
    scan.table.form_right() && scan.table.levels == 1 && scan.width < 65536
}

// Writes a scan's numbers after the table's bytes that stand there, where there is room for a scan and two bytes hold the width.
#[tactic(auto, unfolding(crate::specs::ScanBytes::numbers_after))]
pub fn renew(width: usize, taken: Taken, ended: bool, state: &mut [u8])
    ensures { state.new ≡ numbers_after width taken ended state.old }
{
    if state.len() < SCAN_LENGTH || 65535 < width {
        return;
    }
    let [high, low] = (width as u16).to_be_bytes();
    state[TABLE_ROOM..SCAN_LENGTH].copy_from_slice(&[
        high,
        low,
        taken_number(taken),
        u8::from(ended),
    ]);
}

// Writes a scan over the front of the caller's bytes, where they have room for it and can hold it: the table's bytes over zeros in
// their room, then the numbers.
#[tactic(auto, unfolding(crate::specs::ScanBytes::state_after))]
pub fn write(scan: Scan, state: &mut [u8])
    ensures { state.new ≡ state_after scan state.old }
{
    if !keepable(scan) || state.len() < SCAN_LENGTH {
        return;
    }
    state[..TABLE_ROOM].fill(0);
    // it has the right form, and room
    let _ = table_bytes::write(scan.table, state);
    renew(scan.width, scan.taken, scan.ended, state);
}
