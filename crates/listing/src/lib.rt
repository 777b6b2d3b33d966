// The exact-copy program's answer: its input parsed and judged, and its text, on slices. specs/Listing says what is printed.
#![tactic(auto)]

ghost use Rattle.std.specs.Prelude.{◌≡◌, ◌∷◌, [], ◌++◌, ◌+◌, ◌*◌, ◌<◌, ◌≤◌, length};
ghost use Rattle.numbers.specs.Lists.{over};
ghost use Rattle.refusals.specs.Answers.{done, passed, ◌then◌};
ghost use Rattle.refusals.specs.Told.{told_refusal, told};
ghost use Rattle.pictures.specs.Pictures.{side_answer, length_answer, plane_of};
ghost use Rattle.listing.specs.Listing.{number_bytes, max_number, head_bytes, head_numbers, natural, decimal, line, row_lines, refused_word, refused_line, copy_pixels, copy_form, head_in, head_text, copy_text, listed, Memory, max_pixels, max_input};
ghost use Rattle.listing.specs.Writing.{Put};

use pictures::{sides_right, slice_holds};
use refusals::Refusal;
use width_table::limits_right;

// The pixels that there is memory for.
pub const MAX_PIXELS: usize = 4096;

// As many bytes of input as decide: the head, the pixels, and one byte more (proofs/AnswerLaws, `enough`; `max_input`).
pub const MAX_INPUT: usize = HEAD + 2 * MAX_PIXELS + 1;

// As many bytes as a number has.
const NUMBER_BYTES: usize = 11;

// With the byte that follows it.
const MAX_NUMBER: usize = NUMBER_BYTES + 1;

// The numbers of the head's line.
const HEAD_NUMBERS: usize = 5;

// As many bytes as any text has.
pub const MAX_TEXT: usize = MAX_NUMBER * (HEAD_NUMBERS + MAX_PIXELS);

// The bytes of a head: depth, levels, width and height.
const HEAD: usize = 6;

// Writes a byte at a place of the text, and gives the place after it, as all that write here do. (A struct of the lent bytes and the place
// is no plainer: each clause would also say that it lends the same bytes on.)
fn put(text: &mut [u8], at: usize, byte: u8) -> usize
    requires { at < length text.old }
    ensures { Put (byte ∷ []) text.old at text.new result }
{
    text[at] = byte;
    at + 1
}

// Writes the digits of n: those of its tenth part, then the last one. (A write by the library's Display promises what it leaves where it
// answers Ok alone, and here each text is written whole.)
fn put_natural(text: &mut [u8], at: usize, n: u32) -> usize
    requires { at + length (natural n) ≤ length text.old }
    ensures { Put (natural n) text.old at text.new result }
{
    if n < 10 {
        return put(text, at, b'0' + (n as u8));
    }
    let next = put_natural(text, at, n / 10);
    put(text, next, b'0' + ((n % 10) as u8))
}

// Writes a number, of NUMBER_BYTES at most.
fn put_number(text: &mut [u8], at: usize, z: i32) -> usize
    requires { at + number_bytes ≤ length text.old }
    ensures { Put (decimal z) text.old at text.new result × (result ≤ at + number_bytes) }
{
    let n = z.unsigned_abs();
    if z < 0 {
        let next = put(text, at, b'-');
        return put_natural(text, next, n);
    }
    put_natural(text, at, n)
}

// Writes a line of numbers.
fn put_line(text: &mut [u8], at: usize, numbers: &[i32]) -> usize
    requires { (1 ≤ length numbers.now) × (at + max_number * length numbers.now ≤ length text.old) }
    ensures { Put (line numbers.now) text.old at text.new result × (result ≤ at + max_number * length numbers.now) }
{
    let last = numbers.len() - 1;
    let mut next = at;
    for z in &numbers[..last] {
        next = put_number(text, next, *z);
        next = put(text, next, b' ');
    }
    next = put_number(text, next, numbers[last]);
    put(text, next, b'\n')
}

// Writes the rows of a plane, one to a line.
fn put_rows(text: &mut [u8], at: usize, plane: &[i32], w: usize, h: usize) -> usize
    requires { (1 ≤ w) × (w * h ≤ length plane.now) × (at + max_number * (w * h) ≤ length text.old) }
    ensures { Put (row_lines w (plane_of w plane.now) 0 h) text.old at text.new result }
{
    let mut next = at;
    // r numbers a row, as `row_lines` of specs/Listing counts them
    for r in 0..h {
        let start = r * w;
        next = put_line(text, next, &plane[start..start + w]);
    }
    next
}

// Writes bytes as they are.
fn put_all(text: &mut [u8], at: usize, bytes: &[u8]) -> usize
    requires { at + length bytes.now ≤ length text.old }
    ensures { Put bytes.now text.old at text.new result }
{
    let next = at + bytes.len();
    text[at..next].copy_from_slice(bytes);
    next
}

// Writes the line of a refusal at the front of the text.
fn put_refused(text: &mut [u8], why: Refusal) -> usize
    requires { length refused_word + max_number ≤ length text.old }
    ensures { Put (refused_line (told_refusal why).0) text.old 0 text.new result }
{
    let next = put_all(text, 0, b"refused ");
    put_line(text, next, &[why.number() as i32])
}

// The pixels of an input that holds n of them and no more.
fn read_pixels(bytes: &[u8], pixels: &mut [u16], n: usize)
    requires { (length bytes.now ≡ head_bytes + 2 * n) × (n ≤ length pixels.old) }
    ensures { pixels.new ≡ over (copy_pixels bytes.now) pixels.old }
{
    for (i, p) in pixels[..n].iter_mut().enumerate() {
        *p = numbers::two(bytes[HEAD + 2 * i], bytes[HEAD + 2 * i + 1]);
    }
}

// What the head of an input says.
#[derive(Clone, Copy)]
struct Head {
    pub depth: u8,
    pub levels: u8,
    pub w: u16,
    pub h: u16,
}

// The head of an input that has a whole one.
fn head_of(bytes: &[u8]) -> Head
    requires { head_bytes ≤ length bytes.now }
    ensures { result ≡ head_in bytes.now }
{
    Head {
        depth: bytes[0],
        levels: bytes[1],
        w: numbers::two(bytes[2], bytes[3]),
        h: numbers::two(bytes[4], bytes[5]),
    }
}

// How many pixels there are: refusals 8 and 9, for admitted sides, and no more pixels than there is memory for.
fn size_right(w: usize, h: usize) -> Result<usize, Refusal>
    ensures { told result ≡ (side_answer w h then length_answer (w * h) max_pixels) then done (w * h) }
{
    sides_right(w, h)?;
    let n = w * h;
    slice_holds(n, MAX_PIXELS)?;
    Ok(n)
}

// The head of an input of a right form. All that is judged before the pixels' values: refusals 1, 4, 8, 9, 1 and 5, in that order.
fn form_of(bytes: &[u8]) -> Result<Head, Refusal>
    ensures { told result ≡ copy_form bytes.now then done (head_in bytes.now) }
{
    if bytes.len() < HEAD {
        return Err(Refusal::CutShort);
    }
    let head = head_of(bytes);
    if !limits_right(head.depth, head.levels) {
        return Err(Refusal::OutsideLimits);
    }
    let n = size_right(head.w as usize, head.h as usize)?;
    let body = bytes.len() - HEAD;
    if body < 2 * n {
        return Err(Refusal::CutShort);
    }
    if 2 * n < body {
        return Err(Refusal::TrailingBytes);
    }
    Ok(head)
}

// Writes the lines of a plane at the front of the text: the head, then the rows.
fn put_plane(text: &mut [u8], head: Head, plane: &[i32]) -> usize
    requires { (1 ≤ head.w) × (head.w * head.h ≤ length plane.now) × (max_number * head_numbers + max_number * (head.w * head.h) ≤ length text.old) }
    ensures { Put (head_text head ++ row_lines head.w (plane_of head.w plane.now) 0 head.h) text.old 0 text.new result }
{
    let numbers = [
        53,
        head.depth as i32,
        head.levels as i32,
        head.w as i32,
        head.h as i32,
    ];
    let next = put_line(text, 0, &numbers);
    put_rows(text, next, plane, head.w as usize, head.h as usize)
}

// The listing of an input of a right form.
fn list_picture(
    bytes: &[u8],
    head: Head,
    pixels: &mut [u16],
    plane: &mut [i32],
    work: &mut [i32],
    text: &mut [u8],
) -> usize
    requires { (head ≡ head_in bytes.now) × (copy_form bytes.now ≡ passed) × Memory pixels.old plane.old work.old text.old }
    ensures { Put (copy_text bytes.now) text.old 0 text.new result }
{
    let w = head.w as usize;
    let h = head.h as usize;
    let n = w * h;
    read_pixels(bytes, pixels, n);
    match reversible::forward(head.depth, head.levels, &pixels[..n], w, h, plane, work) {
        Err(why) => put_refused(text, why),
        Ok(()) => put_plane(text, head, plane),
    }
}

// The listing of any input, with memory for its pixels, plane and text.
fn list_into(
    bytes: &[u8],
    pixels: &mut [u16],
    plane: &mut [i32],
    work: &mut [i32],
    text: &mut [u8],
) -> usize
    requires { Memory pixels.old plane.old work.old text.old }
    ensures { Put (copy_text bytes.now) text.old 0 text.new result }
{
    match form_of(bytes) {
        Err(why) => put_refused(text, why),
        Ok(head) => list_picture(bytes, head, pixels, plane, work, text),
    }
}

// MAX_INPUT, tied to its definition: the program reads so many bytes and no more.
pub fn max_input() -> usize
    ensures { result ≡ max_input }
{
    MAX_INPUT
}

// Writes what the exact-copy program prints for an input over the front of the text, and gives its length. A text shorter than
// MAX_TEXT stays as it is.
pub fn listing(input: &[u8], text: &mut [u8]) -> usize
    ensures count { result ≡ length (listed input.now text.old) }
    ensures text { text.new ≡ over (listed input.now text.old) text.old }
    ensures within { result ≤ length text.old }
{
    if text.len() < MAX_TEXT {
        return 0;
    }
    let mut pixels = [0u16; MAX_PIXELS];
    let mut plane = [0i32; MAX_PIXELS];
    let mut work = [0i32; MAX_PIXELS];
    list_into(input, &mut pixels, &mut plane, &mut work, text)
}
