// The exact-copy program: reads a picture from standard input, and writes the listing of its plane, or why it is refused.
#![tactic(auto)]

use std::io;
use std::io::Write;

fn main(rt: HostRuntime) -> io::Result<()> {
    let mut input = [0u8; listing::MAX_INPUT];
    let n = reading::read_full(&mut rt.stdin(), &mut input)?;
    let mut text = [0u8; listing::MAX_TEXT];
    let length = listing::listing(&input[..n], &mut text);
    rt.stdout().write_all(&text[..length])
}
