// The tag program: reads a tag and a table's bytes from standard input, and writes the tag's value as it is, or nothing where it is refused.
#![tactic(auto)]

use std::io;
use std::io::Write;

// As many bytes of input as decide: a tag, the bytes of a table of all levels, and one byte more.
const MAX_INPUT: usize = 1 + table_bytes::MAX_BYTES + 1;

fn main(rt: HostRuntime) -> io::Result<()> {
    let mut input = [0u8; MAX_INPUT];
    let n = reading::read_full(&mut rt.stdin(), &mut input)?;
    let [tag, table @ ..] = &input[..n] else {
        return Ok(());
    };
    rt.stdout().write_all(table_bytes::value_of(table, *tag))
}
