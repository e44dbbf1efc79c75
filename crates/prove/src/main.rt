//! Reads a sheet from standard input, 2,563 bytes at most, and prints its listing.
#![tactic(auto)]

use listing::input::read_full;
use listing::program::program;
use std::io;
use std::io::Write;

fn main(rt: HostRuntime) -> io::Result<()> {
    let mut input = [0u8; 2563];
    let n = read_full(&mut rt.stdin(), &mut input)?;
    rt.stdout().write_all(program(&input[..n]).as_bytes())
}
