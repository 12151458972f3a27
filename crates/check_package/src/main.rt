//! check: reads a package from standard input and prints its answer.
#![tactic(auto)]

use std::io::{self, Read, Write};

fn main(rt: HostRuntime) -> io::Result<()> {
    let mut input = [0u8; 65537];
    let mut out = [0u8; 13];
    let n = io::copy(&mut rt.reader().take(65537), &mut &mut input[..])?.min(65537) as usize;
    let k = programs::check_output(&input[..n], &mut out);
    rt.stdout().write_all(&out[..k])
}
