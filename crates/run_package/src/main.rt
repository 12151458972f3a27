//! run: reads a package and a run text from standard input, and prints the answer and the holdings.
#![tactic(auto)]

use std::io::{self, Read, Write};

fn main(rt: HostRuntime) -> io::Result<()> {
    let mut input = [0u8; 65537];
    let mut out = [0u8; 7213];
    let n = io::copy(&mut rt.reader().take(65537), &mut &mut input[..])?.min(65537) as usize;
    let k = run_prints::run_output(&input[..n], &mut out);
    rt.stdout().write_all(&out[..k])
}
