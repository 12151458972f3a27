//! The functions of `dcc` as C calls them: the library libdcc.a, whose header is include/dcc.h.
#![tactic(auto)]

ghost use Rattle.std.specs.Prelude.{◌≡◌};
ghost use Rattle.meaning.specs.Check.{check_of};
ghost use Rattle.runs.specs.Programs.{run_of};
ghost use Rattle.dcc.specs.Packed.{packed, packed_run};

/// The answer to a package text in one number: 16 bits for its number, 16 for each of its two places.
#[unsafe(no_mangle)]
pub extern "C" fn dcc_check(text: &[u8]) -> u64
    ensures { result ≡ packed (check_of text.now) }
{
    dcc::dcc_check(text)
}

/// The answer to a package text and a run text, with 16 bits for the length of the holdings that then stand at the buffer's start.
#[unsafe(no_mangle)]
pub extern "C" fn dcc_run(package: &[u8], script: &[u8], out: &mut [u8]) -> u64
    ensures answer { result ≡ packed_run (run_of «package».now script.now out.old) }
    ensures buffer { out.new ≡ (run_of «package».now script.now out.old).buffer }
{
    dcc::dcc_run(package, script, out)
}
