// Reads a share sheet from the standard input, and prints the verdict on it.
#![tactic(auto)]

use reader::verdict::{ENOUGH, verdict};
use std::io;
use std::io::Read;
use std::process::ExitCode;

// No more is read, or kept, than decides the verdict.
fn main(rt: HostRuntime) -> io::Result<ExitCode> {
    let mut bytes = Vec::new(rt.alloc());
    if let Err(error) = rt.stdin().take(ENOUGH).read_to_end(&mut bytes) {
        eprintln!(rt; "sheetcheck: the input cannot be read: {error}")?;
        return Ok(ExitCode::FAILURE);
    }
    rt.print(verdict(rt.alloc(), &bytes)?)?;
    Ok(ExitCode::SUCCESS)
}
