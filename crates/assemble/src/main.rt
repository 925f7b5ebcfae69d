// Reads a shader text from standard input and prints its program words, or why it is refused.
#![tactic(auto)]

mod report;

use report::{Failure, report_on};
use std::io::{Read, Write};
use std::process::ExitCode;

fn main(rt: HostRuntime) -> anyhow::Result<ExitCode> {
    let heap = rt.alloc();
    let mut text = Vec::new(heap);
    rt.stdin().read_to_end(&mut text)?;
    match report_on(heap, text.as_slice()) {
        Ok(lines) => {
            rt.stdout().write_all(lines.as_slice())?;
            Ok(ExitCode::SUCCESS)
        }
        Err(Failure::Refused(line)) => {
            rt.stdout().write_all(line.as_bytes())?;
            Ok(ExitCode::FAILURE)
        }
        Err(Failure::Memory(error)) => Err(error.into()),
    }
}
