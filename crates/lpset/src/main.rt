// Runs an LPSYS request, the second argument in whole MHz, on the head in the file that the first
// argument names, and writes the journal's entries, the answer and the LPSYS HCLK that the request
// leaves to standard output. The file stays as it is.
#![tactic(auto)]

mod report;
mod request;

use std::env::{Env, FillError};
use std::io;
use time::Megahertz;

fn set<R: Print>(rt: &R, buffer: &mut [u8], freq: Megahertz) -> io::Result<()> {
    let mut journal = [0u32; call::JOURNAL_WORDS];
    let answer = lpsys_request::frequency::config_lpsys_hclk_mhz(buffer, freq, &mut journal);
    let entries = call::answer::entries(answer);
    report::steps(rt, &journal[..entries])?;
    report::result(rt, answer, readings::hclk::lpsys_hclk(buffer))
}

// Whether the first argument is given.
fn has_argument<R: Env>(rt: &R) -> bool {
    !matches!(rt.arg(1, &mut [0u8; 0]), Err(FillError::NotPresent))
}

fn main(rt: HostRuntime) -> io::Result<()> {
    if !has_argument(&rt) {
        return report::usage(&rt);
    }
    let mut buffer = [0u8; 4096];
    let count = text::file::read(&rt, 1, &mut buffer).unwrap_or(0);
    set(&rt, &mut buffer[..count], request::read(&rt))
}
