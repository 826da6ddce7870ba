//! A whole run of the program: standard input in, the report out.
use crate::report::report;
use recording::makes::RECORD;
use std::io::Read;
use timeline::sample::MOST_SAMPLES;

// The most bytes that are read: the records of a full table and one more, so that too many are
// noticed.
const MOST: u64 = RECORD as u64 * (MOST_SAMPLES as u64 + 1);

/// Reads a recording in whole units from standard input and prints its report. Bytes beyond 49,164
/// are not read. The error is one of input, output or the heap.
pub fn run(rt: &HostRuntime) -> anyhow::Result<()> {
    let mut bytes = Vec::new(rt.alloc());
    let _ = rt.stdin().take(MOST).read_to_end(&mut bytes)?;
    let text = report(rt.alloc(), bytes.as_slice())?;
    rt.print(text.as_str())?;
    Ok(())
}
