//! A whole run of the program: a script on standard input, its answers on standard output.
use crate::replay::replay;
use std::io::Read;

// The most bytes of a script: enough for the load of a full table and a hundred thousand further
// lines.
const MOST: u64 = 4 * 1024 * 1024;

/// Reads a script from standard input and prints the answers to its lines. Bytes that are not UTF-8
/// are read as U+FFFD, which occurs in no verb, number or code. The error is a script of more than
/// 4,194,304 bytes, or one of input, output or the heap.
pub fn run(rt: &HostRuntime) -> anyhow::Result<()> {
    let mut bytes = Vec::new(rt.alloc());
    let read = rt.stdin().take(MOST + 1).read_to_end(&mut bytes)?;
    anyhow::ensure!(
        read as u64 <= MOST,
        "the script is longer than {MOST} bytes"
    );
    let script = String::from_utf8_lossy(rt.alloc(), bytes.as_slice())?;
    let text = replay(rt.alloc(), script.as_str())?;
    rt.print(text.as_str())?;
    Ok(())
}
