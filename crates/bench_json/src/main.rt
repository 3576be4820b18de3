//! Reads a JSON text from standard input as `serde_json` does, and nothing more: what a benchmark of the reading of
//! cases is compared with. The status is 0 for a text that is JSON, 3 for one that is not, 4 where the input failed
//! or memory could not be had.
#![tactic(auto)]

use dcr_base::{StdSource, read_all};
use serde_json::Value;
use std::process::ExitCode;

// More bytes than any case has.
const MAX_BYTES: usize = 33_554_432;

fn main(rt: HostRuntime) -> ExitCode {
    let mut input = StdSource::new(rt.reader());
    let Ok(bytes) = read_all(rt.alloc(), &mut input, MAX_BYTES) else {
        return ExitCode::from(4);
    };
    match Value::from_slice(rt.alloc(), &bytes) {
        Ok(_) => ExitCode::from(0),
        Err(_) => ExitCode::from(3),
    }
}
