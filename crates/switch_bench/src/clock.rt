//! The processor's time.

use std::io;
use std::time::CpuClock;

/// The processor time that the program has used, in nanoseconds.
pub(crate) fn now(rt: &impl CpuClock) -> io::Result<u64> {
    Ok(u64::try_from(rt.process_cpu_time()?.as_nanos()).unwrap_or(u64::MAX))
}
