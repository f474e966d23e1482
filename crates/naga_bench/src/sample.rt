//! The result of a run of a workload.
use crate::fault::Fault;
use std::time::{Duration, Instant};

/// The result of a run of a workload.
#[derive(Clone, Copy)]
pub struct Sample {
    /// The number of operations that were timed.
    pub operations: u64,
    /// A checksum of what they returned and what they left.
    pub checksum: u64,
    /// The time that they took together.
    time: Duration,
}

/// Returns the time before a workload, or `None` if the clock cannot be read.
pub fn now(rt: &HostRuntime) -> Option<Instant> {
    Instant::now(rt).ok()
}

/// Returns the time since `start`, or `None` if the clock cannot be read.
pub fn since(rt: &HostRuntime, start: Option<Instant>) -> Option<Duration> {
    match start {
        Some(start) => start.elapsed(rt).ok(),
        None => None,
    }
}

impl Sample {
    /// Creates the result of a run from the number of operations, what they returned, a checksum of what they left, and
    /// their time. Returns `Err` if they failed, or if there is no time.
    pub fn of(
        operations: u32,
        given: Result<u64, Fault>,
        left: u64,
        time: Option<Duration>,
    ) -> Result<Self, Fault> {
        match (given, time) {
            (Ok(sum), Some(time)) => Ok(Sample {
                operations: operations as u64,
                checksum: sum.wrapping_mul(31).wrapping_add(left),
                time,
            }),
            (Err(fault), _) => Err(fault),
            (Ok(_), None) => Err(Fault::System),
        }
    }

    /// Returns whichever of the two results took less time.
    pub fn quicker(self, other: Self) -> Self {
        if other.time < self.time { other } else { self }
    }

    /// Returns the time per operation, in hundredths of a nanosecond.
    pub fn hundredths_an_operation(&self) -> u128 {
        let hundredths = self.time.as_nanos().saturating_mul(100);
        hundredths.checked_div(self.operations as u128).unwrap_or(0)
    }
}
