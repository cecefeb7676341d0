//! Measures how long work takes.

use super::error::BenchError;
use std::alloc::Global;
use std::time::{Clock, Instant};

// A sample is at least this long, if it takes no more runs than the greatest number of them.
const SAMPLE_NANOS: u64 = 20_000_000;

// How often the number of runs in a sample is doubled at most.
const DOUBLINGS: u32 = 20;

// How many samples the median is taken of.
const SAMPLES: u32 = 7;

/// Work whose input is built.
pub(crate) trait Work {
    /// Does the work so many times. Each answer is looked at.
    fn run(&mut self, alloc: Global, times: u64) -> Result<(), BenchError>;
}

/// How long samples of work took.
#[derive(Clone, Copy)]
pub(crate) struct Measured {
    /// How many runs a sample has.
    pub(crate) times: u64,
    /// The median of the samples, in nanoseconds.
    pub(crate) nanos: u64,
}

// How long so many runs take, in nanoseconds.
fn timed<W: Work, C: Clock>(
    clock: &C,
    alloc: Global,
    work: &mut W,
    times: u64,
) -> Result<u64, BenchError> {
    let start = Instant::now(clock)?;
    work.run(alloc, times)?;
    let nanos = start.elapsed(clock)?.as_nanos();
    Ok(u64::try_from(nanos).unwrap_or(u64::MAX))
}

// How many runs make a sample that is long enough.
fn sample_runs<W: Work, C: Clock>(
    clock: &C,
    alloc: Global,
    work: &mut W,
) -> Result<u64, BenchError> {
    let mut times = 1u64;
    for _ in 0..DOUBLINGS {
        if timed(clock, alloc, work, times)? >= SAMPLE_NANOS {
            break;
        }
        times = times.saturating_mul(2);
    }
    Ok(times)
}

/// Measures work.
pub(crate) fn measure<W: Work, C: Clock>(
    clock: &C,
    alloc: Global,
    work: &mut W,
) -> Result<Measured, BenchError> {
    let times = sample_runs(clock, alloc, work)?;
    let mut samples = Vec::new(alloc);
    for _ in 0..SAMPLES {
        samples.push(timed(clock, alloc, work, times)?)?;
    }
    samples.sort_unstable();
    let nanos = samples.get(samples.len() / 2).copied().unwrap_or(0);
    Ok(Measured { times, nanos })
}
