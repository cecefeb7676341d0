//! Runs a benchmark.

use super::benchmark::Benchmark;
use super::chains::{Refusals, instances, tuples};
use super::error::BenchError;
use super::imports::{Growing, TwoVersions};
use super::instances::{AskAfresh, AskAgain};
use super::measuring::{Measured, measure};
use super::name_maps::{Gets, Insertions};
use super::worlds::Worlds;
use std::alloc::{AllocError, Global};
use std::time::Clock;

// Builds the input of a benchmark, and measures its work.
fn measured<C: Clock>(
    clock: &C,
    alloc: Global,
    benchmark: Benchmark,
    n: u32,
) -> Result<Measured, BenchError> {
    match benchmark {
        Benchmark::Instances => measure(clock, alloc, &mut AskAfresh::instances(alloc, n)?),
        Benchmark::AskedAgain => measure(clock, alloc, &mut AskAgain::instances(alloc, n)?),
        Benchmark::TupleChain => measure(clock, alloc, &mut tuples(alloc, n)?),
        Benchmark::InstanceChain => measure(clock, alloc, &mut instances(alloc, n)?),
        Benchmark::TwoVersions => measure(clock, alloc, &mut TwoVersions::new(alloc, n)?),
        Benchmark::ValidatePlain => measure(clock, alloc, &mut Worlds::plain(alloc, n)?),
        Benchmark::ValidateVersions => measure(clock, alloc, &mut Worlds::versioned(alloc, n)?),
        Benchmark::Insert => measure(clock, alloc, &mut Insertions::new(alloc, n)?),
        Benchmark::GetExact => measure(clock, alloc, &mut Gets::exact(alloc, n)?),
        Benchmark::GetTrack => measure(clock, alloc, &mut Gets::on_tracks(alloc, n)?),
        Benchmark::RefusalAtDepth => measure(clock, alloc, &mut Refusals::new(alloc, n)?),
        Benchmark::GrowingImport => measure(clock, alloc, &mut Growing::plain(alloc, n)?),
        Benchmark::GrowingIdentified => measure(clock, alloc, &mut Growing::identified(alloc, n)?),
    }
}

// A figure: whole nanoseconds for one operation and tenths of one, and nanoseconds for one run.
#[derive(Clone, Copy)]
struct Figure {
    whole: u64,
    tenths: u64,
    total: u64,
}

// The figure of runs of so many operations each.
fn figure_of(measured: Measured, operations: u64) -> Figure {
    let total = measured.nanos / measured.times.max(1);
    let counted = measured.times.saturating_mul(operations).max(1);
    let tenths = measured.nanos.saturating_mul(10) / counted;
    Figure {
        whole: tenths / 10,
        tenths: tenths % 10,
        total,
    }
}

// The line of a figure.
fn line(
    alloc: Global,
    name: &str,
    n: u32,
    operations: u64,
    figure: Figure,
) -> Result<String, AllocError> {
    let whole = figure.whole;
    let tenths = figure.tenths;
    let total = figure.total;
    format!(in alloc; "bench {name} n={n} ops={operations} ns/op={whole}.{tenths} total_ns={total}")
}

/// The line of the figure of the benchmark of this name at this size: `bench NAME n=N
/// ops=OPS ns/op=.. total_ns=..`, of which the last is how long one run took. None
/// where no benchmark has the name.
///
/// The figure is the median of some samples, each of as many runs as take some time. `Answer` comes
/// where a run gave another answer than its work has.
pub fn bench<C: Clock>(
    clock: &C,
    alloc: Global,
    name: &str,
    n: u32,
) -> Result<Option<String>, BenchError> {
    let Some(benchmark) = Benchmark::named(name) else {
        return Ok(None);
    };
    let measured = measured(clock, alloc, benchmark, n)?;
    let operations = benchmark.operations(n);
    let figure = figure_of(measured, operations);
    let text = line(alloc, benchmark.name(), n, operations, figure)?;
    Ok(Some(text))
}
