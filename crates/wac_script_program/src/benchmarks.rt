//! Benchmarks of the library: each builds its input, and then measures how long its work takes.

mod benchmark;
mod chains;
mod error;
mod imports;
mod instances;
mod measuring;
mod name_maps;
mod running;
mod worlds;

pub use benchmark::Benchmark;
pub use error::BenchError;
pub use running::bench;
