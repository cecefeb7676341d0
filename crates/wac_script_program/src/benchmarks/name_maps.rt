//! Maps of names with versions.

use super::error::BenchError;
use super::measuring::Work;
use std::alloc::Global;
use wac_types::{NameError, NameMap, NameMapNoIntern};

// Names of this version.
fn names(alloc: Global, version: &str, n: u32) -> Result<Vec<String>, BenchError> {
    let mut names = Vec::new(alloc);
    for i in 0..n {
        names.push(format!(in alloc; "a:b/n{i}@{version}")?)?;
    }
    Ok(names)
}

// A map of the names, each with its place.
fn map_of(alloc: Global, names: &[String]) -> Result<NameMap<String, usize>, BenchError> {
    let mut map = NameMap::new(alloc);
    for (i, name) in names.iter().enumerate() {
        match map.insert(name.as_str(), &mut NameMapNoIntern, false, i) {
            Ok(_key) => {}
            Err(NameError::Twice { name: _ }) => return Err(BenchError::Answer),
            Err(NameError::Memory) => return Err(BenchError::Memory),
        }
    }
    Ok(map)
}

/// Names that are put into a new map.
#[derive(Drop)]
pub(crate) struct Insertions {
    names: Vec<String>,
}

impl Insertions {
    /// n names.
    pub(crate) fn new(alloc: Global, n: u32) -> Result<Insertions, BenchError> {
        Ok(Insertions {
            names: names(alloc, "1.0.0", n)?,
        })
    }
}

impl Work for Insertions {
    fn run(&mut self, alloc: Global, times: u64) -> Result<(), BenchError> {
        for _ in 0..times {
            let map = map_of(alloc, &self.names)?;
            if map.raw_iter().len() != self.names.len() {
                return Err(BenchError::Answer);
            }
        }
        Ok(())
    }
}

/// A map, and names whose values are looked for.
#[derive(Drop)]
pub(crate) struct Gets {
    map: NameMap<String, usize>,
    asked: Vec<String>,
}

impl Gets {
    /// n names that are there.
    pub(crate) fn exact(alloc: Global, n: u32) -> Result<Gets, BenchError> {
        let asked = names(alloc, "1.0.0", n)?;
        let map = map_of(alloc, &asked)?;
        Ok(Gets { map, asked })
    }

    /// n names with a greater version than those that are there.
    pub(crate) fn on_tracks(alloc: Global, n: u32) -> Result<Gets, BenchError> {
        let map = map_of(alloc, &names(alloc, "1.0.0", n)?)?;
        let asked = names(alloc, "1.1.0", n)?;
        Ok(Gets { map, asked })
    }

    // Looks for the value of each name.
    fn get_all(&self) -> Result<(), BenchError> {
        for (i, name) in self.asked.iter().enumerate() {
            if self.map.get(name.as_str(), &NameMapNoIntern)?.copied() != Some(i) {
                return Err(BenchError::Answer);
            }
        }
        Ok(())
    }
}

impl Work for Gets {
    fn run(&mut self, _alloc: Global, times: u64) -> Result<(), BenchError> {
        for _ in 0..times {
            self.get_all()?;
        }
        Ok(())
    }
}
