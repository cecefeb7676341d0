//! A component that fits a target world.

use super::error::BenchError;
use super::measuring::Work;
use std::alloc::Global;
use wac_script_entries::add_line;
use wac_types::{TargetError, Type, Types, WorldId, validate_target};

/// A target world and the world of a component, in one collection.
#[derive(Drop)]
pub(crate) struct Worlds {
    types: Types,
    target: WorldId,
    component: WorldId,
}

// Adds n functions of a byte, a string and a value of the last defined type, and puts the words of
// imports, `m`, or exports, `e`, under `n0`, `n1` and so on last.
fn push_functions(
    alloc: Global,
    types: &mut Types,
    world: &mut String,
    part: &str,
    n: u32,
) -> Result<(), BenchError> {
    let last = types.defined_types().len().saturating_sub(1);
    let line = format!(in alloc; "func sync - a=u8 b=string c=d{last}")?;
    for i in 0..n {
        let func = types.func_types().len();
        add_line(alloc, types, &line)?;
        world.push_str(&format!(in alloc; " {part}:n{i}=F:fn{func}")?)?;
    }
    Ok(())
}

// Adds n instances that export a function.
fn add_instances(alloc: Global, types: &mut Types, n: u32) -> Result<(), BenchError> {
    for _ in 0..n {
        let func = types.func_types().len();
        add_line(alloc, types, "func sync -")?;
        add_line(alloc, types, &format!(in alloc; "iface - e:f=F:fn{func}")?)?;
    }
    Ok(())
}

// Puts the words of imports, `m`, or exports, `e`, last, of n instances from this interface
// on, under names of this version.
fn push_instances(
    alloc: Global,
    world: &mut String,
    part: &str,
    version: &str,
    first: usize,
    n: u32,
) -> Result<(), BenchError> {
    for i in 0..n {
        let instance = first.saturating_add(i as usize);
        world.push_str(&format!(in alloc; " {part}:a:b/n{i}@{version}=I:i{instance}")?)?;
    }
    Ok(())
}

// Adds a world of n imports and n exports, all functions, over a list of their own.
fn add_plain(alloc: Global, types: &mut Types, n: u32) -> Result<(), BenchError> {
    add_line(alloc, types, "def list u8")?;
    let mut world = String::from_str(alloc, "world -")?;
    push_functions(alloc, types, &mut world, "m", n)?;
    push_functions(alloc, types, &mut world, "e", n)?;
    add_line(alloc, types, &world)?;
    Ok(())
}

// Adds n instances, and a world that imports and exports them under names of this version.
fn add_versioned(
    alloc: Global,
    types: &mut Types,
    version: &str,
    n: u32,
) -> Result<(), BenchError> {
    let first = types.interfaces().len();
    add_instances(alloc, types, n)?;
    let mut world = String::from_str(alloc, "world -")?;
    push_instances(alloc, &mut world, "m", version, first, n)?;
    push_instances(alloc, &mut world, "e", version, first, n)?;
    add_line(alloc, types, &world)?;
    Ok(())
}

impl Worlds {
    /// Functions.
    pub(crate) fn plain(alloc: Global, n: u32) -> Result<Worlds, BenchError> {
        let mut types = Types::new(alloc, 1);
        add_plain(alloc, &mut types, n)?;
        add_plain(alloc, &mut types, n)?;
        Worlds::of(types)
    }

    /// Instances, with greater versions in the target world.
    pub(crate) fn versioned(alloc: Global, n: u32) -> Result<Worlds, BenchError> {
        let mut types = Types::new(alloc, 1);
        add_versioned(alloc, &mut types, "1.1.0", n)?;
        add_versioned(alloc, &mut types, "1.0.0", n)?;
        Worlds::of(types)
    }

    // The first two worlds of a collection.
    fn of(types: Types) -> Result<Worlds, BenchError> {
        match (types.world_at(0), types.world_at(1)) {
            (Some(target), Some(component)) => Ok(Worlds {
                types,
                target,
                component,
            }),
            _ => Err(BenchError::Input),
        }
    }
}

impl Work for Worlds {
    fn run(&mut self, alloc: Global, times: u64) -> Result<(), BenchError> {
        let target = Type::World(self.target);
        let component = Type::World(self.component);
        if !self.types.contains(target) || !self.types.contains(component) {
            return Err(BenchError::Input);
        }
        for _ in 0..times {
            match validate_target(alloc, &self.types, self.target, self.component) {
                Ok(Ok(())) => {}
                Err(TargetError::Memory) => return Err(BenchError::Memory),
                _ => return Err(BenchError::Answer),
            }
        }
        Ok(())
    }
}
