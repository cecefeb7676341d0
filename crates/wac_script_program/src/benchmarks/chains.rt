//! Chains of types, each of which stands in the next one.

use super::error::BenchError;
use super::instances::{AskAfresh, Side, ask, can_be_asked};
use super::measuring::Work;
use std::alloc::Global;
use std::collections::HashSet;
use wac_script_entries::add_line;
use wac_types::{ItemKind, Types, ValueType};

// A value of the last defined type of a collection.
fn last_value(types: Types) -> Result<Side, BenchError> {
    let last = types.defined_types().len().saturating_sub(1);
    match types.defined_type_at(last) {
        Some(id) => Ok(Side {
            types,
            item: ItemKind::Value(ValueType::Defined(id)),
        }),
        None => Err(BenchError::Input),
    }
}

// A value of the nth tuple, in a collection of this number.
fn tuple_side(alloc: Global, number: u64, n: u32) -> Result<Side, BenchError> {
    let mut types = Types::new(alloc, number);
    add_line(alloc, &mut types, "def tuple u8 u8")?;
    for i in 1..n {
        let last = i.saturating_sub(1);
        let line = format!(in alloc; "def tuple d{last} d{last}")?;
        add_line(alloc, &mut types, &line)?;
    }
    last_value(types)
}

/// Two values of the nth tuple, about which a checker is asked with an empty cache each time.
pub(crate) fn tuples(alloc: Global, n: u32) -> Result<AskAfresh, BenchError> {
    Ok(AskAfresh {
        left: tuple_side(alloc, 1, n)?,
        right: tuple_side(alloc, 2, n)?,
    })
}

// The nth instance, in a collection of this number.
fn instance_side(alloc: Global, number: u64, n: u32) -> Result<Side, BenchError> {
    let mut types = Types::new(alloc, number);
    add_line(alloc, &mut types, "func sync -")?;
    add_line(alloc, &mut types, "iface - e:f=F:fn0")?;
    for i in 1..n {
        let last = i.saturating_sub(1);
        let line = format!(in alloc; "iface - e:a=I:i{last} e:b=I:i{last}")?;
        add_line(alloc, &mut types, &line)?;
    }
    let last = types.interfaces().len().saturating_sub(1);
    match types.interface_at(last) {
        Some(id) => Ok(Side {
            types,
            item: ItemKind::Instance(id),
        }),
        None => Err(BenchError::Input),
    }
}

/// Two nth instances, about which a checker is asked with an empty cache each time.
pub(crate) fn instances(alloc: Global, n: u32) -> Result<AskAfresh, BenchError> {
    Ok(AskAfresh {
        left: instance_side(alloc, 1, n)?,
        right: instance_side(alloc, 2, n)?,
    })
}

// A list of lists, n deep, of these elements.
fn list_side(alloc: Global, number: u64, element: &str, n: u32) -> Result<Side, BenchError> {
    let mut types = Types::new(alloc, number);
    add_line(alloc, &mut types, &format!(in alloc; "def list {element}")?)?;
    for i in 1..n {
        let last = i.saturating_sub(1);
        add_line(alloc, &mut types, &format!(in alloc; "def list d{last}")?)?;
    }
    last_value(types)
}

/// Lists of lists with other elements, about which a checker is asked
/// with an empty cache each time.
#[derive(Drop)]
pub(crate) struct Refusals {
    left: Side,
    right: Side,
}

impl Refusals {
    /// Lists that are nested n deep.
    pub(crate) fn new(alloc: Global, n: u32) -> Result<Refusals, BenchError> {
        Ok(Refusals {
            left: list_side(alloc, 1, "u8", n)?,
            right: list_side(alloc, 2, "s8", n)?,
        })
    }
}

impl Work for Refusals {
    fn run(&mut self, alloc: Global, times: u64) -> Result<(), BenchError> {
        if !can_be_asked(&self.left, &self.right) {
            return Err(BenchError::Input);
        }
        for _ in 0..times {
            let mut cache = HashSet::new(alloc);
            match ask(alloc, &mut cache, &self.left, &self.right) {
                Err(BenchError::Answer) => {}
                Err(error) => return Err(error),
                Ok(()) => return Err(BenchError::Answer),
            }
        }
        Ok(())
    }
}
