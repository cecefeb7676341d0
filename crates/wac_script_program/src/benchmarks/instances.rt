//! Two items in two collections, of which one is to fit where the other is asked for.

ghost use Rattle.std.specs.Prelude.{IsTrue};
ghost use Rattle.wac_script_program.specs.Asking.{CanBeAsked};

use super::error::BenchError;
use super::measuring::Work;
use std::alloc::Global;
use std::collections::HashSet;
use wac_script_entries::add_line;
use wac_types::{ItemKind, SubtypeChecker, SubtypeError, Types};

/// A function of a byte, a string and a value of the first defined type.
const FUNC_LINE: &str = "func sync - a=u8 b=string c=d0";

/// An item and its collection.
#[derive(Drop)]
pub(crate) struct Side {
    /// The collection.
    pub(crate) types: Types,
    /// The item.
    pub(crate) item: ItemKind,
}

// An instance in a collection of this number.
fn instance_side(alloc: Global, number: u64, n: u32) -> Result<Side, BenchError> {
    let mut types = Types::new(alloc, number);
    add_line(alloc, &mut types, "def list u8")?;
    let mut interface = String::from_str(alloc, "iface -")?;
    for i in 0..n {
        add_line(alloc, &mut types, FUNC_LINE)?;
        interface.push_str(&format!(in alloc; " e:f{i}=F:fn{i}")?)?;
    }
    add_line(alloc, &mut types, &interface)?;
    match types.interface_at(0) {
        Some(id) => Ok(Side {
            types,
            item: ItemKind::Instance(id),
        }),
        None => Err(BenchError::Input),
    }
}

/// Whether the left item fits where the right one is asked for: `Answer` where it doesn't, and
/// `Memory` where an allocation fails.
pub(crate) fn ask(
    alloc: Global,
    cache: &mut HashSet<(ItemKind, ItemKind)>,
    left: &Side,
    right: &Side,
) -> Result<(), BenchError>
    requires { CanBeAsked left.now.types left.now.item right.now.types right.now.item }
{
    let mut checker = SubtypeChecker::new(cache);
    match checker.is_subtype(alloc, left.item, &left.types, right.item, &right.types) {
        Ok(()) => Ok(()),
        Err(SubtypeError::Memory) => Err(BenchError::Memory),
        Err(_) => Err(BenchError::Answer),
    }
}

/// Whether a checker may be asked about the two.
pub(crate) fn can_be_asked(left: &Side, right: &Side) -> bool
    ensures { IsTrue result → CanBeAsked left.now.types left.now.item right.now.types right.now.item }
{
    left.types.number() != right.types.number()
        && left.types.contains_item(left.item)
        && right.types.contains_item(right.item)
}

// Asks so many times, with this cache each time.
fn ask_again(
    alloc: Global,
    cache: &mut HashSet<(ItemKind, ItemKind)>,
    left: &Side,
    right: &Side,
    times: u64,
) -> Result<(), BenchError> {
    if !can_be_asked(left, right) {
        return Err(BenchError::Input);
    }
    for _ in 0..times {
        ask(alloc, cache, left, right)?;
    }
    Ok(())
}

/// Two items, about which a checker is asked with an empty cache each time.
#[derive(Drop)]
pub(crate) struct AskAfresh {
    pub(crate) left: Side,
    pub(crate) right: Side,
}

impl AskAfresh {
    /// Two instances of the same type, with n functions.
    pub(crate) fn instances(alloc: Global, n: u32) -> Result<AskAfresh, BenchError> {
        Ok(AskAfresh {
            left: instance_side(alloc, 1, n)?,
            right: instance_side(alloc, 2, n)?,
        })
    }
}

impl Work for AskAfresh {
    fn run(&mut self, alloc: Global, times: u64) -> Result<(), BenchError> {
        if !can_be_asked(&self.left, &self.right) {
            return Err(BenchError::Input);
        }
        for _ in 0..times {
            let mut cache = HashSet::new(alloc);
            ask(alloc, &mut cache, &self.left, &self.right)?;
        }
        Ok(())
    }
}

/// Two items, about which a checker is asked with one cache, which has them.
#[derive(Drop)]
pub(crate) struct AskAgain {
    left: Side,
    right: Side,
    cache: HashSet<(ItemKind, ItemKind)>,
}

impl AskAgain {
    /// Two instances of the same type, with n functions.
    pub(crate) fn instances(alloc: Global, n: u32) -> Result<AskAgain, BenchError> {
        let mut work = AskAgain {
            left: instance_side(alloc, 1, n)?,
            right: instance_side(alloc, 2, n)?,
            cache: HashSet::new(alloc),
        };
        work.run(alloc, 1)?;
        Ok(work)
    }
}

impl Work for AskAgain {
    fn run(&mut self, alloc: Global, times: u64) -> Result<(), BenchError> {
        ask_again(alloc, &mut self.cache, &self.left, &self.right, times)
    }
}
