//! Visits of defined types.

ghost use Rattle.wac_component.specs.Key.{AllStand, type_keys};

use super::collections::Collections;
use std::alloc::{AllocError, Global};
use wac_component::{DefinedTypeId, Type, Types};
use wac_script_entries::find_type;
use wac_script_syntax::{ScriptError, read_number, read_type};

// Why a visitor stopped.
#[derive(Drop)]
enum Stop {
    // It was to fail at this call.
    Asked,
    // An allocation failed.
    Memory,
}

impl From<AllocError> for Stop {
    fn from(_error: AllocError) -> Stop {
        Stop::Memory
    }
}

// The calls of a visitor.
#[derive(Drop)]
struct Calls {
    // the index of each defined type on which it was called, after a space
    indices: String,
    // how many there were
    made: u64,
    // the call, from 1, at which it fails; none for 0
    fails_at: u64,
}

impl Calls {
    fn call(&mut self, id: DefinedTypeId) -> Result<(), Stop> {
        write!(self.indices, " {id}")?;
        self.made = self.made.saturating_add(1);
        if self.made == self.fails_at {
            return Err(Stop::Asked);
        }
        Ok(())
    }
}

/// Puts the answer to `visit` last: visits the defined types that a type refers to, with a visitor
/// that fails at a call, from 1, or at none for 0.
pub(crate) fn visit<'a>(
    alloc: Global,
    text: &mut String,
    collections: &Collections,
    words: &[&'a str],
) -> Result<(), ScriptError<'a>> {
    let [collection, ty, fails_at] = *words else {
        return Err(ScriptError::Misused("visit COLL TYPE K"));
    };
    let (number, ty) = (read_number(collection)?, read_type(ty)?);
    let fails_at = read_number(fails_at)?;
    let types = collections.get(number)?;
    match find_type(types, ty) {
        Ok(ty) => Ok(push_visit(alloc, text, types, ty, fails_at)?),
        Err(missing) => Err(ScriptError::NoEntry(missing)),
    }
}

fn push_visit(
    alloc: Global,
    text: &mut String,
    types: &Types,
    ty: Type,
    fails_at: u64,
) -> Result<(), AllocError>
    requires { AllStand types.now (type_keys ty) }
{
    let mut calls = Calls {
        indices: String::new(alloc),
        made: 0,
        fails_at,
    };
    let mut visitor = |_: &Types, id: DefinedTypeId| calls.call(id);
    let outcome = match ty.visit_defined_types(types, &mut visitor) {
        Ok(()) => "ok",
        Err(Stop::Asked) => "err",
        Err(Stop::Memory) => return Err(AllocError),
    };
    text.push_str(outcome)?;
    text.push_str(&calls.indices)
}
