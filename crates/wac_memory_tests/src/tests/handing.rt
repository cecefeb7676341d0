//! Calls that hand in items of two collections.

ghost use Rattle.std.specs.Prelude.{◌≡◌, [], ◌∷◌, ◌++◌, Some, IfOk, OnOk};
ghost use Rattle.wac_types.specs.HandedIn.{handed_in};
ghost use Rattle.wac_memory_tests.specs.Calls.{AreCallsOf, collection_at};

use super::trial::item;
use std::alloc::{AllocError, Global};
use wac_types::{Call, ItemKind, Types};

// Why calls weren't made.
#[derive(Drop)]
pub(crate) enum Stop {
    // A request was refused.
    Refused,
    // There is no such item.
    Missing,
}

impl Stop {
    pub(crate) fn is_refusal(&self) -> bool {
        matches!(self, Stop::Refused)
    }
}

impl From<AllocError> for Stop {
    fn from(_error: AllocError) -> Stop {
        Stop::Refused
    }
}

// The name under which an item is handed in, the number of its collection, and the word that names
// it there.
pub(crate) type Handed = (&'static str, u64, &'static str);

// The collection of a number, 1 or 2.
fn numbered<'a>(first: &'a Types, second: &'a Types, number: u64) -> &'a Types
    requires first { first.now.number ≡ 1 }
    requires second { second.now.number ≡ 2 }
    ensures { collection_at first.now second.now result.now.number ≡ Some result.now }
{
    if number == 2 { second } else { first }
}

// Puts a call last.
fn push_call<'a>(
    calls: &mut Vec<Call<'a>>,
    name: &'a str,
    types: &'a Types,
    kind: ItemKind,
) -> Result<(), AllocError>
    ensures { OnOk result (handed_in calls.new.items ≡ handed_in calls.old.items ++ (record { name = name.now; types = types.now; kind = kind }) ∷ []) }
{
    match calls.push(Call { name, types, kind }) {
        Ok(()) => Ok(()),
        Err(_) => Err(AllocError),
    }
}

// Puts a call last that hands in an item.
fn push_handed<'a>(
    calls: &mut Vec<Call<'a>>,
    first: &'a Types,
    second: &'a Types,
    handed: Handed,
) -> Result<(), Stop>
    requires first { first.now.number ≡ 1 }
    requires second { second.now.number ≡ 2 }
    requires calls { AreCallsOf first.now second.now (handed_in calls.old.items) }
    ensures { OnOk result (AreCallsOf first.now second.now (handed_in calls.new.items)) }
{
    let (name, number, word) = handed;
    let types = numbered(first, second, number);
    let Ok(kind) = item(types, word) else {
        return Err(Stop::Missing);
    };
    push_call(calls, name, types, kind)?;
    Ok(())
}

// The calls that hand in these items.
pub(crate) fn calls_of<'a>(
    alloc: Global,
    first: &'a Types,
    second: &'a Types,
    handed: &[Handed],
) -> Result<Vec<Call<'a>>, Stop>
    requires first { first.now.number ≡ 1 }
    requires second { second.now.number ≡ 2 }
    ensures { IfOk result (λ calls. AreCallsOf first.now second.now (handed_in calls.items)) }
{
    let mut calls = Vec::new(alloc);
    for one in handed {
        push_handed(&mut calls, first, second, *one)?;
    }
    Ok(calls)
}
