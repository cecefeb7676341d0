//! What trials of calls come to.

ghost use Rattle.std.specs.Prelude.{IfOk};
ghost use Rattle.wac_types.specs.Key.{AllStand, item_keys};

use std::alloc::Global;
use std::fmt::Debug;
use wac_script_entries::find_item;
use wac_script_syntax::{ScriptError, read_item};
use wac_test_tools::{Missing, debugs};
use wac_types::{ItemKind, Types};

// What the trials of one thing have come to so far. What is refused or wrong is noted, and the trial
// goes on with the rest: a function with few ways out is quick to prove.
#[derive(Drop)]
pub(crate) struct Trial {
    pub(crate) alloc: Global,
    // How many calls said that a request was refused.
    refusals: usize,
    // Whether something wasn't as it has to be.
    is_wrong: bool,
}

impl Trial {
    pub(crate) fn new(alloc: Global) -> Trial {
        Trial {
            alloc,
            refusals: 0,
            is_wrong: false,
        }
    }

    // Notes what has to hold.
    pub(crate) fn demand(&mut self, holds: bool) {
        self.is_wrong |= !holds;
    }

    // Notes that a request was refused.
    pub(crate) fn refuse(&mut self) {
        self.refusals = self.refusals.saturating_add(1);
    }

    // Notes an error, which may say that a request was refused.
    pub(crate) fn fail(&mut self, is_refusal: bool) {
        if is_refusal {
            self.refuse();
        } else {
            self.demand(false);
        }
    }

    // Notes why lines weren't read.
    pub(crate) fn fail_line(&mut self, error: &ScriptError<'_>) {
        self.fail(matches!(error, ScriptError::Memory));
    }

    // Whether all was as it has to be: of the two trials that it was told of, one refused request
    // spoils one at most, by one call.
    pub(crate) fn is_passed(&self) -> bool {
        !self.is_wrong && self.refusals <= 1
    }

    // The debug text of a value, empty where it is refused.
    pub(crate) fn text_of<D: Debug>(&mut self, value: &D) -> String {
        let alloc = self.alloc;
        match format!(in alloc; "{value:?}") {
            Ok(text) => text,
            Err(_) => {
                self.refuse();
                String::new(alloc)
            }
        }
    }

    // Demands that a value has this debug text, unless the text is one that was refused.
    pub(crate) fn demand_text<D: Debug>(&mut self, value: &D, text: &str) {
        self.demand(text.is_empty() || debugs(value, text));
    }

    // Demands that two values have one debug text.
    pub(crate) fn demand_alike<D: Debug>(&mut self, value: &D, other: &D) {
        let text = self.text_of(other);
        self.demand_text(value, &text);
    }
}

// The item that a word of a script names.
pub(crate) fn item(types: &Types, word: &str) -> Result<ItemKind, Missing>
    ensures { IfOk result (λ kind. AllStand types.now (item_keys kind)) }
{
    match read_item(word) {
        Ok(named) => match find_item(types, named) {
            Ok(found) => Ok(found),
            Err(_) => Err(Missing),
        },
        Err(_) => Err(Missing),
    }
}
