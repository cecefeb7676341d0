//! What is refused of a text so far.

ghost use Rattle.std.specs.Prelude.{◌≡◌, ◌<◌, ◌==◌, false, IsNone, OnOk, nat_le, vec_len};
ghost use Rattle.wac_wit_syntax.specs.Faults.{ArePlacesIn, LiesIn};

use super::error::{MAX_REFUSALS, Refusal, SyntaxError};
use super::positions::Span;
use std::alloc::{AllocError, Global};

/// The refusals of a text in the order of their places, at most one at a place.
pub(crate) struct Refusals {
    found: Vec<Refusal>,
}

impl Drop for Refusals {
    fn drop(self) {
        let Refusals { found: _ } = self;
    }
}

impl Refusals {
    ghost use Rattle.wac_wit_syntax.specs.Steps.{AddsOnly};

    /// No refusals.
    pub(crate) fn new(alloc: Global) -> Refusals
        ensures { vec_len result.found ≡ 0 }
    {
        Refusals {
            found: Vec::new(alloc),
        }
    }

    /// Whether none is noted.
    pub(crate) fn is_empty(&self) -> bool
        ensures { result ≡ (vec_len self.now.found == 0) }
    {
        self.found.is_empty()
    }

    /// Whether as many are noted as are told.
    pub(crate) fn is_full(&self) -> bool
        ensures { result ≡ nat_le MAX_REFUSALS (vec_len self.now.found) }
    {
        self.found.len() >= MAX_REFUSALS
    }

    /// Whether a refusal at a place would be noted: one follows from the other where two have the
    /// same place, as where a name is misspelled and then isn't the word that was expected.
    pub(crate) fn takes(&self, start: usize) -> bool
        ensures { result ≡ false → 0 < vec_len self.now.found }
    {
        self.index_for(start).is_some()
    }

    // Which refusal one at a place would be, if it would be noted.
    fn index_for(&self, start: usize) -> Option<usize>
        ensures { IsNone result → 0 < vec_len self.now.found }
    {
        if self.is_full() {
            return None;
        }
        for (index, refusal) in self.found.iter().enumerate() {
            if refusal.span.start == start {
                return None;
            }
            if refusal.span.start > start {
                return Some(index);
            }
        }
        Some(self.found.len())
    }

    /// Notes a refusal.
    pub(crate) fn add(
        &mut self,
        span: Span,
        message: Result<String, AllocError>,
    ) -> Result<(), AllocError>
        ensures noted { OnOk result (0 < vec_len self.new.found) }
        ensures only { AddsOnly span self.old.found.items self.new.found.items }
        ensures kept { vec_len self.new.found ≡ 0 → vec_len self.old.found ≡ 0 }
    {
        let message = message?;
        let Some(index) = self.index_for(span.start) else {
            return Ok(());
        };
        let index = index.min(self.found.len());
        self.found.insert(index, Refusal { span, message })?;
        Ok(())
    }

    /// The error of a text.
    pub(crate) fn into_error(self, text: &str) -> SyntaxError
        ensures { LiesIn text.now result }
    {
        let Refusals { mut found } = self;
        place_within(&mut found, text);
        SyntaxError::Refused(found)
    }
}

// Moves the places that a text doesn't have to its end. Those that are noted it has.
fn place_within(found: &mut Vec<Refusal>, text: &str)
    ensures { ArePlacesIn text.now found.new.items }
{
    for index in 0..found.len() {
        let refusal = &mut found[index];
        refusal.span = refusal.span.within(text);
    }
}
