//! Which imports or exports of a world were found to be as they are written.

ghost use Rattle.std.specs.Prelude.{◌≡◌, ◌≢◌, ◌⊎◌, ℕ, ◌<◌, IfOk, IfSome, IsNone, IsTrue, Some, length, slice_get};
ghost use Rattle.wac_wit_validation_names.specs.declared.places.FoundInterface.{FoundInterface as FoundOf};
ghost use Rattle.wac_wit_validation.specs.declared.marks.ExternMark.{ExternMark as MarkOf};
ghost use Rattle.wac_wit_validation.specs.declared.marks.ExternMark.TheVariants.{Found, Unmarked};

use std::alloc::{AllocError, Global};
use wac_wit_validation_names::FoundInterface;

/// What was found of an import or an export.
#[derive(Clone, Copy)]
pub(crate) enum ExternMark {
    /// Nothing yet.
    Unmarked,
    /// It is as it is written.
    Written,
    /// It is an interface of a package that was taken in.
    Found(FoundInterface),
}

/// What was found of imports or of exports, in their order.
pub(crate) struct ExternMarks {
    pub(crate) marks: Vec<ExternMark>,
}

impl Drop for ExternMarks {
    fn drop(self) {
        let ExternMarks { marks: _ } = self;
    }
}

/// What was found of a world's imports and exports.
pub(crate) struct WorldMarks {
    pub(crate) imports: ExternMarks,
    pub(crate) exports: ExternMarks,
}

impl Drop for WorldMarks {
    fn drop(self) {
        let WorldMarks {
            imports: _,
            exports: _,
        } = self;
    }
}

impl ExternMarks {
    /// Nothing of so many.
    pub(crate) fn new(alloc: Global, count: usize) -> Result<ExternMarks, AllocError>
        ensures even { IfOk result (λ m. length m.marks.items ≡ count) }
        ensures none { IfOk result (λ m. (n : ℕ) (x : MarkOf) → slice_get m.marks.items n ≡ Some x → x ≡ Unmarked) }
    {
        Ok(ExternMarks {
            marks: vec![in alloc; ExternMark::Unmarked; count]?,
        })
    }

    /// Marks what stands at an index.
    pub(crate) fn mark(&mut self, index: usize, mark: ExternMark)
        ensures even { length self.new.marks.items ≡ length self.old.marks.items }
        ensures marked { (n : ℕ) (x : MarkOf) → slice_get self.new.marks.items n ≡ Some x → (slice_get self.old.marks.items n ≡ Some x) ⊎ ((n ≡ index) × (x ≡ mark)) }
    {
        if index < self.marks.len() {
            self.marks[index] = mark;
        }
    }

    /// The interface at an index.
    pub(crate) fn found_at(&self, index: usize) -> Option<FoundInterface>
        ensures some { IfSome result (λ f. slice_get self.now.marks.items index ≡ Some (Found f)) }
        ensures none { IsNone result → (f : FoundOf) → slice_get self.now.marks.items index ≢ Some (Found f) }
    {
        match self.marks.get(index)? {
            ExternMark::Found(found) => Some(*found),
            _ => None,
        }
    }

    /// Whether all are marked.
    pub(crate) fn are_all(&self) -> bool
        ensures { IsTrue result → (n : ℕ) (x : MarkOf) → slice_get self.now.marks.items n ≡ Some x → x ≢ Unmarked }
    {
        for mark in &self.marks {
            if matches!(mark, ExternMark::Unmarked) {
                return false;
            }
        }
        true
    }
}
