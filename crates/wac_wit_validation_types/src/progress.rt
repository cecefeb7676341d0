//! Which exports were found to be as they are written.

ghost use Rattle.std.specs.Prelude.{◌≡◌, ◌⊎◌, ℕ, ◌<◌, IfOk, IsTrue, Some, length, slice_get, true};

use super::names::NamedTypes;
use std::alloc::{AllocError, Global};
use wac_component::ItemKind;

/// Which exports were found to be as they are written, and where the next functions are looked
/// for.
pub struct ExportMarks {
    /// For each export whether it was.
    pub seen: Vec<bool>,
    /// Where the next resource's function is looked for.
    pub next_method: usize,
    /// Where the next other function is.
    pub next_func: usize,
}

impl Drop for ExportMarks {
    fn drop(self) {
        let ExportMarks {
            seen: _,
            next_method: _,
            next_func: _,
        } = self;
    }
}

impl ExportMarks {
    /// None yet.
    pub fn new(alloc: Global, names: &NamedTypes<'_>) -> Result<ExportMarks, AllocError>
        ensures even { IfOk result (λ p. length p.seen.items ≡ length names.now.items.now.entries) }
        ensures none { IfOk result (λ p. (i : ℕ) → slice_get p.seen.items i ≡ Some true → ⊥) }
    {
        Ok(ExportMarks {
            seen: vec![in alloc; false; names.items.len()]?,
            next_method: first_func(names, false),
            next_func: first_func(names, true),
        })
    }

    /// Notes that an export is as it is written.
    pub(crate) fn mark(&mut self, index: usize)
        ensures even { length self.new.seen.items ≡ length self.old.seen.items }
        ensures marked { (i : ℕ) → slice_get self.new.seen.items i ≡ Some true → (slice_get self.old.seen.items i ≡ Some true) ⊎ (i ≡ index) }
    {
        if index < self.seen.len() {
            self.seen[index] = true;
        }
    }

    /// Whether all are.
    pub fn is_done(&self) -> bool
        ensures { IsTrue result → (i : ℕ) → i < length self.now.seen.items → slice_get self.now.seen.items i ≡ Some true }
    {
        for seen in &self.seen {
            if !*seen {
                return false;
            }
        }
        true
    }
}

// Where functions begin, or those that are no resource's.
fn first_func(names: &NamedTypes<'_>, is_free: bool) -> usize {
    for (index, (name, item)) in names.items.iter().enumerate() {
        if matches!(item, ItemKind::Func(_)) && !(is_free && name.starts_with('[')) {
            return index;
        }
    }
    0
}
