//! The refusals of one run.

use super::error::{Fault, WitError, WitRefusal};
use std::alloc::Global;

/// How many refusals one run lists at most.
pub const MAX_REFUSALS: usize = 20;

/// The refusals of one run, up to [`MAX_REFUSALS`].
pub struct Refusals {
    list: Vec<WitRefusal>,
}

impl Drop for Refusals {
    fn drop(self) {
        let Refusals { list: _ } = self;
    }
}

impl Refusals {
    /// None yet.
    pub fn new(alloc: Global) -> Refusals {
        Refusals {
            list: Vec::new(alloc),
        }
    }

    /// Whether nothing was refused.
    pub fn is_empty(&self) -> bool {
        self.list.is_empty()
    }

    /// Notes what is refused, so that what follows is looked at too. Answers whether nothing was.
    pub fn go_on(&mut self, done: Result<(), Fault>) -> Result<bool, Fault> {
        match done {
            Ok(()) => Ok(true),
            Err(fault) => {
                self.note(fault)?;
                Ok(false)
            }
        }
    }

    /// Notes what is refused. After the last that is listed this is `Enough`.
    pub fn note(&mut self, fault: Fault) -> Result<(), Fault> {
        match fault {
            Fault::Refused(refused) => self.push(refused),
            Fault::Known => Ok(()),
            other => Err(other),
        }
    }

    // Notes a refusal. One place is noted once: an interface that is exported is made twice.
    fn push(&mut self, refused: WitRefusal) -> Result<(), Fault> {
        if !self.has(&refused) {
            self.list.push(refused)?;
        }
        if self.list.len() >= MAX_REFUSALS {
            return Err(Fault::Enough);
        }
        Ok(())
    }

    fn has(&self, refused: &WitRefusal) -> bool {
        let start = refused.refusal.span.start;
        for it in &self.list {
            if it.file == refused.file && it.refusal.span.start == start {
                return true;
            }
        }
        false
    }

    /// The refusals, in the order of the files and of the places in them. There is one at least.
    pub fn into_error(self) -> WitError {
        let Refusals { mut list } = self;
        if list.is_empty() {
            return WitError::Missing;
        }
        match list.sort_by_key(|it| (it.file, it.refusal.span.start)) {
            Ok(()) => WitError::Refused(list),
            Err(_) => WitError::Memory,
        }
    }
}
