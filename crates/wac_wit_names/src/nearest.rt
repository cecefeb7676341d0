//! The name that is nearest to one that isn't there.

use std::alloc::{AllocError, Global};
use strsim::damerau_levenshtein;

// A longer name is compared with none, and a name with no more than so many others, so that the
// comparisons take little time.
const MAX_LENGTH: usize = 64;

const MAX_NAMES: usize = 1000;

/// Looks among names for the one that is nearest to a name that isn't there.
pub struct Nearest<'n> {
    alloc: Global,
    name: &'n str,
    best: Option<&'n str>,
    // how many edits lead to the best at most, or to one that is good enough
    limit: usize,
    // how many names were compared
    compared: usize,
}

impl Drop for Nearest<'_> {
    fn drop(self) {
        let Nearest {
            alloc: _,
            name: _,
            best: _,
            limit: _,
            compared: _,
        } = self;
    }
}

impl<'n> Nearest<'n> {
    /// Looks for the nearest name. One of which more than a third differs is none.
    pub fn to(alloc: Global, name: &'n str) -> Nearest<'n> {
        Nearest {
            alloc,
            name,
            best: None,
            limit: name.len().max(3) / 3,
            compared: 0,
        }
    }

    /// Looks at one more name.
    pub fn offer(&mut self, other: &'n str) -> Result<(), AllocError> {
        let longest = self.name.len().max(other.len());
        let shortest = self.name.len().min(other.len());
        if longest > MAX_LENGTH || longest.saturating_sub(shortest) > self.limit {
            return Ok(());
        }
        if self.compared >= MAX_NAMES {
            return Ok(());
        }
        self.compared = self.compared.saturating_add(1);
        let edits = damerau_levenshtein(self.alloc, self.name, other)?;
        if edits < self.limit || edits == self.limit && self.best.is_none() {
            self.limit = edits;
            self.best = Some(other);
        }
        Ok(())
    }

    /// Puts a question for the nearest name last, if there is one.
    pub fn push_hint(&self, message: &mut String) -> Result<(), AllocError> {
        match self.best {
            Some(best) => write!(message, "; did you mean `{best}`?"),
            None => Ok(()),
        }
    }
}
