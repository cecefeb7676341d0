//! Names that may stand once. Names that differ in case alone are one.

use super::catalog::Catalog;
use super::error::Fault;
use super::reason::Reason;
use indexmap::IndexMap;
use std::alloc::{AllocError, Global};
use wac_wit_syntax::Span;

/// Names, in lower case, with where they stand.
pub struct Taken {
    alloc: Global,
    spans: IndexMap<String, Span>,
}

impl Drop for Taken {
    fn drop(self) {
        let Taken { alloc: _, spans: _ } = self;
    }
}

impl Taken {
    /// None yet.
    pub fn new(alloc: Global) -> Taken {
        Taken {
            alloc,
            spans: IndexMap::new(alloc),
        }
    }

    /// Takes a name, which has to be free.
    pub fn take(
        &mut self,
        catalog: &Catalog<'_>,
        file: usize,
        name: &str,
        span: Span,
    ) -> Result<(), Fault> {
        let key = lower_case(self.alloc, name)?;
        self.take_exactly(catalog, file, key, name, span)
    }

    /// Where a name stands, if it isn't free.
    pub fn span_of(&self, name: &str) -> Result<Option<Span>, AllocError> {
        let key = lower_case(self.alloc, name)?;
        Ok(self.spans.get(key.as_str()).copied())
    }

    /// Takes a key, which has to be free, for a name.
    pub fn take_exactly(
        &mut self,
        catalog: &Catalog<'_>,
        file: usize,
        key: String,
        name: &str,
        span: Span,
    ) -> Result<(), Fault> {
        if let Some(first) = self.spans.get(key.as_str()) {
            let message = self.twice(name, catalog.place(file, *first));
            return Err(Fault::at(file, span, message).because(Reason::NameTwice));
        }
        self.spans.insert(key, span)?;
        Ok(())
    }

    fn twice(&self, name: &str, place: Result<String, AllocError>) -> Result<String, AllocError> {
        format!(in self.alloc; "`{name}` is there twice: it stands at {} too", place?)
    }
}

// A name in lower case.
fn lower_case(alloc: Global, name: &str) -> Result<String, AllocError> {
    let mut text = String::new(alloc);
    for letter in name.chars() {
        text.push(letter.to_ascii_lowercase())?;
    }
    Ok(text)
}
