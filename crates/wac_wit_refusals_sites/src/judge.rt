//! What is known while reasons are looked for.

ghost use Rattle.std.specs.Prelude.{◌≡◌, ◌↔◌, IfOk, IfSome, IsTrue};
ghost use Rattle.wac_wit_refusals_sites.specs.Judging.{Judges};
ghost use Rattle.wac_wit_scopes.specs.WitSources.{IsEnabled, WitSources, sources_of};

use super::hints::Hints;
use std::alloc::{AllocError, Global};
use wac_wit_scopes::{ScopeItems, SourceTrees, scopes_of};
use wac_wit_syntax::{Gates, Span};

/// Looks for the reasons of refusals.
pub struct Judge<'j> {
    /// What allocates.
    pub alloc: Global,
    /// The files, with their trees.
    pub sources: SourceTrees<'j>,
    /// What is read, by what shares names.
    pub scopes: Vec<ScopeItems<'j>>,
    pub(crate) hints: Hints,
}

impl Drop for Judge<'_> {
    fn drop(self) {
        let Judge {
            alloc: _,
            sources: _,
            scopes: _,
            hints: _,
        } = self;
    }
}

impl<'j> Judge<'j> {
    /// Nothing is answered where the packages of files aren't clear.
    pub fn new(alloc: Global, sources: &SourceTrees<'j>) -> Result<Option<Judge<'j>>, AllocError>
        ensures { IfOk result (λ o. IfSome o (Judges (sources_of sources.now.files.now sources.now.documents.now sources.now.features))) }
    {
        let Some(scopes) = scopes_of(alloc, sources.files, sources.documents)? else {
            return Ok(None);
        };
        let hints = Hints::new(alloc, &scopes)?;
        Ok(Some(Judge {
            alloc,
            sources: *sources,
            scopes,
            hints,
        }))
    }

    /// Whether an item is there.
    pub fn is_there(&self, gates: &Gates) -> bool
        ensures { (of : WitSources) → Judges of self.now → IsTrue result ↔ IsEnabled of gates.now }
    {
        match &gates.unstable {
            Some(feature) => self.sources.features.has(&feature.text),
            None => true,
        }
    }
}

/// Whether two places are one.
pub fn is_at(left: Span, right: Span) -> bool
    ensures { IsTrue result → left ≡ right }
{
    left == right
}
