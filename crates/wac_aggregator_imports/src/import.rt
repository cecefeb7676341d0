//! One import.

use std::marker::Model;
use wac_component::ItemKind;

/// A name, and what is imported under it.
#[derive(Debug, Drop)]
pub(crate) struct Import {
    pub(crate) name: String,
    pub(crate) kind: ItemKind,
}

impl Model for Import {
    ghost use Rattle.std.specs.Prelude.{string_bytes};
    ghost use Rattle.wac_aggregator_imports.specs.Import.{ImportContent};

    ghost Value = { ImportContent };

    ghost view = { λ i. (string_bytes i.name, i.kind) };
}
