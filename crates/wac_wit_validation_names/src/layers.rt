//! The worlds that come into another one, with the names that what they say gets there.

ghost use Rattle.std.specs.Borrow.{Bor};
ghost use Rattle.std.specs.Prelude.{◌⊎◌, [], Contains, IfOk, OnOk};
ghost use Rattle.wac_wit_syntax.specs.declared.tree.WorldItem.{WorldItem as ItemOf};
ghost use Rattle.wac_wit_validation_types.specs.Denoted.{renamed};
ghost use Rattle.wac_wit_validation_types.specs.Reading.{AreNamesBy};
ghost use Rattle.wac_wit_validation_names.specs.Layers.{IsRenamedLayer};
ghost use Rattle.wac_wit_validation_names.specs.declared.layers.Layer.{Layer as LayerOf};

use super::places::ItemPlace;
use std::alloc::{AllocError, Global};
use wac_wit_syntax::WorldItem;
use wac_wit_validation_types::NewNames;

/// A world that comes into another one, or that one itself.
pub struct Layer<'v> {
    /// Where it is written.
    pub place: ItemPlace,
    /// Its items that are there and give names.
    pub items: Vec<&'v WorldItem>,
    /// What these names become.
    pub names: NewNames<'v>,
}

impl Drop for Layer<'_> {
    fn drop(self) {
        let Layer {
            place: _,
            items: _,
            names: _,
        } = self;
    }
}

impl<'v> Layer<'v> {
    // The same, where names become others once more.
    fn renamed(&self, alloc: Global, by: &NewNames<'v>) -> Result<Layer<'v>, AllocError>
        ensures { IfOk result (IsRenamedLayer self.now by.now) }
    {
        let mut items = Vec::new(alloc);
        for item in &self.items {
            items.push(*item)?;
        }
        Ok(Layer {
            place: self.place,
            items,
            names: self.names.then(alloc, by)?,
        })
    }
}

/// Adds layers that give names, where these become others.
pub fn push_renamed<'v>(
    alloc: Global,
    layers: &mut Vec<Layer<'v>>,
    inside: &[Layer<'v>],
    by: &NewNames<'v>,
) -> Result<(), AllocError>
    ensures grows { OnOk result ((l : LayerOf) → Contains layers.old.items l → Contains layers.new.items l) }
    ensures each { OnOk result ((l : LayerOf) → Contains layers.new.items l → Contains layers.old.items l ⊎ ((x : LayerOf) × Contains inside.now x × IsRenamedLayer x by.now l)) }
    ensures all { OnOk result ((x : LayerOf) (t : Bor ItemOf) → Contains inside.now x → Contains x.items.items t → (l : LayerOf) × Contains layers.new.items l × IsRenamedLayer x by.now l) }
{
    for layer in inside {
        if !layer.items.is_empty() {
            layers.push(layer.renamed(alloc, by)?)?;
        }
    }
    Ok(())
}

/// That the names of items become what they are.
pub fn themselves<'v>(alloc: Global, items: &[&'v WorldItem]) -> Result<NewNames<'v>, AllocError>
    ensures { IfOk result (λ m. AreNamesBy m []) }
{
    let mut names = NewNames::new(alloc);
    for item in items {
        names.note_item(item)?;
    }
    Ok(names)
}
