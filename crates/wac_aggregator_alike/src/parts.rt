//! What the entry of a type is made of.

ghost use Rattle.std.specs.Prelude.{◌≡◌, map, IfOk};
ghost use Rattle.wac_component.specs.Key.{Stands, resource_key};
ghost use Rattle.wac_component.specs.Naming.{key_of};
ghost use Rattle.wac_aggregator_alike.specs.Alike.{made_next};

use std::alloc::{AllocError, Global};
use wac_component::{EntryId, ResourceId, Types};

// The source of a resource that is another name of one.
fn source_of(alloc: Global, types: &Types, id: ResourceId) -> Result<Vec<EntryId>, AllocError>
    requires { Stands types.now (resource_key id) }
    ensures { IfOk result (λ ids. map key_of ids.items ≡ made_next types.now (resource_key id)) }
{
    let mut sources = Vec::new(alloc);
    if let Some(alias) = types[id].alias {
        sources.push(EntryId::Resource(alias.source))?;
    }
    Ok(sources)
}

/// What a defined type or a resource is made of: what a defined type names, and the source of a
/// resource that is another name of one. Nothing else is made of anything.
pub(crate) fn parts_in(
    alloc: Global,
    types: &Types,
    id: EntryId,
) -> Result<Vec<EntryId>, AllocError>
    requires { Stands types.now (key_of id) }
    ensures { IfOk result (λ ids. map key_of ids.items ≡ made_next types.now (key_of id)) }
{
    match id {
        EntryId::Defined(id) => types.ids_in(alloc, EntryId::Defined(id)),
        EntryId::Resource(id) => source_of(alloc, types, id),
        EntryId::Func(_) => Ok(Vec::new(alloc)),
        EntryId::Interface(_) => Ok(Vec::new(alloc)),
        EntryId::World(_) => Ok(Vec::new(alloc)),
        EntryId::Module(_) => Ok(Vec::new(alloc)),
    }
}
