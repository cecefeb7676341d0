//! Resources.

use super::ids::{InterfaceId, ResourceId};
use std::alloc::AllocError;

/// What a resource that is another name of a resource leads to.
#[derive(Clone, Copy, Debug)]
pub struct ResourceAlias {
    /// The interface that the source belongs to, if it isn't that of the alias.
    pub owner: Option<InterfaceId>,
    /// The resource that this is a name of.
    pub source: ResourceId,
}

/// A resource, or another name of one.
#[derive(Drop, Debug)]
pub struct Resource {
    /// The name.
    pub name: String,
    /// What the resource is another name of, if it is one.
    pub alias: Option<ResourceAlias>,
}

impl Clone for Resource {
    ghost use Rattle.std.specs.Prelude.{◌≡◌};
    ghost use Rattle.wac_component.specs.Content.{resource_content};

    ghost is_clone = { λ r s. resource_content s ≡ resource_content r };

    fn clone(&self) -> Result<Resource, AllocError> {
        Ok(Resource {
            name: self.name.clone()?,
            alias: self.alias,
        })
    }
}
