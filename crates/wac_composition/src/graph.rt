//! The three components. The handler gives the middleware what it hands requests on to, and the
//! client gives the handler its store.

ghost use Rattle.wac_composition.specs.Numbers.{HaveNumbers};

use super::component::Component;
use super::failure::CompositionFailure;
use super::packages::packages;
use std::alloc::Global;
use wac_types::PrimitiveType;

/// Three components, whose collections have numbers of their own.
#[derive(Drop)]
pub(crate) struct Graph {
    // Hands requests on to a handler.
    pub(crate) middleware: Component,
    // Answers requests by what it finds in a store.
    pub(crate) handler: Component,
    // Has a store, which it reaches over sockets.
    pub(crate) client: Component,
    ghost numbered: { HaveNumbers middleware.types handler.types client.types },
}

impl Graph {
    /// The graph whose client has texts of this type.
    pub(crate) fn new(alloc: Global, text: PrimitiveType) -> Result<Graph, CompositionFailure> {
        Ok(Graph {
            middleware: Component::new(
                alloc,
                "middleware",
                packages(alloc, 1, PrimitiveType::String)?,
                &[
                    "wasi:http/types@0.2.0",
                    "wasi:logging/logging@0.2.0",
                    "wasi:http/handler@0.2.0",
                ],
                &["wasi:http/handler@0.2.0"],
            )?,
            handler: Component::new(
                alloc,
                "handler",
                packages(alloc, 2, PrimitiveType::String)?,
                &[
                    "wasi:http/types@0.2.1",
                    "wasi:logging/logging@0.2.0",
                    "wasi:keyvalue/store@0.2.0",
                ],
                &["wasi:http/handler@0.2.1"],
            )?,
            client: Component::new(
                alloc,
                "client",
                packages(alloc, 3, text)?,
                &["wasi:logging/logging@0.2.1", "wasi:sockets/tcp@0.2.0"],
                &["wasi:keyvalue/store@0.2.0"],
            )?,
        })
    }
}
