//! What the options of a command say.

use wac_wit::Features;

/// How an answer is written.
#[derive(Clone, Copy, PartialEq, Eq, Debug)]
pub enum Form {
    /// For people.
    Text,
    /// As JSON.
    Json,
    /// As a graph for Graphviz.
    Dot,
}

/// What the options of a command say.
#[derive(Clone, Copy)]
pub struct Options<'o> {
    /// Which features are on.
    pub features: Features<'o>,
    /// How the answer is written.
    pub form: Form,
}
