//! What is read.

use wac_wit_names::{Features, SourceFile};
use wac_wit_syntax::Document;

/// The files of packages, with their trees and the features that are on.
#[derive(Clone, Copy)]
pub struct SourceTrees<'s> {
    /// The files.
    pub files: &'s [SourceFile],
    /// Their trees, in the same order.
    pub documents: &'s [Document],
    /// The features that are on.
    pub features: Features<'s>,
}
