//! The direction of a check.

/// Which side of a check is expected: the left one must be a subtype of the right one in either.
#[derive(Clone, Copy, PartialEq, Eq, Hash, Debug)]
pub enum SubtypeCheck {
    /// The right side is expected, and the left one is found.
    Covariant,
    /// The left side is expected, and the right one is found.
    Contravariant,
}
