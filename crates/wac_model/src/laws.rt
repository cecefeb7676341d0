//! Laws of the order on trees. Each is the contract of a function that does nothing.

ghost use Rattle.wac_model.specs.Laws.{IsReflexive, IsTransitive, IsAntisymmetric, IsEqualityOnLeaves};

/// Each tree fits where it is asked for itself.
pub fn order_is_reflexive()
    ensures { IsReflexive }
{}

/// What fits where a second is asked for, which fits where a third is, fits there too.
pub fn order_is_transitive()
    ensures { IsTransitive }
{}

/// Trees fit each other exactly where they are the same but for the order of names.
pub fn order_is_antisymmetric()
    ensures { IsAntisymmetric }
{}

/// Functions, value types and resources fit each other exactly where they are equal.
pub fn order_on_leaves_is_equality()
    ensures { IsEqualityOnLeaves }
{}
