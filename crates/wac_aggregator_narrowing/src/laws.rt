//! The law of what is remembered. It is the contract of a function that changes nothing.

ghost use Rattle.wac_aggregator_narrowing.specs.Laws.{RememberedStay, PairsAreRememberedStill, PlainIsRemembered, SharedIsRemembered, ClosedByParts, RememberedIsTrue};

/// What is remembered truly stays so, and new entries are remembered truly.
pub fn pairs_are_remembered_truly()
    ensures foreign_growth { RememberedStay }
    ensures step { PairsAreRememberedStill }
    ensures plain { PlainIsRemembered }
    ensures shared { SharedIsRemembered }
    ensures closed { ClosedByParts }
    ensures weaker { RememberedIsTrue }
{}
