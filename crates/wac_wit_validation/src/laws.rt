//! Laws of what texts denote. Each is the contract of a function that does nothing.

ghost use Rattle.wac_wit_validation_types.specs.Laws.{HandlesStandAsWritten, IncludedStandRenamed, InterfacesHaveOneTree, PathsLeadToTheirVersion, TreesOfOneTextFit};
ghost use Rattle.wac_wit_validation_types.specs.Laws.{UsedTypesAreExported, WorldsHaveOneTree};

/// Where what is read says one thing, an interface denotes one tree, but for the order of its exports:
/// two trees that it denotes have the same item under each name.
pub fn interfaces_have_one_tree()
    ensures { InterfacesHaveOneTree }
{}

/// Where its names stand for one item, as they do in each world that was taken in, a world denotes
/// one tree, but for the order of its imports and exports: two trees that it denotes have one item
/// under each name, or none. Instances of one interface are one item here, in whichever order its
/// exports stand.
pub fn worlds_have_one_tree()
    ensures { WorldsHaveOneTree }
{}

/// So each of the trees that an interface or a world denotes fits where another one is asked for, and
/// whatever fits where one is asked for, or where one fits, does with each.
pub fn trees_of_one_text_fit()
    ensures { TreesOfOneTextFit }
{}

/// What a text borrows is denoted by a borrowed handle alone, and what it owns by an owned one: so
/// a reader that takes one for the other reads no text that has such a handle.
pub fn handles_stand_as_written()
    ensures { HandlesStandAsWritten }
{}

/// Whatever is denoted by an interface exports each type that the interface uses, so none that
/// leaves out a used type is.
pub fn used_types_are_exported()
    ensures { UsedTypesAreExported }
{}

/// A path that gives a version leads into a package of that version, and never into another one of
/// its name.
pub fn paths_lead_to_their_version()
    ensures { PathsLeadToTheirVersion }
{}

/// Whatever is denoted by a world has each function of a world that it includes under the new name
/// that `with` gives it, so none that forgets a new name is.
pub fn included_stand_renamed()
    ensures { IncludedStandRenamed }
{}
