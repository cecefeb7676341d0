//! Laws of call lists. Each is the contract of a function that does nothing.

ghost use Rattle.wac_aggregator_promises.specs.Laws.{AnswersAreExact, ClashingExportsHaveNoBound, CompatibleListsHaveNoWitReason, GrowthTakesIn, ImportsAreGreatestBounds, LeafInstancesFollowLeaves, MeetsAreUnions, MembersAreLeafMaps, MembersOfMore, NamedImportsAreDue, NamesLeadToTracks, PlainAnswersInAnyOrder, PlainListsAreWitLists, PlainRunsAnswer, PlainRunsExist, RefusedMembersAreIncompatible, SharingGoesOn, SourcesGrow, StepsServeAll, WitAnswersInAnyOrder, WitImportsAreMeets, WitReasonsAreReasons, WitRunsAnswer};

/// After every accepted list the import at the canonical name of each name that was handed in is a
/// subtype of every item that was handed in on that name's track. A list of plain items, or of WIT
/// interfaces, is accepted exactly where its tracks are compatible. Each import is then the
/// greatest lower bound of its track, whatever the order of calls.
pub fn imports_are_greatest_bounds()
    ensures { ImportsAreGreatestBounds }
{}

/// Plain items that are met one after another are accepted exactly where the items of each track
/// have a common lower bound. Each import is the meet of its track, and the refused call is the
/// first with which the calls so far aren't compatible.
pub fn plain_runs_answer()
    ensures { PlainRunsAnswer }
{}

/// Items of any list can be met so, one after another.
pub fn plain_runs_exist()
    ensures { PlainRunsExist }
{}

/// A plain list has one answer, whatever the order of its calls.
pub fn plain_answers_in_any_order()
    ensures { PlainAnswersInAnyOrder }
{}

/// A plain list is a WIT list without members.
pub fn plain_lists_are_wit_lists()
    ensures { PlainListsAreWitLists }
{}

/// The tree of a member of a WIT list is a map from names to leaves.
pub fn members_are_leaf_maps()
    ensures { MembersAreLeafMaps }
{}

/// The tree of an instance whose exports are leaves follows from these, in
/// whatever collection has them.
pub fn leaf_instances_follow_leaves()
    ensures { LeafInstancesFollowLeaves }
{}

/// The meet of maps from names to leaves is their union.
pub fn meets_are_unions()
    ensures { MeetsAreUnions }
{}

/// Where a WIT list is compatible, no reason on one track stands at its last call. Of other rows of
/// the table of reasons this says nothing: that the list is accepted is `wit_runs_answer`.
pub fn compatible_lists_have_no_wit_reason()
    ensures { CompatibleListsHaveNoWitReason }
{}

/// Where a shared entry can't take in a member of a WIT list, the list isn't compatible.
pub fn refused_members_are_incompatible()
    ensures { RefusedMembersAreIncompatible }
{}

/// A WIT list is accepted exactly where it is compatible. Each import is the meet of its track, and
/// the refused call is the first with which the calls so far aren't compatible.
pub fn wit_runs_answer()
    ensures { WitRunsAnswer }
{}

/// A WIT list has one answer, whatever the order of its calls.
pub fn wit_answers_in_any_order()
    ensures { WitAnswersInAnyOrder }
{}

/// Where calls serve their items one after another, each import serves all
/// that was handed in on its track.
pub fn steps_serve_all()
    ensures { StepsServeAll }
{}

/// A list is accepted exactly where it is compatible, and the number of its refused call is one.
pub fn answers_are_exact()
    ensures { AnswersAreExact }
{}

/// After each interface that is taken in, its track's shared entry is the meet of those on
/// the track and has their uses.
pub fn sharing_goes_on()
    ensures { SharingGoesOn }
{}

/// The import to which a name leads is the one on its track.
pub fn names_lead_to_tracks()
    ensures { NamesLeadToTracks }
{}

/// Where the imports are named as they are due, one stands on exactly the due tracks.
pub fn named_imports_are_due()
    ensures { NamedImportsAreDue }
{}

/// Where two instances export items under one name that have no common lower bound, they have none.
pub fn clashing_exports_have_no_bound()
    ensures { ClashingExportsHaveNoBound }
{}

/// A reason on one track is one of the table's, where the item touches.
pub fn wit_reasons_are_reasons()
    ensures { WitReasonsAreReasons }
{}

/// One call more has the members of those before it and what its item, where it is a
/// named instance, reaches by uses.
pub fn members_of_more()
    ensures { MembersOfMore }
{}

/// Where the imports on members' tracks are the shared entries, each
/// import is the meet of its track.
pub fn wit_imports_are_meets()
    ensures { WitImportsAreMeets }
{}

/// A shared entry that is added, and one that grows, takes an interface in.
pub fn growth_takes_in()
    ensures { GrowthTakesIn }
{}

/// What is a source is one where there are more calls, and tracks lead
/// to each other where they did.
pub fn sources_grow()
    ensures { SourcesGrow }
{}
