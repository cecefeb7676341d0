//! Laws of bounds. Each is the contract of a function that does nothing.

ghost use Rattle.wac_bounds.specs.Laws.{HaveMeets, HaveJoins, IsOneMeet, IsOneJoin, MeetsDependOnMembers, JoinsDependOnMembers, BoundsOfMore, MeetsOfMore};

/// Trees with a common lower bound have a greatest one.
pub fn trees_with_a_lower_bound_have_a_meet()
    ensures { HaveMeets }
{}

/// Trees with a common upper bound have a least one.
pub fn trees_with_an_upper_bound_have_a_join()
    ensures { HaveJoins }
{}

/// Two meets of one list are the same but for the order of names.
pub fn meets_are_the_same()
    ensures { IsOneMeet }
{}

/// Two joins of one list are the same but for the order of names.
pub fn joins_are_the_same()
    ensures { IsOneJoin }
{}

/// Lists with the same members have the same meets: neither order nor repeats count.
pub fn meets_depend_on_members()
    ensures { MeetsDependOnMembers }
{}

/// Lists with the same members have the same joins: neither order nor repeats count.
pub fn joins_depend_on_members()
    ensures { JoinsDependOnMembers }
{}

/// What is below the meet of a list and below one tree more is below all of these
/// trees, and the other way round.
pub fn bounds_of_a_meet_are_bounds_of_all()
    ensures { BoundsOfMore }
{}

/// The meet of a list's meet and one tree more is the meet of all of these trees.
pub fn meet_of_a_meet_is_the_meet_of_all()
    ensures { MeetsOfMore }
{}
