//! Why files are refused, a case a reason.

/// Why something in a file is refused.
#[derive(Clone, Copy, PartialEq, Eq)]
pub enum Reason {
    /// The text isn't WIT, or nests deeper than it is read.
    Syntax,
    /// A file names another package than a file beside it.
    AnotherPackage,
    /// The name of a package has an upper case letter.
    UpperCase,
    /// A package is there twice.
    PackageTwice,
    /// No file beside it names the package that a file is of.
    Nameless,
    /// A file gives a name twice by `use`.
    UseTwice,
    /// A file gives a name by `use` that the package has.
    TakenByPackage,
    /// A package has two interfaces or worlds of a name.
    MemberTwice,
    /// An item is there since a version, and the package has none.
    Unversioned,
    /// An item is there since a version above that of its package.
    Younger,
    /// A type doesn't need the feature that its interface needs, which is off.
    TypeOfHidden,
    /// A path names a package that isn't there.
    UnknownPackage,
    /// A path names the package that it stands in.
    OwnPackage,
    /// A path leads to nothing in a package.
    UnknownMember,
    /// A path leads to a world where an interface is asked for.
    NotInterface,
    /// A path leads to an interface where a world is asked for.
    NotWorld,
    /// A path leads to what a feature hides that is off.
    HiddenMember,
    /// A `use` outside of interfaces and worlds leads to a world of another package.
    ForeignWorld,
    /// An interface or a world uses or includes itself, along others maybe.
    Cycle,
    /// A name is given twice where it may stand once.
    NameTwice,
    /// The name of a type isn't there.
    UnknownType,
    /// The name of a type is there with a feature alone that is off.
    HiddenType,
    /// A handle is of a type that is no resource.
    NotResource,
    /// A function of a resource has the resource's name.
    NamedAsResource,
    /// A list of a fixed length has no element.
    ZeroLength,
    /// A stream or a future has borrowed handles.
    BorrowSent,
    /// A stream has characters.
    CharStream,
    /// A function returns borrowed handles.
    BorrowReturned,
    /// A constructor returns what isn't written as its resource, nor as a `result` with it.
    NotConstructed,
    /// An interface has no type of a name that is used.
    UnknownUsed,
    /// An interface has a type that is used with a feature alone that is off.
    HiddenUsed,
    /// A type leads to itself.
    TypeCycle,
    /// There are more than 32 flags.
    ManyFlags,
    /// A record, a variant, flags or an enum has nothing in it.
    Empty,
    /// A world that is included doesn't have what gets another name.
    UnknownRename,
    /// A world that is included has a name that is there.
    IncludedTwice,
    /// An interface of a package is imported or exported under a name of its own.
    RenamedInterface,
    /// A world imports or exports an interface twice.
    SaidTwice,
    /// An export needs an interface both as an import and as an export.
    NeededTwice,
}
