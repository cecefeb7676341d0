//! What a comparison of two packages found.

ghost use Rattle.std.specs.Prelude.{◌≡◌, ◌↔◌, IsTrue, count_by};
ghost use Rattle.wac_wit_changes.specs.Comparing.{has_problems, KeepsPromise};

use super::problem::Problem;

/// Whether it is about an interface or a world.
#[derive(Clone, Copy, PartialEq, Eq, Debug)]
pub enum ReportSort {
    /// An interface.
    Interface,
    /// A world.
    World,
}

impl ReportSort {
    /// The word for it.
    pub fn word(self) -> &'static str {
        match self {
            ReportSort::Interface => "interface",
            ReportSort::World => "world",
        }
    }
}

/// An old interface or world, and what became of it.
pub struct ComparedItem {
    /// Which of the two it is.
    pub sort: ReportSort,
    /// The name in the package.
    pub name: String,
    /// Why the new one doesn't serve whoever was built against it.
    pub problems: Vec<Problem>,
    /// What the new one has and it hadn't, in words.
    pub added: Vec<String>,
}

impl Drop for ComparedItem {
    fn drop(self) {
        let ComparedItem {
            sort: _,
            name: _,
            problems: _,
            added: _,
        } = self;
    }
}

/// An interface or a world that only the new package has.
pub struct Added {
    /// Which of the two it is.
    pub sort: ReportSort,
    /// The name in the package.
    pub name: String,
}

impl Drop for Added {
    fn drop(self) {
        let Added { sort: _, name: _ } = self;
    }
}

/// What the versions of two packages promise.
#[derive(Clone, Copy, PartialEq, Eq, Debug)]
pub enum Promise {
    /// They are on one track, so that nothing may break.
    Same,
    /// They are on two tracks, so that anything may.
    Other,
    /// There is no new package, of the package itself.
    Gone,
    /// There is no new package, of one that the package used.
    Dropped,
}

/// An old package, and what became of it.
pub struct PackageReport {
    /// The name, as `wasi:http`.
    pub name: String,
    /// The version, if it has one.
    pub old_version: Option<String>,
    /// The version of the new package, if that is there and has one.
    pub new_version: Option<String>,
    /// What the two versions promise.
    pub promise: Promise,
    /// What became of each interface and each world.
    pub compared: Vec<ComparedItem>,
    /// The interfaces and worlds that only the new package has.
    pub added: Vec<Added>,
}

impl Drop for PackageReport {
    fn drop(self) {
        let PackageReport {
            name: _,
            old_version: _,
            new_version: _,
            promise: _,
            compared: _,
            added: _,
        } = self;
    }
}

impl PackageReport {
    /// How many interfaces and worlds break.
    pub fn broken(&self) -> usize
        ensures { result ≡ count_by has_problems self.now.compared.items }
    {
        self.compared
            .iter()
            .filter(|it| !it.problems.is_empty())
            .count()
    }

    /// Whether the package keeps what the versions promise.
    pub fn is_kept(&self) -> bool
        ensures { IsTrue result ↔ KeepsPromise self.now }
    {
        match self.promise {
            Promise::Same => self.compared.iter().all(|it| it.problems.is_empty()),
            Promise::Other | Promise::Dropped => true,
            Promise::Gone => false,
        }
    }
}
