//! Compares worlds, and finds where they stand.

ghost use Rattle.std.specs.Prelude.{◌≡◌, ◌↔◌, ◌+◌, ◌≤◌, [], length, IfOk, OnOk};
ghost use Rattle.wac_types.specs.Report.{IsClean};
ghost use Rattle.wac_types.specs.ReportParts.{not_in_target, missing, mismatched};
ghost use Rattle.wac_wit_changes.specs.Worlds.{RunsIn};

use super::checking::fits_target;
use super::comparing::{Both, ComparedPair, Direction, problem_of};
use super::problem::Problem;
use super::tracks::{by_tracks, on_track};
use indexmap::IndexMap;
use std::alloc::AllocError;
use wac_component::{ExternKind, ItemKind, WorldId};
use wac_types::{NameMap, SubtypeError, TargetValidationReport};
use wac_wit_entries::{EntryError, world};
use wac_wit_places::SourceSide;

/// What is asked about two worlds.
#[derive(Clone, Copy)]
pub(crate) enum Question {
    /// Whether components of an old world run in a new one.
    Change,
    /// Whether components of a world run where another one is the target.
    Target,
}

impl Question {
    // What is wrong with an import that the target doesn't have.
    fn not_imported(self) -> &'static str {
        match self {
            Question::Change => {
                "components of the old world import it, and the new one doesn't have it"
            }
            Question::Target => "the target doesn't have it",
        }
    }

    // What is wrong with an export that the component doesn't have.
    fn not_exported(self) -> &'static str {
        match self {
            Question::Change => {
                "the new world asks components for it, and those of the old one lack it"
            }
            Question::Target => {
                "the target asks for it, and components of the world don't have it"
            }
        }
    }
}

/// Two worlds. What is asked of the library is `component`, whose names may be of other versions
/// than those of `before`, which is the same world.
#[derive(Clone, Copy)]
pub(crate) struct ComparedWorlds {
    pub(crate) component: WorldId,
    pub(crate) before: WorldId,
    pub(crate) after: WorldId,
}

// What the component's world and the other one import or export, by the tracks of the names.
struct Tracks {
    old: NameMap<String, ItemKind>,
    new: NameMap<String, ItemKind>,
}

impl Drop for Tracks {
    fn drop(self) {
        let Tracks { old: _, new: _ } = self;
    }
}

impl<'s, 'd> ComparedPair<'s, 'd> {
    /// Why a component of one world doesn't run where the other is the target: nothing where it
    /// does.
    pub(crate) fn world_problems(
        &self,
        worlds: &ComparedWorlds,
        question: Question,
    ) -> Result<Vec<Problem>, EntryError>
        ensures { IfOk result (λ ps. (ps.items ≡ []) ↔ RunsIn self.now.types.now worlds.now.component worlds.now.after) }
    {
        match fits_target(self.alloc, self.types, worlds.component, worlds.after)? {
            Ok(()) => Ok(Vec::new(self.alloc)),
            Err(report) => self.report_problems(worlds, question, &report),
        }
    }

    // What a report says.
    fn report_problems(
        &self,
        worlds: &ComparedWorlds,
        question: Question,
        report: &TargetValidationReport,
    ) -> Result<Vec<Problem>, EntryError>
        ensures { IfOk result (λ ps. ps.items ≡ [] → IsClean report.now) }
    {
        let mut problems = Vec::new(self.alloc);
        self.push_not_imported(&mut problems, worlds, question, report)?;
        self.push_not_exported(&mut problems, worlds, question, report)?;
        self.push_mismatches(&mut problems, worlds, report)?;
        Ok(problems)
    }

    // Puts last which imports the target doesn't have.
    fn push_not_imported(
        &self,
        problems: &mut Vec<Problem>,
        worlds: &ComparedWorlds,
        question: Question,
        report: &TargetValidationReport,
    ) -> Result<(), AllocError>
        ensures { OnOk result (length problems.old.items + length (not_in_target report.now) ≤ length problems.new.items) }
    {
        for name in report.imports_not_in_target() {
            let place = self.before.extern_place(worlds.before, name);
            let there = self.after.world_place(worlds.after);
            let fault = String::from_str(self.alloc, question.not_imported());
            let mut problem = Problem::new(self.alloc, fault, place, there)?;
            problem.put_under(self.step(ExternKind::Import, name)?)?;
            problems.push(problem)?;
        }
        Ok(())
    }

    // Puts last which exports the component doesn't have.
    fn push_not_exported(
        &self,
        problems: &mut Vec<Problem>,
        worlds: &ComparedWorlds,
        question: Question,
        report: &TargetValidationReport,
    ) -> Result<(), AllocError>
        ensures { OnOk result (length problems.old.items + length (missing report.now) ≤ length problems.new.items) }
    {
        for (name, _) in report.missing_exports() {
            let place = self.after.extern_place(worlds.after, name);
            let here = self.before.world_place(worlds.before);
            let fault = String::from_str(self.alloc, question.not_exported());
            let mut problem = Problem::new(self.alloc, fault, here, place)?;
            problem.put_under(self.step(ExternKind::Export, name)?)?;
            problems.push(problem)?;
        }
        Ok(())
    }

    // Puts last why imports and exports don't fit.
    fn push_mismatches(
        &self,
        problems: &mut Vec<Problem>,
        worlds: &ComparedWorlds,
        report: &TargetValidationReport,
    ) -> Result<(), EntryError>
        ensures { OnOk result (length problems.old.items + length (mismatched report.now) ≤ length problems.new.items) }
    {
        let imports = self.tracks(worlds, ExternKind::Import)?;
        let exports = self.tracks(worlds, ExternKind::Export)?;
        for (name, kind, error) in report.mismatched_types() {
            let tracks = match kind {
                ExternKind::Import => &imports,
                ExternKind::Export => &exports,
            };
            let mut found = self.extern_problems(worlds, tracks, *kind, name, error)?;
            self.put_under(&mut found, *kind, name)?;
            problems.append(&mut found)?;
        }
        Ok(())
    }

    fn tracks(&self, worlds: &ComparedWorlds, kind: ExternKind) -> Result<Tracks, EntryError> {
        Ok(Tracks {
            old: by_tracks(self.alloc, self.externs(worlds.component, kind)?)?,
            new: by_tracks(self.alloc, self.externs(worlds.after, kind)?)?,
        })
    }

    // Why an import or an export doesn't fit: each member that doesn't, or what the library says.
    fn extern_problems(
        &self,
        worlds: &ComparedWorlds,
        tracks: &Tracks,
        kind: ExternKind,
        name: &str,
        error: &SubtypeError,
    ) -> Result<Vec<Problem>, EntryError>
        ensures { IfOk result (λ ps. 1 ≤ length ps.items) }
    {
        let old = extern_of(&tracks.old, name)?;
        let new = extern_of(&tracks.new, name)?;
        let both = Both {
            old,
            new,
            before: SourceSide {
                map: self.before,
                walk: self.before.at_extern(worlds.before, name, &old),
            },
            after: SourceSide {
                map: self.after,
                walk: self.after.at_extern(worlds.after, name, &new),
            },
        };
        let direction = match kind {
            ExternKind::Import => Direction::NewForOld,
            ExternKind::Export => Direction::OldForNew,
        };
        let mut found = Vec::new(self.alloc);
        self.push_problems(&mut found, &both, direction)?;
        if found.is_empty() {
            found.push(problem_of(self.alloc, &both, direction, error)?)?;
        }
        Ok(found)
    }

    // Puts the problems of an import or an export behind its name.
    fn put_under(
        &self,
        problems: &mut [Problem],
        kind: ExternKind,
        name: &str,
    ) -> Result<(), AllocError> {
        for problem in problems {
            problem.put_under(self.step(kind, name)?)?;
        }
        Ok(())
    }

    // What a world imports or exports.
    fn externs(
        &self,
        id: WorldId,
        kind: ExternKind,
    ) -> Result<&'s IndexMap<String, ItemKind>, EntryError> {
        let Some(of) = world(self.types, id) else {
            return Err(EntryError::Missing);
        };
        match kind {
            ExternKind::Import => Ok(&of.imports),
            ExternKind::Export => Ok(&of.exports),
        }
    }

    // The step of a path to an import or an export.
    fn step(&self, kind: ExternKind, name: &str) -> Result<String, AllocError> {
        let word = match kind {
            ExternKind::Import => "import",
            ExternKind::Export => "export",
        };
        format!(in self.alloc; "{word} `{name}`")
    }
}

// What is imported or exported under a name, or else under the greatest version on its track.
fn extern_of(tracks: &NameMap<String, ItemKind>, name: &str) -> Result<ItemKind, EntryError> {
    match on_track(tracks, name)? {
        Some(item) => Ok(*item),
        None => Err(EntryError::Missing),
    }
}
