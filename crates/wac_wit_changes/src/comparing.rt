//! Compares interfaces and their members, and finds where they stand.

ghost use Rattle.std.specs.Prelude.{◌≡◌, ◌↔◌, ◌≤◌, [], length, IfOk, OnOk, IsNone};
ghost use Rattle.wac_wit_changes.specs.Comparing.{InterfaceFits};
ghost use Rattle.wac_wit_changes.specs.Sides.{FitsOn};

use super::checking::misfit;
use super::problem::{Problem, fault_text, steps_of};
use std::alloc::{AllocError, Global};
use wac_component::{InterfaceId, ItemKind, Types};
use wac_types::SubtypeError;
use wac_wit_entries::{EntryError, interface, sort_of};
use wac_wit_places::{FilePlace, Map, SourceSide, places_of};

/// What is compared, of one collection: the old package and the new one, or a component's package
/// and a target's.
#[derive(Clone, Copy)]
pub(crate) struct ComparedPair<'s, 'd> {
    pub(crate) alloc: Global,
    pub(crate) types: &'s Types,
    pub(crate) before: Map<'s, 'd>,
    pub(crate) after: Map<'s, 'd>,
}

/// An item on both sides, with the positions in the syntax.
#[derive(Clone, Copy)]
pub(super) struct Both<'s, 'd> {
    pub(super) old: ItemKind,
    pub(super) new: ItemKind,
    pub(super) before: SourceSide<'s, 'd>,
    pub(super) after: SourceSide<'s, 'd>,
}

/// Which side is given, and which is asked for.
#[derive(Clone, Copy)]
pub(super) enum Direction {
    /// What is new has to do where the old is asked for, as an import.
    NewForOld,
    /// What is old has to do where the new is asked for, as an export.
    OldForNew,
}

impl<'s, 'd> ComparedPair<'s, 'd> {
    /// Why a new interface doesn't do where an old one is asked for: nothing where it does.
    pub(crate) fn interface_problems(
        &self,
        before: InterfaceId,
        after: InterfaceId,
    ) -> Result<Vec<Problem>, EntryError>
        ensures { IfOk result (λ ps. (ps.items ≡ []) ↔ InterfaceFits self.now.types.now after before) }
    {
        let both = Both {
            old: ItemKind::Instance(before),
            new: ItemKind::Instance(after),
            before: SourceSide {
                map: self.before,
                walk: self.before.at_interface(before),
            },
            after: SourceSide {
                map: self.after,
                walk: self.after.at_interface(after),
            },
        };
        let mut problems = Vec::new(self.alloc);
        self.push_problems(&mut problems, &both, Direction::NewForOld)?;
        Ok(problems)
    }

    /// Puts last why an item doesn't fit: of interfaces, each member that doesn't.
    pub(super) fn push_problems(
        &self,
        problems: &mut Vec<Problem>,
        both: &Both<'s, 'd>,
        direction: Direction,
    ) -> Result<(), EntryError>
        ensures grows { OnOk result (length problems.old.items ≤ length problems.new.items) }
        ensures none { OnOk result ((length problems.new.items ≡ length problems.old.items) ↔ FitsOn self.now.types.now direction both.now.old both.now.new) }
    {
        let count = problems.len();
        let Some(problem) = self.misfit(both, direction)? else {
            return Ok(());
        };
        self.push_members(problems, both, direction)?;
        if problems.len() == count {
            problems.push(problem)?;
        }
        Ok(())
    }

    // Why the new one of two items doesn't do where the old one is asked for, or the old one where
    // the new one is.
    fn misfit(
        &self,
        both: &Both<'s, 'd>,
        direction: Direction,
    ) -> Result<Option<Problem>, EntryError>
        ensures { IfOk result (λ o. IsNone o ↔ FitsOn self.now.types.now direction both.now.old both.now.new) }
    {
        let outcome = match direction {
            Direction::NewForOld => misfit(self.alloc, self.types, &both.new, &both.old)?,
            Direction::OldForNew => misfit(self.alloc, self.types, &both.old, &both.new)?,
        };
        match outcome {
            Some(error) => Ok(Some(problem_of(self.alloc, both, direction, &error)?)),
            None => Ok(None),
        }
    }

    // Puts last why members don't fit, where both are interfaces.
    fn push_members(
        &self,
        problems: &mut Vec<Problem>,
        both: &Both<'s, 'd>,
        direction: Direction,
    ) -> Result<(), EntryError>
        ensures { OnOk result (length problems.old.items ≤ length problems.new.items) }
    {
        let (ItemKind::Instance(before), ItemKind::Instance(after)) = (&both.old, &both.new) else {
            return Ok(());
        };
        let Some(before) = interface(self.types, *before) else {
            return Err(EntryError::Missing);
        };
        let Some(after) = interface(self.types, *after) else {
            return Err(EntryError::Missing);
        };
        let asked = match direction {
            Direction::NewForOld => &before.exports,
            Direction::OldForNew => &after.exports,
        };
        for (name, item) in asked {
            let old = before.exports.get(name.as_str());
            let new = after.exports.get(name.as_str());
            if let (Some(old), Some(new)) = (old, new) {
                self.push_member(problems, both, name, (old, new), direction)?;
            } else {
                problems.push(absent(self.alloc, both, name, item, direction)?)?;
            }
        }
        Ok(())
    }

    // Puts last why a member of two interfaces doesn't fit.
    fn push_member(
        &self,
        problems: &mut Vec<Problem>,
        both: &Both<'s, 'd>,
        name: &str,
        items: (&ItemKind, &ItemKind),
        direction: Direction,
    ) -> Result<(), EntryError>
        ensures { OnOk result (length problems.old.items ≤ length problems.new.items) }
    {
        let member = Both {
            old: *items.0,
            new: *items.1,
            before: SourceSide {
                map: self.before,
                walk: both.before.member(name).walk,
            },
            after: SourceSide {
                map: self.after,
                walk: both.after.member(name).walk,
            },
        };
        if let Some(mut problem) = self.misfit(&member, direction)? {
            problem.put_under(format!(in self.alloc; "`{name}`")?)?;
            problems.push(problem)?;
        }
        Ok(())
    }
}

// A member that one of two interfaces has alone.
fn absent(
    alloc: Global,
    both: &Both<'_, '_>,
    name: &str,
    item: &ItemKind,
    direction: Direction,
) -> Result<Problem, AllocError> {
    let sort = sort_of(*item);
    let fault = match direction {
        Direction::NewForOld => format!(in alloc; "the {sort} `{name}` is gone"),
        Direction::OldForNew => {
            format!(in alloc; "the {sort} `{name}` is asked for, and isn't there")
        }
    };
    let before = both.before.member_place(name);
    let after = both.after.member_place(name);
    Problem::new(alloc, fault, before, after)
}

/// What a check of an item says, with its places.
pub(super) fn problem_of(
    alloc: Global,
    both: &Both<'_, '_>,
    direction: Direction,
    error: &SubtypeError,
) -> Result<Problem, AllocError> {
    let old = both.before.at_end(error.frames());
    let new = both.after.at_end(error.frames());
    let (before, after) = places(alloc, &old, &new, direction, error)?;
    Ok(Problem {
        path: steps_of(alloc, error)?,
        fault: fault_text(alloc, error)?,
        before,
        after,
    })
}

// The two places at the ends of a path.
fn places(
    alloc: Global,
    old: &SourceSide<'_, '_>,
    new: &SourceSide<'_, '_>,
    direction: Direction,
    error: &SubtypeError,
) -> Result<(Option<FilePlace>, Option<FilePlace>), AllocError> {
    let Some(fault) = error.fault() else {
        return Ok((old.place(), new.place()));
    };
    match direction {
        Direction::NewForOld => places_of(alloc, old, new, fault),
        Direction::OldForNew => {
            let (after, before) = places_of(alloc, new, old, fault)?;
            Ok((before, after))
        }
    }
}
