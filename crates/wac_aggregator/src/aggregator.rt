//! The aggregator.

ghost use Rattle.std.specs.Prelude.{◌≡◌, ◌≢◌, [], Contains, IfErr, IfOk, IsSome};
ghost use Rattle.wac_model.specs.Text.{Text};
ghost use Rattle.wac_component.specs.Collection.{Collection};
ghost use Rattle.wac_component.specs.Key.{AllStand, item_keys};
ghost use Rattle.wac_component.specs.declared.items.ItemKind.{ItemKind};
ghost use Rattle.wac_checker.specs.Cache.{without_number};
ghost use Rattle.wac_checker.specs.Checker.{direction, depth, remembered};
ghost use Rattle.wac_aggregator_promises.specs.Aggregated.{IsByTrack, IsCallStep};
ghost use Rattle.wac_aggregator_promises.specs.Attempt.{single_attempt};
ghost use Rattle.wac_aggregator_promises.specs.Due.{OwnsOn};
ghost use Rattle.wac_aggregator_promises.specs.Holding.{HoldsNoOthers};
ghost use Rattle.wac_aggregator_promises.specs.Imported.{track_names, ImportsAfter};
ghost use Rattle.wac_aggregator_promises.specs.PlainList.{IsPlain};
ghost use Rattle.wac_aggregator_promises.specs.PlainRun.{IsPlainStep, IsPlainRefusal};
ghost use Rattle.wac_aggregator_errors.specs.declared.error.AggregateError.TheVariants.{Memory};
ghost use Rattle.wac_aggregator_imports.specs.Left.{imports_left};
ghost use Rattle.wac_names.specs.Class.{Class, class_of};
ghost use Rattle.wac_aggregator_narrowing.specs.Remembers.{RemembersTruly};
ghost use Rattle.wac_aggregator_narrowing.specs.State.{IsOneWith};
ghost use Rattle.wac_aggregator_taking.specs.Refused.{HasReason};
ghost use Rattle.wac_aggregator_taking.specs.Takes.{OwnersImported};
ghost use Rattle.wac_aggregator.specs.Content.{shown, state_in, track_trees};
ghost use Rattle.wac_aggregator.specs.HandedIn.{call_of};

use super::all::Call;
use super::importing::advance;
use super::start::no_imports;
use std::alloc::Global;
use std::marker::Model;
use wac_aggregator_errors::AggregateError;
use wac_aggregator_imports::Imports;
use wac_aggregator_taking::Merging;
use wac_checker::SubtypeChecker;
use wac_component::{ItemKind, Types};
use wac_mismatch::SubtypeCheck;

/// Aggregates items of different collections into imports: items that are handed in under
/// compatible names become one import, which fits where each of them is asked for.
#[derive(Debug, Drop)]
pub struct TypeAggregator {
    pub(crate) state: Merging,
}

impl Model for TypeAggregator {
    ghost use Rattle.wac_aggregator.specs.Content.{AggregatorContent, content_of};
    ghost use Rattle.wac_aggregator.specs.InOrder.{IsMergingInOrder};

    ghost Value = { AggregatorContent };

    ghost view = { λ a. content_of a.state };

    ghost invariant = { λ a. IsMergingInOrder a.state };
}

impl TypeAggregator {
    /// An aggregator without imports. Its collection has this number, and is empty.
    pub fn new(alloc: Global, number: u64) -> TypeAggregator
        ensures number { result.types.number ≡ number }
        ensures empty { result.types ≡ record { number = number; defined = []; resources = []; funcs = []; interfaces = []; worlds = []; modules = [] } }
        ensures imports { (shown result).imports ≡ [] }
        ensures remembers_nothing { (f : Collection) → RemembersTruly class_of f (state_in result) }
        ensures owners { (f : Collection) → OwnersImported f (state_in result) }
    {
        TypeAggregator {
            state: no_imports(alloc, number, SubtypeCheck::Covariant, 0),
        }
    }

    /// The collection of the imports.
    pub fn types(&self) -> &Types
        ensures { result.now ≡ (shown self.now).types }
    {
        &self.state.types
    }

    /// The imports in order, each with its name.
    pub fn imports(&self) -> Imports<'_>
        ensures listed { imports_left result ≡ (shown self.now).imports }
        ensures standing { (n : Text) (k : ItemKind) → Contains (imports_left result) (n, k) → AllStand self.now.types (item_keys k) }
    {
        self.state.imports.iter()
    }

    /// The name of the import to which a name leads; any other name is its own.
    pub fn canonical_import_name<'a>(&'a self, name: &'a str) -> &'a str
        ensures { result.now ≡ (shown self.now).canonical name.now }
    {
        self.state.imports.canonical(name)
    }

    /// Aggregates an item of a collection under a name: merges it into the import on the name's
    /// track, or makes it an import of its own, the last.
    ///
    /// The item stands in its collection, which has another number than the aggregator's.
    /// What was handed in before with ids of its number is of this collection, which was
    /// at most added to since then.
    ///
    /// Where the name has a higher version than the import that it is merged into, the import takes
    /// the name and goes last, and its old name leads to it; else the name leads to the import. A
    /// refusal consumes the aggregator. No pair with an id of the aggregator stays in the checker's
    /// cache; nothing else of the checker changes.
    ///
    /// On another track than the name's each import keeps its name, and what is imported besides
    /// are owners of resources in the item, which all are where those of what was handed in before
    /// with ids of its number are. An interface with an identifier that the collection has
    /// more, and that isn't below an import of a component, is on the track of one that it had,
    /// or that the item openly reaches.
    ///
    /// Unless an allocation fails, a refusal comes only where there is that reason: with the import
    /// that stood on the track, in the item, or, of what can't be merged with it, in what this
    /// aggregator had taken in.
    ///
    /// An item that reaches no interface with an identifier, no interface or world with uses, and
    /// no resource with an owner changes no import but the one on its track, and is refused, unless
    /// an allocation fails, only where no item fits where either that import or the item is asked
    /// for.
    pub fn aggregate(
        self,
        name: &str,
        types: &Types,
        kind: ItemKind,
        checker: &mut SubtypeChecker<'_>,
    ) -> Result<TypeAggregator, AggregateError>
        requires source { AllStand types.now (item_keys kind) }
        requires apart { types.now.number ≢ self.types.number }
        requires remembered { RemembersTruly class_of types.now (state_in self) }
        ensures step { IfOk result (λ a. IsCallStep (shown self) (shown a) (call_of name.now types.now kind)) }
        ensures plain { IfOk result (λ a. IsPlain types.now kind → IsPlainStep (track_trees self) (track_trees a) (call_of name.now types.now kind)) }
        ensures plain_refusal { IfErr result (λ e. IsPlain types.now kind → e ≢ Memory → IsPlainRefusal (track_trees self) (call_of name.now types.now kind)) }
        ensures reason { IfErr result (HasReason (single_attempt self.types (track_trees self (class_of name.now)) (call_of name.now types.now kind))) }
        ensures by_track { IfOk result (λ a. IsByTrack (shown a)) }
        ensures imports { IfOk result (λ a. ImportsAfter (shown self) (shown a) (call_of name.now types.now kind)) }
        ensures held { IfOk result (λ a. HoldsNoOthers self.types a.types (call_of name.now types.now kind)) }
        ensures due { IfOk result (λ a. OwnersImported types.now (state_in self) → (t : Class) → OwnsOn (call_of name.now types.now kind) t → IsSome (track_names (shown a) t)) }
        ensures owners { IfOk result (λ a. (g : Collection) → IsOneWith types.now g → OwnersImported g (state_in self) → OwnersImported g (state_in a)) }
        ensures truly { IfOk result (λ a. (g : Collection) → IsOneWith types.now g → RemembersTruly class_of g (state_in self) → RemembersTruly class_of g (state_in a)) }
        ensures number { IfOk result (λ a. a.types.number ≡ self.types.number) }
        ensures forgotten { remembered checker.new ≡ without_number self.types.number (remembered checker.old) }
        ensures direction { direction checker.new ≡ direction checker.old }
        ensures depth { depth checker.new ≡ depth checker.old }
        ensures same_cache { checker.new.cache.ghost_name ≡ checker.old.cache.ghost_name }
    {
        let mut state = self.state;
        checker.forget(state.types.number());
        state.check = checker.direction();
        types.sound();
        advance(&mut state, &Call { name, types, kind })?;
        state.imports.filed();
        Ok(TypeAggregator { state })
    }
}
