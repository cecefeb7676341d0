//! The parts of items, interfaces, worlds and core modules.

ghost use Rattle.std.specs.Prelude.{option_copied, ◌≡◌, ◌^◌, ◌<◌, [], false, string_bytes};
ghost use Rattle.std.specs.Str.{bytes_eq};
ghost use Rattle.wac_model.specs.Text.{lookup};
ghost use Rattle.wac_component.specs.Content.{named};
ghost use Rattle.wac_component.specs.Key.{Stands, AllStand, interface_key, world_key, module_key, item_keys, named_keys, type_keys};
ghost use Rattle.wac_component.specs.Tree.{item_tree};
ghost use Rattle.wac_component.specs.declared.items.ItemKind.TheVariants.{«Type» as OfType};
ghost use Rattle.wac_mismatch.specs.Difference.{DifferIn};
ghost use Rattle.wac_mismatch.specs.Place.{item_side};
ghost use Rattle.wac_checker_parts.specs.Pairs.{Interfaces, Worlds, Modules, IsStanding, id_in};
ghost use Rattle.wac_checker_parts.specs.Listing.{AreItemsNamed, AreTreesApart, IsExportsListed, IsImportsTurn, IsPairTurn, IsTurn};

use super::leaves::{Items, entry_at};
use super::parts::{EntryPair, Halt, Named, PairParts, PairSort, Turn};
use super::sides::{Sides, interface_at, module_at, world_at};
use std::mem;
use wac_component::{ItemKind, Type};
use wac_core_checker::module_fits;
use wac_mismatch::{Difference, SubtypeCheck, SubtypeError};

impl<'a> Sides<'a> {
    /// Two items, which are the parts of this index.
    pub fn name_items(
        &self,
        parts: &mut PairParts,
        index: usize,
        a: &ItemKind,
        b: &ItemKind,
    ) -> Named
        requires left { AllStand self.now.left.now (item_keys a.now) }
        requires right { AllStand self.now.right.now (item_keys b.now) }
        ensures listed { AreItemsNamed self.now.left.now self.now.right.now self.now.swapped index a.now b.now parts.old.items parts.new.items result }
        ensures kept { parts.new.before ≡ parts.old.before }
    {
        match (a, b) {
            (ItemKind::Type(x), ItemKind::Type(y)) => self.name_types(parts, index, x, y),
            (ItemKind::Func(x), ItemKind::Func(y)) => {
                self.name_entries(parts, index, PairSort::Func, x.index(), y.index())
            }
            (ItemKind::Instance(x), ItemKind::Instance(y)) => {
                self.name_entries(parts, index, PairSort::Interface, x.index(), y.index())
            }
            (ItemKind::Component(x), ItemKind::Component(y)) => {
                self.name_entries(parts, index, PairSort::World, x.index(), y.index())
            }
            (ItemKind::Module(x), ItemKind::Module(y)) => {
                self.name_entries(parts, index, PairSort::Module, x.index(), y.index())
            }
            (ItemKind::Value(x), ItemKind::Value(y)) => self.name_values(parts, index, x, y),
            _ => Ok(false),
        }
    }

    // Two types.
    #[inline(always)]
    fn name_types(&self, parts: &mut PairParts, index: usize, a: &Type, b: &Type) -> Named
        requires left { AllStand self.now.left.now (type_keys a.now) }
        requires right { AllStand self.now.right.now (type_keys b.now) }
        ensures listed { AreItemsNamed self.now.left.now self.now.right.now self.now.swapped index (OfType a.now) (OfType b.now) parts.old.items parts.new.items result }
        ensures kept { parts.new.before ≡ parts.old.before }
    {
        match (a, b) {
            (Type::Resource(x), Type::Resource(y)) => Ok(self.are_one_resource(*x, *y)),
            (Type::Func(x), Type::Func(y)) => {
                self.name_entries(parts, index, PairSort::Func, x.index(), y.index())
            }
            (Type::Value(x), Type::Value(y)) => self.name_values(parts, index, x, y),
            (Type::Interface(x), Type::Interface(y)) => {
                self.name_entries(parts, index, PairSort::Interface, x.index(), y.index())
            }
            (Type::World(x), Type::World(y)) => {
                self.name_entries(parts, index, PairSort::World, x.index(), y.index())
            }
            (Type::Module(x), Type::Module(y)) => {
                self.name_entries(parts, index, PairSort::Module, x.index(), y.index())
            }
            _ => Ok(false),
        }
    }

    /// What two items differ in that do themselves.
    #[cold]
    #[inline(never)]
    pub fn items_apart(&self, a: &ItemKind, b: &ItemKind) -> Difference<'a>
        requires left { AllStand self.now.left.now (item_keys a.now) }
        requires right { AllStand self.now.right.now (item_keys b.now) }
        requires apart { AreTreesApart (item_tree self.now.left.now a.now) (item_tree self.now.right.now b.now) }
        ensures { DifferIn result (item_side (item_tree self.now.left.now a.now)) (item_side (item_tree self.now.right.now b.now)) }
    {
        match (a, b) {
            (ItemKind::Value(x), ItemKind::Value(y))
            | (ItemKind::Type(Type::Value(x)), ItemKind::Type(Type::Value(y))) => {
                self.values_apart(x, y)
            }
            (ItemKind::Type(Type::Resource(x)), ItemKind::Type(Type::Resource(y))) => {
                self.resources_apart(*x, *y)
            }
            _ => Difference::Kinds(a.desc(self.left), b.desc(self.right)),
        }
    }

    // The exports of the right side, as parts from this index on.
    #[inline(always)]
    fn list_exports(
        &self,
        parts: &mut PairParts,
        holder: &'static str,
        a: &'a Items,
        b: &'a Items,
        first: usize,
    ) -> Turn<'a>
        requires left { AllStand self.now.left.now (named_keys item_keys (named (λ k. k) a.now.entries)) }
        requires right { AllStand self.now.right.now (named_keys item_keys (named (λ k. k) b.now.entries)) }
        requires room { first < 2 ^ 63 }
        ensures listed { IsExportsListed self.now holder.now first (named (λ k. k) a.now.entries) (named (λ k. k) b.now.entries) parts.old.items parts.new.items result }
        ensures kept { parts.new.before ≡ parts.old.before }
    {
        for i in 0..b.len() {
            let (name, wanted) = entry_at(b, i);
            let Some(given) = named_at(a, i, name) else {
                let kind = wanted.desc(self.right);
                return Err(Halt::Apart(Difference::MissingExport(holder, kind, name)));
            };
            if !self.name_items(parts, first + i, given, wanted)? {
                let difference = self.items_apart(given, wanted);
                return Err(Halt::PartApart(first + i, false, difference));
            }
        }
        Ok(())
    }

    // The imports of the left side. The sides change places, and the direction turns.
    fn list_imports(&self, parts: &mut PairParts, a: &'a Items, b: &'a Items) -> Turn<'a>
        requires left { AllStand self.now.left.now (named_keys item_keys (named (λ k. k) a.now.entries)) }
        requires right { AllStand self.now.right.now (named_keys item_keys (named (λ k. k) b.now.entries)) }
        requires none { parts.old.items ≡ [] }
        ensures listed { IsImportsTurn self.now.left.now self.now.right.now self.now.swapped (named (λ k. k) a.now.entries) (named (λ k. k) b.now.entries) parts.new.items result }
        ensures kept { parts.new.before ≡ parts.old.before }
    {
        let turned = self.turned();
        for i in 0..a.len() {
            let (name, wanted) = entry_at(a, i);
            let Some(given) = named_at(b, i, name) else {
                let kind = wanted.desc(self.left);
                return Err(Halt::Apart(Difference::MissingImport(kind, name)));
            };
            if !turned.name_items(parts, i, given, wanted)? {
                return Err(Halt::PartApart(i, true, turned.items_apart(given, wanted)));
            }
        }
        Ok(())
    }

    // Two worlds: the imports of the left one, and then the exports of the right one.
    fn list_world(&self, parts: &mut PairParts, a: usize, b: usize) -> Turn<'a>
        requires left { Stands self.now.left.now (world_key (id_in self.now.left.now a)) }
        requires right { Stands self.now.right.now (world_key (id_in self.now.right.now b)) }
        requires none { parts.old.items ≡ [] }
        ensures listed { IsTurn self.now.left.now self.now.right.now self.now.swapped (Worlds (id_in self.now.left.now a) (id_in self.now.right.now b)) parts.new.items result }
        ensures kept { parts.new.before ≡ parts.old.before }
    {
        let a = world_at(self.left, a);
        let b = world_at(self.right, b);
        let left = &self.left[a];
        let right = &self.right[b];
        let imports = left.imports.len();
        self.list_imports(parts, &left.imports, &right.imports)?;
        self.list_exports(parts, "component", &left.exports, &right.exports, imports)
    }

    #[inline(always)]
    fn list_interface(&self, parts: &mut PairParts, a: usize, b: usize) -> Turn<'a>
        requires left { Stands self.now.left.now (interface_key (id_in self.now.left.now a)) }
        requires right { Stands self.now.right.now (interface_key (id_in self.now.right.now b)) }
        requires none { parts.old.items ≡ [] }
        ensures listed { IsTurn self.now.left.now self.now.right.now self.now.swapped (Interfaces (id_in self.now.left.now a) (id_in self.now.right.now b)) parts.new.items result }
        ensures kept { parts.new.before ≡ parts.old.before }
    {
        let a = interface_at(self.left, a);
        let b = interface_at(self.right, b);
        self.list_exports(
            parts,
            "instance",
            &self.left[a].exports,
            &self.right[b].exports,
            0,
        )
    }

    // Two core modules have no parts: they are compared at once. Their error is dropped.
    #[inline(never)]
    fn compare_modules(&self, a: usize, b: usize) -> Turn<'a>
        requires left { Stands self.now.left.now (module_key (id_in self.now.left.now a)) }
        requires right { Stands self.now.right.now (module_key (id_in self.now.right.now b)) }
        ensures { IsTurn self.now.left.now self.now.right.now self.now.swapped (Modules (id_in self.now.left.now a) (id_in self.now.right.now b)) [] result }
    {
        let a = &self.left[module_at(self.left, a)];
        let b = &self.right[module_at(self.right, b)];
        match module_fits(SubtypeCheck::Covariant, self.alloc, a, b) {
            Ok(()) => Ok(()),
            Err(SubtypeError::Mismatch { frames, fault }) => {
                mem::drop(frames);
                mem::drop(fault);
                Err(Halt::Modules)
            }
            Err(SubtypeError::Memory) => Err(Halt::Memory),
        }
    }

    /// Names what two entries stand on, in order, up to the first difference.
    #[inline(always)]
    pub fn list_parts(&self, pair: &EntryPair, parts: &mut PairParts) -> Turn<'a>
        requires stands { IsStanding self.now.left.now self.now.right.now pair.now }
        requires straight { self.now.swapped ≡ false }
        requires none { parts.old.items ≡ [] }
        ensures listed { IsPairTurn self.now.left.now self.now.right.now pair.now parts.new.items result }
        ensures kept { parts.new.before ≡ parts.old.before }
    {
        let sides = self.of(pair.swapped);
        match pair.sort {
            PairSort::Defined => sides.list_defined(parts, pair.left, pair.right),
            PairSort::Func => sides.list_func(parts, pair.left, pair.right),
            PairSort::Interface => sides.list_interface(parts, pair.left, pair.right),
            PairSort::World => sides.list_world(parts, pair.left, pair.right),
            PairSort::Module => sides.compare_modules(pair.left, pair.right),
        }
    }
}

// The item of a name. It is looked for at this place first, where it mostly is.
#[inline]
fn named_at<'a>(externs: &'a Items, index: usize, name: &String) -> Option<&'a ItemKind>
    ensures { option_copied result ≡ lookup bytes_eq (named (λ k. k) externs.now.entries) (string_bytes name.now) }
{
    if index < externs.len() {
        let (own, kind) = entry_at(externs, index);
        if own == name {
            return Some(kind);
        }
    }
    externs.get(name)
}
