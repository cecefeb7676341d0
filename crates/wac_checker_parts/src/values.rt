//! The parts of value types and functions: the one table of defined types.

ghost use Rattle.std.specs.Prelude.{◌≡◌, ◌≢◌, ◌↔◌, false, IsTrue, [], length, map, is_some, string_bytes};
ghost use Rattle.std.specs.List.{flat_map};
ghost use Rattle.std.specs.Option.{option_to_list};
ghost use Rattle.wac_model.specs.ValueTree.{tuple, stream, future};
ghost use Rattle.wac_component.specs.Collection.{Collection, alias_of};
ghost use Rattle.wac_component.specs.Content.{types_of, case_types, defined_content, func_content};
ghost use Rattle.wac_component.specs.Key.{Stands, AllStand, func_key, func_keys, resource_key, value_keys};
ghost use Rattle.wac_component.specs.Tree.{IsCompound, IsResolved, content_tree, root_name, value_tree};
ghost use Rattle.wac_component.specs.declared.items.ValueType.{ValueType};
ghost use Rattle.wac_mismatch.specs.Difference.{DifferIn};
ghost use Rattle.wac_mismatch.specs.Place.{value_side};
ghost use Rattle.wac_checker_parts.specs.Pairs.{EntriesStand, DefinedTypes, Funcs, id_in};
ghost use Rattle.wac_checker_parts.specs.Listing.{AreComposed, AreEntriesAt, AreLeavesApart, ArePayloads, AreRecords, AreRoots, AreValuesNamed, AreVariants};
ghost use Rattle.wac_checker_parts.specs.Listing.{IsLastTurn, IsNamesTurn, IsOptionalListed, IsParamsTurn, IsTurn};

use super::leaves::{Cases, Fields, Names, Payload, entry_at, name_at, nth_type, root_name_of};
use super::parts::{EntryPair, Halt, Named, PairParts, PairSort, Turn};
use super::sides::{Sides, defined_at, func_at};
use wac_component::{DefinedType, FuncType, ResourceId, ValueType};
use wac_mismatch::{CountOf, Difference, NameOf, ResultPart};

impl<'a> Sides<'a> {
    /// Whether two resources are one: those at the roots of their aliases have one name.
    pub(crate) fn are_one_resource(&self, a: ResourceId, b: ResourceId) -> bool
        requires left { Stands self.now.left.now (resource_key a) }
        requires right { Stands self.now.right.now (resource_key b) }
        ensures { IsTrue result ↔ (root_name self.now.left.now a ≡ root_name self.now.right.now b) }
    {
        root_name_of(a, self.left) == root_name_of(b, self.right)
    }

    /// Two entries of a sort, by their indices: they are named, unless they are one.
    #[inline(always)]
    pub(crate) fn name_entries(
        &self,
        parts: &mut PairParts,
        index: usize,
        sort: PairSort,
        left: usize,
        right: usize,
    ) -> Named
        ensures named { AreEntriesAt self.now index sort left right parts.old.items parts.new.items result }
        ensures kept { parts.new.before ≡ parts.old.before }
    {
        let same = self.left.number() == self.right.number() && left == right;
        let pair = EntryPair {
            left,
            right,
            sort,
            swapped: self.swapped,
        };
        parts.name(index, same, pair)
    }

    /// Two value types, which are the parts of this index.
    #[inline(always)]
    pub(crate) fn name_values(
        &self,
        parts: &mut PairParts,
        index: usize,
        a: &ValueType,
        b: &ValueType,
    ) -> Named
        requires left { AllStand self.now.left.now (value_keys a.now) }
        requires right { AllStand self.now.right.now (value_keys b.now) }
        ensures listed { AreValuesNamed self.now.left.now self.now.right.now self.now.swapped index a.now b.now parts.old.items parts.new.items result }
        ensures kept { parts.new.before ≡ parts.old.before }
    {
        // most values are primitive, and have no aliases to look through
        if let (ValueType::Primitive(x), ValueType::Primitive(y)) = (a, b) {
            return Ok(x == y);
        }
        self.name_others(parts, index, a, b)
    }

    // The same of any two: a function of its own, so that the test above stands where it is asked.
    #[inline(never)]
    fn name_others(
        &self,
        parts: &mut PairParts,
        index: usize,
        a: &ValueType,
        b: &ValueType,
    ) -> Named
        requires left { AllStand self.now.left.now (value_keys a.now) }
        requires right { AllStand self.now.right.now (value_keys b.now) }
        ensures listed { AreValuesNamed self.now.left.now self.now.right.now self.now.swapped index a.now b.now parts.old.items parts.new.items result }
        ensures kept { parts.new.before ≡ parts.old.before }
    {
        if let (ValueType::Defined(x), ValueType::Defined(y)) = (a, b) {
            let (left, right) = (&self.left[*x], &self.right[*y]);
            // most types are no aliases
            if !is_alias(left) && !is_alias(right) {
                return self.name_resolved(parts, index, a, b);
            }
        }
        let x = self.left.resolve_value_type(*a);
        let y = self.right.resolve_value_type(*b);
        self.name_resolved(parts, index, &x, &y)
    }

    // Two that are no aliases.
    #[inline(always)]
    fn name_resolved(
        &self,
        parts: &mut PairParts,
        index: usize,
        a: &ValueType,
        b: &ValueType,
    ) -> Named
        requires left { AllStand self.now.left.now (value_keys a.now) }
        requires right { AllStand self.now.right.now (value_keys b.now) }
        requires left_resolved { IsResolved self.now.left.now a.now }
        requires right_resolved { IsResolved self.now.right.now b.now }
        ensures listed { AreValuesNamed self.now.left.now self.now.right.now self.now.swapped index a.now b.now parts.old.items parts.new.items result }
        ensures kept { parts.new.before ≡ parts.old.before }
    {
        match (a, b) {
            (ValueType::Primitive(x), ValueType::Primitive(y)) => Ok(x == y),
            (ValueType::Borrow(x), ValueType::Borrow(y)) => Ok(self.are_one_resource(*x, *y)),
            (ValueType::Own(x), ValueType::Own(y)) => Ok(self.are_one_resource(*x, *y)),
            (ValueType::Defined(x), ValueType::Defined(y)) => {
                self.name_entries(parts, index, PairSort::Defined, x.index(), y.index())
            }
            _ => Ok(false),
        }
    }

    /// What two value types differ in that do themselves.
    #[cold]
    #[inline(never)]
    pub(crate) fn values_apart(&self, a: &ValueType, b: &ValueType) -> Difference<'a>
        requires left { AllStand self.now.left.now (value_keys a.now) }
        requires right { AllStand self.now.right.now (value_keys b.now) }
        requires apart { AreLeavesApart (value_tree self.now.left.now a.now) (value_tree self.now.right.now b.now) }
        ensures { DifferIn result (value_side (value_tree self.now.left.now a.now)) (value_side (value_tree self.now.right.now b.now)) }
    {
        let a = self.left.resolve_value_type(*a);
        let b = self.right.resolve_value_type(*b);
        match (&a, &b) {
            (ValueType::Borrow(x), ValueType::Borrow(y)) => self.resources_apart(*x, *y),
            (ValueType::Own(x), ValueType::Own(y)) => self.resources_apart(*x, *y),
            _ => Difference::Kinds(a.desc(self.left), b.desc(self.right)),
        }
    }

    /// What two resources differ in that do.
    pub(crate) fn resources_apart(&self, a: ResourceId, b: ResourceId) -> Difference<'a>
        requires left { Stands self.now.left.now (resource_key a) }
        requires right { Stands self.now.right.now (resource_key b) }
        ensures { AreRoots result (root_name self.now.left.now a) (root_name self.now.right.now b) }
    {
        Difference::Resources(root_name_of(a, self.left), root_name_of(b, self.right))
    }

    // Two value types, which are the last parts so far.
    #[inline(always)]
    fn list_values(
        &self,
        parts: &mut PairParts,
        index: usize,
        a: &ValueType,
        b: &ValueType,
    ) -> Turn<'a>
        requires left { AllStand self.now.left.now (value_keys a.now) }
        requires right { AllStand self.now.right.now (value_keys b.now) }
        ensures listed { IsLastTurn self.now.left.now self.now.right.now self.now.swapped index a.now b.now parts.old.items parts.new.items result }
        ensures kept { parts.new.before ≡ parts.old.before }
    {
        if self.name_values(parts, index, a, b)? {
            return Ok(());
        }
        Err(Halt::PartApart(index, false, self.values_apart(a, b)))
    }

    #[inline(always)]
    fn list_items(&self, parts: &mut PairParts, a: &[ValueType], b: &[ValueType]) -> Turn<'a>
        requires left { AllStand self.now.left.now (flat_map value_keys a.now) }
        requires right { AllStand self.now.right.now (flat_map value_keys b.now) }
        requires none { parts.old.items ≡ [] }
        ensures listed { AreComposed self.now.left.now self.now.right.now self.now.swapped tuple a.now tuple b.now parts.new.items result }
        ensures kept { parts.new.before ≡ parts.old.before }
    {
        if a.len() != b.len() {
            return Err(Halt::Apart(Difference::Count(CountOf::Tuple, a.len(), b.len())));
        }
        for i in 0..a.len() {
            self.list_values(parts, i, nth_type(a, i), nth_type(b, i))?;
        }
        Ok(())
    }

    #[inline(always)]
    fn list_record(&self, parts: &mut PairParts, a: &'a Fields, b: &'a Fields) -> Turn<'a>
        requires left { AllStand self.now.left.now (flat_map value_keys (types_of a.now.entries)) }
        requires right { AllStand self.now.right.now (flat_map value_keys (types_of b.now.entries)) }
        requires none { parts.old.items ≡ [] }
        ensures listed { AreRecords self.now.left.now self.now.right.now self.now.swapped a.now.entries b.now.entries parts.new.items result }
        ensures kept { parts.new.before ≡ parts.old.before }
    {
        if a.len() != b.len() {
            return Err(Halt::Apart(Difference::Count(CountOf::Record, a.len(), b.len())));
        }
        for i in 0..a.len() {
            let (left, x) = entry_at(a, i);
            let (right, y) = entry_at(b, i);
            if left != right {
                return Err(Halt::Apart(Difference::Name(NameOf::Record, i, left, right)));
            }
            self.list_values(parts, i, x, y)?;
        }
        Ok(())
    }

    #[inline(always)]
    fn list_cases(&self, parts: &mut PairParts, a: &'a Cases, b: &'a Cases) -> Turn<'a>
        requires left { AllStand self.now.left.now (flat_map value_keys (case_types a.now.entries)) }
        requires right { AllStand self.now.right.now (flat_map value_keys (case_types b.now.entries)) }
        requires none { parts.old.items ≡ [] }
        ensures listed { AreVariants self.now.left.now self.now.right.now self.now.swapped a.now.entries b.now.entries parts.new.items result }
        ensures kept { parts.new.before ≡ parts.old.before }
    {
        if a.len() != b.len() {
            return Err(Halt::Apart(Difference::Count(CountOf::Variant, a.len(), b.len())));
        }
        for i in 0..a.len() {
            let (left, x) = entry_at(a, i);
            let (right, y) = entry_at(b, i);
            if left != right {
                return Err(Halt::Apart(Difference::Name(NameOf::Variant, i, left, right)));
            }
            let types = Difference::CaseType(right, x.is_some(), y.is_some());
            self.list_optional(parts, i, types, x, y)?;
        }
        Ok(())
    }

    // The types of two parts, each there or not: where only one is, they differ in this.
    #[inline(always)]
    fn list_optional(
        &self,
        parts: &mut PairParts,
        index: usize,
        difference: Difference<'a>,
        a: &Payload,
        b: &Payload,
    ) -> Turn<'a>
        requires left { AllStand self.now.left.now (flat_map value_keys (option_to_list a.now)) }
        requires right { AllStand self.now.right.now (flat_map value_keys (option_to_list b.now)) }
        ensures listed { IsOptionalListed self.now index difference.entry a.now b.now parts.old.items parts.new.items result }
        ensures kept { parts.new.before ≡ parts.old.before }
    {
        match (a, b) {
            (None, None) => Ok(()),
            (Some(x), Some(y)) => self.list_values(parts, index, x, y),
            _ => Err(Halt::Apart(difference)),
        }
    }

    // The types of two payloads, each there or not.
    #[inline(always)]
    fn list_payload(&self, parts: &mut PairParts, a: &Payload, b: &Payload) -> Turn<'a>
        requires left { AllStand self.now.left.now (flat_map value_keys (option_to_list a.now)) }
        requires right { AllStand self.now.right.now (flat_map value_keys (option_to_list b.now)) }
        requires none { parts.old.items ≡ [] }
        ensures stream { ArePayloads self.now stream a.now b.now parts.new.items result }
        ensures future { ArePayloads self.now future a.now b.now parts.new.items result }
        ensures kept { parts.new.before ≡ parts.old.before }
    {
        match (a, b) {
            (None, None) => Ok(()),
            (Some(x), Some(y)) => self.list_values(parts, 0, x, y),
            _ => {
                let difference = Difference::Payload(a.is_some(), b.is_some());
                Err(Halt::PartApart(0, false, difference))
            }
        }
    }

    /// Two defined types, by their indices.
    #[inline(always)]
    pub(crate) fn list_defined(&self, parts: &mut PairParts, a: usize, b: usize) -> Turn<'a>
        requires stand { EntriesStand self.now.left.now self.now.right.now (DefinedTypes (id_in self.now.left.now a) (id_in self.now.right.now b)) }
        requires none { parts.old.items ≡ [] }
        ensures listed { IsTurn self.now.left.now self.now.right.now self.now.swapped (DefinedTypes (id_in self.now.left.now a) (id_in self.now.right.now b)) parts.new.items result }
        ensures kept { parts.new.before ≡ parts.old.before }
    {
        let a = defined_at(self.left, a);
        let b = defined_at(self.right, b);
        match (&self.left[a], &self.right[b]) {
            (DefinedType::Tuple(x), DefinedType::Tuple(y)) => self.list_items(parts, x, y),
            (DefinedType::List(x), DefinedType::List(y)) => self.list_values(parts, 0, x, y),
            (DefinedType::FixedSizeList(x, m), DefinedType::FixedSizeList(y, n)) => {
                if m != n {
                    return Err(Halt::Apart(Difference::FixedSize));
                }
                self.list_values(parts, 0, x, y)
            }
            (DefinedType::Map(x, v), DefinedType::Map(y, w)) => {
                self.list_values(parts, 0, x, y)?;
                self.list_values(parts, 1, v, w)
            }
            (DefinedType::Option(x), DefinedType::Option(y)) => self.list_values(parts, 0, x, y),
            (DefinedType::Result { ok, err }, DefinedType::Result { ok: ok2, err: err2 }) => {
                let oks = Difference::ResultPart(ResultPart::Ok, ok.is_some(), ok2.is_some());
                let errs = Difference::ResultPart(ResultPart::Err, err.is_some(), err2.is_some());
                self.list_optional(parts, 0, oks, ok, ok2)?;
                self.list_optional(parts, 1, errs, err, err2)
            }
            (DefinedType::Variant(x), DefinedType::Variant(y)) => {
                self.list_cases(parts, &x.cases, &y.cases)
            }
            (DefinedType::Record(x), DefinedType::Record(y)) => {
                self.list_record(parts, &x.fields, &y.fields)
            }
            (DefinedType::Flags(x), DefinedType::Flags(y)) => {
                compare_names(CountOf::Flags, NameOf::Flags, &x.0, &y.0)
            }
            (DefinedType::Enum(x), DefinedType::Enum(y)) => {
                compare_names(CountOf::Enum, NameOf::Enum, &x.0, &y.0)
            }
            (DefinedType::Stream(x), DefinedType::Stream(y)) => self.list_payload(parts, x, y),
            (DefinedType::Future(x), DefinedType::Future(y)) => self.list_payload(parts, x, y),
            _ => {
                let (a, b) = (ValueType::Defined(a), ValueType::Defined(b));
                Err(Halt::Apart(self.values_apart(&a, &b)))
            }
        }
    }

    /// Two functions, by their indices: parameters, then results.
    #[inline(always)]
    pub(crate) fn list_func(&self, parts: &mut PairParts, a: usize, b: usize) -> Turn<'a>
        requires left { Stands self.now.left.now (func_key (id_in self.now.left.now a)) }
        requires right { Stands self.now.right.now (func_key (id_in self.now.right.now b)) }
        requires none { parts.old.items ≡ [] }
        ensures listed { IsTurn self.now.left.now self.now.right.now self.now.swapped (Funcs (id_in self.now.left.now a) (id_in self.now.right.now b)) parts.new.items result }
        ensures kept { parts.new.before ≡ parts.old.before }
    {
        let a = func_at(self.left, a);
        let b = func_at(self.right, b);
        let left = &self.left[a];
        let right = &self.right[b];
        if left.is_async != right.is_async {
            return Err(Halt::Apart(Difference::Async(left.is_async, right.is_async)));
        }
        let count = left.params.len();
        let others = right.params.len();
        if count != others {
            return Err(Halt::Apart(Difference::ParamCount(count, others)));
        }
        self.list_params(parts, left, right)?;
        let results = Difference::FuncResult(left.result.is_some(), right.result.is_some());
        self.list_optional(parts, count, results, &left.result, &right.result)
    }

    // The parameters of two functions. There are as many.
    #[inline(always)]
    fn list_params(&self, parts: &mut PairParts, a: &'a FuncType, b: &'a FuncType) -> Turn<'a>
        requires left { AllStand self.now.left.now (func_keys (func_content a.now)) }
        requires right { AllStand self.now.right.now (func_keys (func_content b.now)) }
        requires count { length a.now.params.entries ≡ length b.now.params.entries }
        requires none { parts.old.items ≡ [] }
        ensures listed { IsParamsTurn self.now.left.now self.now.right.now self.now.swapped (func_content a.now) (func_content b.now) parts.new.items result }
        ensures kept { parts.new.before ≡ parts.old.before }
    {
        for i in 0..a.params.len() {
            let (left, x) = entry_at(&a.params, i);
            let (right, y) = entry_at(&b.params, i);
            if left != right {
                return Err(Halt::Apart(Difference::ParamName(i, left, right)));
            }
            self.list_values(parts, i, x, y)?;
        }
        Ok(())
    }
}

fn compare_names<'a>(count: CountOf, of: NameOf, a: &'a Names, b: &'a Names) -> Turn<'a>
    ensures { IsNamesTurn count of (map string_bytes a.now.keys) (map string_bytes b.now.keys) result }
{
    if a.len() != b.len() {
        return Err(Halt::Apart(Difference::Count(count, a.len(), b.len())));
    }
    for i in 0..a.len() {
        let left = name_at(a, i);
        let right = name_at(b, i);
        if left != right {
            return Err(Halt::Apart(Difference::Name(of, i, left, right)));
        }
    }
    Ok(())
}

fn is_alias(ty: &DefinedType) -> bool
    ensures resolved { result ≡ false → (of : ValueType) → defined_content ty.now ≢ alias_of of }
    ensures compound { result ≡ false → (l : Collection) → IsCompound (content_tree (value_tree l) (defined_content ty.now)) }
{
    match ty {
        DefinedType::Alias(_) => true,
        _ => false,
    }
}
