//! The text of a report.

use crate::report::TargetValidationReport;
use std::fmt;
use wac_component::{ExternKind, ItemKind, Type, ValueType};

/// Its three parts, each under a heading where there is any, with one line for each name.
impl fmt::Display for TargetValidationReport {
    fn fmt<W: fmt::Write>(&self, f: &mut fmt::Formatter<W>) -> fmt::Result {
        self.write_imports_not_in_target(f)?;
        self.write_missing_exports(f)?;
        self.write_mismatched_types(f)
    }
}

impl TargetValidationReport {
    fn write_imports_not_in_target<W: fmt::Write>(&self, f: &mut fmt::Formatter<W>) -> fmt::Result {
        if self.imports_not_in_target.is_empty() {
            return Ok(());
        }
        f.write_str("Imports present in the component but not in the target world:\n")?;
        for name in self.imports_not_in_target() {
            write!(f, "  - {name}\n")?;
        }
        Ok(())
    }

    fn write_missing_exports<W: fmt::Write>(&self, f: &mut fmt::Formatter<W>) -> fmt::Result {
        if self.missing_exports.is_empty() {
            return Ok(());
        }
        f.write_str("Exports required by target world but not present in the component:\n")?;
        for (name, kind) in self.missing_exports() {
            let item = ItemText(*kind);
            write!(f, "  - {name}: {item}\n")?;
        }
        Ok(())
    }

    fn write_mismatched_types<W: fmt::Write>(&self, f: &mut fmt::Formatter<W>) -> fmt::Result {
        if self.mismatched_types.is_empty() {
            return Ok(());
        }
        f.write_str("Type mismatches between the target world and the component:\n")?;
        for (name, kind, error) in self.mismatched_types() {
            let kind = extern_text(*kind);
            write!(f, "  - {name}: {kind} ({error})\n")?;
        }
        Ok(())
    }
}

fn extern_text(kind: ExternKind) -> &'static str {
    match kind {
        ExternKind::Import => "Import",
        ExternKind::Export => "Export",
    }
}

/// Writes an item by its case and its index, as a report does: `Func(0)`.
#[derive(Clone, Copy, PartialEq, Eq, Debug)]
pub struct ItemText(pub ItemKind);

impl fmt::Display for ItemText {
    fn fmt<W: fmt::Write>(&self, f: &mut fmt::Formatter<W>) -> fmt::Result {
        write_item(self.0, f)
    }
}

fn write_item<W: fmt::Write>(kind: ItemKind, f: &mut fmt::Formatter<W>) -> fmt::Result {
    match kind {
        ItemKind::Type(ty) => {
            f.write_str("Type(")?;
            write_type(ty, f)?;
            f.write_str(")")
        }
        ItemKind::Func(id) => write!(f, "Func({id})"),
        ItemKind::Instance(id) => write!(f, "Instance({id})"),
        ItemKind::Component(id) => write!(f, "Component({id})"),
        ItemKind::Module(id) => write!(f, "Module({id})"),
        ItemKind::Value(ty) => {
            f.write_str("Value(")?;
            write_value(ty, f)?;
            f.write_str(")")
        }
    }
}

fn write_type<W: fmt::Write>(ty: Type, f: &mut fmt::Formatter<W>) -> fmt::Result {
    match ty {
        Type::Resource(id) => write!(f, "Resource({id})"),
        Type::Func(id) => write!(f, "Func({id})"),
        Type::Value(ty) => {
            f.write_str("Value(")?;
            write_value(ty, f)?;
            f.write_str(")")
        }
        Type::Interface(id) => write!(f, "Interface({id})"),
        Type::World(id) => write!(f, "World({id})"),
        Type::Module(id) => write!(f, "Module({id})"),
    }
}

fn write_value<W: fmt::Write>(ty: ValueType, f: &mut fmt::Formatter<W>) -> fmt::Result {
    match ty {
        ValueType::Primitive(ty) => write!(f, "Primitive({ty:?})"),
        ValueType::Borrow(id) => write!(f, "Borrow({id})"),
        ValueType::Own(id) => write!(f, "Own({id})"),
        ValueType::Defined(id) => write!(f, "Defined({id})"),
    }
}
