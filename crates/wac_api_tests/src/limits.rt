//! Core modules that aren't valid, since a table or a memory starts above its maximum: they aren't
//! added, and one that is to be put in the place of another is handed back.

use std::alloc::{AllocError, Global};
use std::process::Abort;
use std::test::Fail;
use wac_script_entries::built;
use wac_test_tools::{debugs, module, shows};
use wac_types::{CoreExtern, CoreRefType, HeapType, ModuleError, ModuleType, Types};

// A core module that exports a memory of these limits.
fn exporting_memory(alloc: Global, initial: u64, maximum: u64) -> Result<ModuleType, AllocError> {
    let mut ty = ModuleType::new(alloc);
    let memory = CoreExtern::Memory {
        memory64: false,
        shared: false,
        initial,
        maximum: Some(maximum),
        page_size_log2: None,
    };
    ty.exports.insert(String::from_str(alloc, "m")?, memory)?;
    Ok(ty)
}

// A core module that imports a table of these limits.
fn importing_table(alloc: Global, initial: u64, maximum: u64) -> Result<ModuleType, AllocError> {
    let mut ty = ModuleType::new(alloc);
    let table = CoreExtern::Table {
        element_type: CoreRefType {
            nullable: true,
            heap_type: HeapType::Func,
        },
        initial,
        maximum: Some(maximum),
        table64: false,
        shared: false,
    };
    let name = (String::from_str(alloc, "e")?, String::from_str(alloc, "t")?);
    ty.imports.insert(name, table)?;
    Ok(ty)
}

// Whether a core module is added. Limits are the one reason why it isn't, but for memory.
fn is_added(types: &mut Types, ty: ModuleType) -> Result<bool, Fail> {
    match types.add_module_type(ty) {
        Ok(_) => Ok(true),
        Err(ModuleError::Limits) => Ok(false),
        Err(ModuleError::Memory) => Err(Fail::from(AllocError)),
    }
}

const NOTHING: &str =
    "Types { number: 1, defined: [], resources: [], funcs: [], interfaces: [], worlds: [], modules: [] }";

#[test]
fn a_module_that_starts_above_its_maximum_is_not_added(rt: HostRuntime) -> Result<(), Fail> {
    let mut types = Types::new(rt.alloc(), 1);
    let memory = exporting_memory(rt.alloc(), 5, 4)?;
    assert!(&rt; !is_added(&mut types, memory)?);
    let table = importing_table(rt.alloc(), 1, 0)?;
    assert!(&rt; !is_added(&mut types, table)?);
    assert!(&rt; debugs(&types, NOTHING));
    let memory = exporting_memory(rt.alloc(), 4, 4)?;
    assert!(&rt; is_added(&mut types, memory)?);
    Ok(())
}

#[test]
fn a_refused_module_has_a_text(rt: HostRuntime) {
    assert!(&rt; shows(&ModuleError::Limits, "initial above maximum"));
    assert!(&rt; shows(&ModuleError::Memory, "out of memory"));
}

// Puts a core module that exports a memory of 5 to 4 in the place of the first one.
fn replace_first<R: Abort>(rt: &R, types: &mut Types, ty: ModuleType) -> Result<(), Fail> {
    let first = module(types, 0)?;
    let answer = types.replace_module_type(first, ty);
    let handed =
        "Err(Limits(ModuleType { imports: {}, exports: {\"m\": Memory { memory64: false, shared: false, initial: 5, maximum: Some(4), page_size_log2: None }} }))";
    assert!(rt; debugs(&answer, handed));
    Ok(())
}

#[test]
fn a_module_that_starts_above_its_maximum_is_handed_back(rt: HostRuntime) -> Result<(), Fail> {
    let mut types = built(rt.alloc(), 1, "module")?;
    let memory = exporting_memory(rt.alloc(), 5, 4)?;
    replace_first(&rt, &mut types, memory)?;
    let kept =
        "Types { number: 1, defined: [], resources: [], funcs: [], interfaces: [], worlds: [], modules: [ModuleType { imports: {}, exports: {} }] }";
    assert!(&rt; debugs(&types, kept));
    Ok(())
}
