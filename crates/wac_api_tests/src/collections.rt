//! What collections hold, in order, and what the entries and their clones show.

use std::alloc::AllocError;
use std::fmt::Debug;
use std::slice;
use std::test::Fail;
use wac_script_entries::built;
use wac_test_tools::debugs;

// An entry of each sort, others that name those, and defined types of each kind.
const LINES: &str = "def list u8
res file
func sync -
iface -
world -
module
res other r0 i0
func async u8 x=u8
iface p:i/n u:t=i0=u e:x=I:i0
world p:w/n u:t=i0=u m:i=I:i0 e:c=C:w0
module m:e,t=table:null.3:1:4:1:0 e:x=tag:i32:
def tuple d0 u8
def fixed u8 4
def map u8 d0
def option d0
def result u8 -
def alias d0
def stream u8
def future -
def variant a=- b=u8
def record a=u8
def flags a b
def enum a b";

const DEFINED: &str = "List(Primitive(U8))
Tuple([Defined(DefinedTypeId { number: 7, index: 0 }), Primitive(U8)])
FixedSizeList(Primitive(U8), 4)
Map(Primitive(U8), Defined(DefinedTypeId { number: 7, index: 0 }))
Option(Defined(DefinedTypeId { number: 7, index: 0 }))
Result { ok: Some(Primitive(U8)), err: None }
Alias(Defined(DefinedTypeId { number: 7, index: 0 }))
Stream(Some(Primitive(U8)))
Future(None)
Variant(Variant { cases: {\"a\": None, \"b\": Some(Primitive(U8))} })
Record(Record { fields: {\"a\": Primitive(U8)} })
Flags(Flags({\"a\", \"b\"}))
Enum(Enum({\"a\", \"b\"}))";

const RESOURCES: &str = "Resource { name: \"file\", alias: None }
Resource { name: \"other\", alias: Some(ResourceAlias { owner: Some(InterfaceId { number: 7, index: 0 }), source: ResourceId { number: 7, index: 0 } }) }";

const FUNCS: &str = "FuncType { params: {}, result: None, is_async: false }
FuncType { params: {\"x\": Primitive(U8)}, result: Some(Primitive(U8)), is_async: true }";

const INTERFACES: &str = "Interface { id: None, uses: {}, exports: {} }
Interface { id: Some(\"p:i/n\"), uses: {\"t\": UsedType { interface: InterfaceId { number: 7, index: 0 }, name: Some(\"u\") }}, exports: {\"x\": Instance(InterfaceId { number: 7, index: 0 })} }";

const WORLDS: &str = "World { id: None, uses: {}, imports: {}, exports: {} }
World { id: Some(\"p:w/n\"), uses: {\"t\": UsedType { interface: InterfaceId { number: 7, index: 0 }, name: Some(\"u\") }}, imports: {\"i\": Instance(InterfaceId { number: 7, index: 0 })}, exports: {\"c\": Component(WorldId { number: 7, index: 0 })} }";

const MODULES: &str = "ModuleType { imports: {}, exports: {} }
ModuleType { imports: {(\"e\", \"t\"): Table { element_type: CoreRefType { nullable: true, heap_type: Concrete(3) }, initial: 1, maximum: Some(4), table64: true, shared: false }}, exports: {\"x\": Tag(CoreFuncType { params: [I32], results: [] })} }";

// Whether the entries of a list and their clones have these debug texts, in order.
fn lists<T: Clone + Debug>(entries: slice::Iter<'_, T>, wanted: &str) -> Result<bool, AllocError> {
    if entries.len() != wanted.lines().count() {
        return Ok(false);
    }
    for (entry, text) in entries.zip(wanted.lines()) {
        let copy = entry.clone()?;
        if !debugs(entry, text) || !debugs(&copy, text) {
            return Ok(false);
        }
    }
    Ok(true)
}

#[test]
fn entries_are_listed_in_order_and_cloned(rt: HostRuntime) -> Result<(), Fail> {
    let types = built(rt.alloc(), 7, LINES)?;
    assert!(&rt; lists(types.defined_types(), DEFINED)?);
    assert!(&rt; lists(types.resources(), RESOURCES)?);
    assert!(&rt; lists(types.func_types(), FUNCS)?);
    assert!(&rt; lists(types.interfaces(), INTERFACES)?);
    assert!(&rt; lists(types.worlds(), WORLDS)?);
    assert!(&rt; lists(types.modules(), MODULES)?);
    Ok(())
}
