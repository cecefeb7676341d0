//! Maps that are read by track, and what is put into them.

ghost use Rattle.std.specs.Prelude.{◌≡◌, ◌<◌, List, Some, length, slice_get, IfErr, OnOk};
ghost use Rattle.std.specs.Str.{bytes_eq};
ghost use Rattle.indexmap.specs.IndexMap.{insert_all};
ghost use Rattle.wac_component.specs.Content.{named};
ghost use Rattle.wac_component.specs.declared.implicit.TargetError.TheVariants.{Memory};
ghost use Rattle.wac_model.specs.Text.{Text};
ghost use Rattle.wac_names.specs.Pairs.{with_pair};
ghost use Rattle.wac_targets.specs.Named.{IsMapOf, borrowed};

use indexmap::IndexMap;
use wac_component::TargetError;
use wac_names::{NameMap, NameMapNoIntern};

// Puts the values of a map that has borrowed names.
pub(super) fn insert_borrowed<V: Copy + Drop>(
    map: &mut NameMap<String, V>,
    values: &IndexMap<&str, V>,
) -> Result<(), TargetError>
    ensures ok { (ps : List (Text × V)) → IsMapOf map.old ps → OnOk result (IsMapOf map.new (insert_all bytes_eq ps (borrowed values.now.entries))) }
    ensures err { IfErr result (λ e. e ≡ Memory) }
{
    for i in 0..values.len() {
        let (name, value) = borrowed_at(values, i);
        insert(map, name, *value)?;
    }
    Ok(())
}

fn borrowed_at<'a, 'b, V>(values: &'b IndexMap<&'a str, V>, index: usize) -> (&'a str, &'b V)
    requires { index < length values.now.entries }
    ensures { slice_get (borrowed values.now.entries) index ≡ Some (result.0.now, result.1.now) }
{
    let (name, value) = values.get_index(index).unwrap();
    (*name, value)
}

// Puts the values of a map.
pub(super) fn insert_named<V: Copy + Drop>(
    map: &mut NameMap<String, V>,
    values: &IndexMap<String, V>,
) -> Result<(), TargetError>
    ensures ok { (ps : List (Text × V)) → IsMapOf map.old ps → OnOk result (IsMapOf map.new (insert_all bytes_eq ps (named (λ k. k) values.now.entries))) }
    ensures err { IfErr result (λ e. e ≡ Memory) }
{
    for i in 0..values.len() {
        let (name, value) = named_at(values, i);
        insert(map, name, *value)?;
    }
    Ok(())
}

// The name and the value at an index.
pub(crate) fn named_at<V>(values: &IndexMap<String, V>, index: usize) -> (&str, &V)
    requires { index < length values.now.entries }
    ensures { slice_get (named (λ k. k) values.now.entries) index ≡ Some (result.0.now, result.1.now) }
{
    let (name, value) = values.get_index(index).unwrap();
    (name.as_str(), value)
}

// Puts a value under a name, whatever was there.
fn insert<V: Drop>(map: &mut NameMap<String, V>, name: &str, value: V) -> Result<(), TargetError>
    ensures ok { (ps : List (Text × V)) → IsMapOf map.old ps → OnOk result (IsMapOf map.new (with_pair ps name.now value)) }
    ensures err { IfErr result (λ e. e ≡ Memory) }
{
    match map.insert(name, &mut NameMapNoIntern, true, value) {
        Ok(_) => Ok(()),
        Err(_) => Err(TargetError::Memory),
    }
}
