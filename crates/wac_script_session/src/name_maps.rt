//! The answer about a map of names.

ghost use Rattle.std.specs.Prelude.{◌≡◌, true};

use std::alloc::{AllocError, Global};
use std::hash::Hash;
use std::mem;
use wac_interners::Numbers;
use wac_names::{NameError, NameMap, NameMapIntern, NameMapNoIntern};
use wac_script_syntax::{ScriptError, push_name, read_name, read_number, split_named, unexpected};

// A key that can be written.
trait KeyWord {
    // Puts the word that writes the key last.
    fn push_word(&self, text: &mut String) -> Result<(), AllocError>;
}

impl KeyWord for String {
    fn push_word(&self, text: &mut String) -> Result<(), AllocError> {
        push_name(text, self.as_str())
    }
}

impl KeyWord for usize {
    fn push_word(&self, text: &mut String) -> Result<(), AllocError> {
        write!(text, "{self}")
    }
}

// What is done with a name.
#[derive(Clone, Copy)]
enum Step {
    // Inserts a value.
    Insert { value: u64, allow_shadowing: bool },
    // Writes a value at the key of the name.
    Write(u64),
    // Looks for the value of the name, or of the greatest version on its track.
    Get,
    // Interns the name.
    Intern,
    // Looks up the key of the name.
    LookUp,
}

// A step, and the name that it is about.
#[derive(Drop)]
struct Operation {
    step: Step,
    name: String,
}

// Reads the name and the value of an insertion or a write, or the name alone.
fn read_operation(alloc: Global, word: &str) -> Result<Operation, ScriptError<'_>> {
    let Some((kind, of)) = word.split_once(':') else {
        return Err(unexpected("an operation", word));
    };
    let (step, name) = match kind {
        "g" => (Step::Get, of),
        "n" => (Step::Intern, of),
        "l" => (Step::LookUp, of),
        "i" | "s" | "w" => read_setting(kind, of)?,
        _ => return Err(unexpected("an operation", word)),
    };
    Ok(Operation {
        step,
        name: read_name(alloc, name)?,
    })
}

// Reads `NAME=N`, which follow `w` for a write, and `s` or `i` for an
// insertion that may shadow or not.
fn read_setting<'a>(kind: &str, word: &'a str) -> Result<(Step, &'a str), ScriptError<'a>> {
    let (name, value) = split_named("`NAME=N`", word)?;
    let value = read_number(value)?;
    let step = match kind {
        "w" => Step::Write(value),
        _ => Step::Insert {
            value,
            allow_shadowing: kind == "s",
        },
    };
    Ok((step, name))
}

// Puts a value last, or `none`.
fn push_value(text: &mut String, value: Option<u64>) -> Result<(), AllocError> {
    match value {
        Some(value) => write!(text, "{value}"),
        None => text.push_str("none"),
    }
}

// Writes a value at the key of a name, and answers the value before.
fn write<K: Eq + Hash + Drop, I: NameMapIntern<Key = K>>(
    alloc: Global,
    map: &mut NameMap<K, u64>,
    cx: &I,
    name: &str,
    value: u64,
) -> Result<Option<u64>, AllocError> {
    let Some(key) = cx.lookup(alloc, name)? else {
        return Ok(None);
    };
    match map.raw_get_mut(&key) {
        Some(old) => Ok(Some(mem::replace(old, value))),
        None => Ok(None),
    }
}

// Inserts a value, and puts the key last, or `twice`.
fn insert<K: Clone + Eq + Hash + Drop + KeyWord, I: NameMapIntern<Key = K>>(
    text: &mut String,
    map: &mut NameMap<K, u64>,
    cx: &mut I,
    name: &str,
    value: u64,
    allow_shadowing: bool,
) -> Result<(), AllocError>
    requires { (j k : K) → K.is_clone j k → K.eq j k ≡ true }
{
    match map.insert(name, cx, allow_shadowing, value) {
        Ok(key) => key.push_word(text),
        Err(NameError::Twice { name: _ }) => text.push_str("twice"),
        Err(NameError::Memory) => Err(AllocError),
    }
}

// Carries out an operation, and puts the answer last.
fn carry_out<K: Clone + Eq + Hash + Drop + KeyWord, I: NameMapIntern<Key = K>>(
    alloc: Global,
    text: &mut String,
    map: &mut NameMap<K, u64>,
    cx: &mut I,
    operation: &Operation,
) -> Result<(), AllocError>
    requires { (j k : K) → K.is_clone j k → K.eq j k ≡ true }
{
    let name = operation.name.as_str();
    match operation.step {
        Step::Insert {
            value,
            allow_shadowing,
        } => insert(text, map, cx, name, value, allow_shadowing),
        Step::Write(value) => push_value(text, write(alloc, map, cx, name, value)?),
        Step::Get => push_value(text, map.get(name, cx)?.copied()),
        Step::Intern => cx.intern(alloc, name)?.push_word(text),
        Step::LookUp => match cx.lookup(alloc, name)? {
            Some(key) => key.push_word(text),
            None => text.push_str("none"),
        },
    }
}

// Reads an operation, carries it out, and puts the answer last.
fn answer_one<'a, K: Clone + Eq + Hash + Drop + KeyWord, I: NameMapIntern<Key = K>>(
    alloc: Global,
    text: &mut String,
    map: &mut NameMap<K, u64>,
    cx: &mut I,
    word: &'a str,
) -> Result<(), ScriptError<'a>>
    requires { (j k : K) → K.is_clone j k → K.eq j k ≡ true }
{
    let operation = read_operation(alloc, word)?;
    Ok(carry_out(alloc, text, map, cx, &operation)?)
}

// Puts a space last, unless nothing stands before what follows.
fn push_space(text: &mut String, is_first: bool) -> Result<(), AllocError> {
    text.push_str(if is_first { "" } else { " " })
}

// Carries out the operations on a map, and puts their answers last.
fn answer_all<'a, K: Clone + Eq + Hash + Drop + KeyWord, I: NameMapIntern<Key = K>>(
    alloc: Global,
    text: &mut String,
    map: &mut NameMap<K, u64>,
    cx: &mut I,
    operations: &[&'a str],
) -> Result<(), ScriptError<'a>>
    requires { (j k : K) → K.is_clone j k → K.eq j k ≡ true }
{
    let mut is_first = true;
    for &word in operations {
        push_space(text, is_first)?;
        answer_one(alloc, text, map, cx, word)?;
        is_first = false;
    }
    Ok(())
}

// Puts the entries of a map last, in order.
fn push_entries<K: Eq + Hash + KeyWord>(
    text: &mut String,
    map: &NameMap<K, u64>,
) -> Result<(), AllocError> {
    let mut is_first = true;
    for (key, value) in map.raw_iter() {
        push_space(text, is_first)?;
        key.push_word(text)?;
        write!(text, "={value}")?;
        is_first = false;
    }
    Ok(())
}

// Carries out the operations on a new map, and puts their answers and then its entries last.
fn answer<'a, K: Clone + Eq + Hash + Drop + KeyWord, I: NameMapIntern<Key = K>>(
    alloc: Global,
    text: &mut String,
    cx: &mut I,
    operations: &[&'a str],
) -> Result<(), ScriptError<'a>>
    requires { (j k : K) → K.is_clone j k → K.eq j k ≡ true }
{
    let mut map = NameMap::new(alloc);
    answer_all(alloc, text, &mut map, cx, operations)?;
    text.push_str(" | ")?;
    Ok(push_entries(text, &map)?)
}

/// Puts the answer to `namemap` last: the answers of the operations, ` | `, and the entries of the
/// map in order, each as `KEY=N`. Keys are kept as texts, `str`, or as numbers from 0 in the order
/// in which texts are first interned, `num`.
///
/// An insertion, `i:NAME=N`, or one that may shadow, `s:NAME=N`, answers the key, or `twice` where
/// the name is there; a write, `w:NAME=N`, the value before; the others what they look for, or
/// `none`: the value of a name or of its track, `g:NAME`, the key of a name that is interned,
/// `n:NAME`, or looked up, `l:NAME`.
pub(crate) fn name_map<'a>(
    alloc: Global,
    text: &mut String,
    words: &[&'a str],
) -> Result<(), ScriptError<'a>> {
    match words {
        ["str", operations @ ..] => answer(alloc, text, &mut NameMapNoIntern, operations),
        ["num", operations @ ..] => answer(alloc, text, &mut Numbers::new(alloc), operations),
        [keys, ..] => Err(unexpected("`str` or `num`", keys)),
        [] => Err(ScriptError::Misused("namemap str|num OPERATION*")),
    }
}
