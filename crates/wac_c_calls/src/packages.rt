//! Answers about packages of WIT.

use super::answer::{NoAnswer, put_answer, text_of};
use std::alloc::Global;
use wac_wit::{Features, SourceFile};
use wac_wit_answers as wit;
use wac_wit_answers::{Answer, Failure, Form, Options, Texts};

// Answers are JSON, and what stands behind `@unstable` is off.
static OPTIONS: Options<'static> = Options {
    features: Features::Stable,
    form: Form::Json,
};

/// Says whether the packages of the text `new` serve whoever was built against those of `old`, as
/// `wac-wit compat --json` prints it.
pub fn compat(alloc: Global, old: &[u8], new: &[u8], out: &mut [u8]) -> isize {
    put_answer(compat_answer(alloc, old, new), out)
}

fn compat_answer(alloc: Global, old: &[u8], new: &[u8]) -> Result<String, NoAnswer> {
    let old = texts(alloc, "old.wit", old)?;
    let new = texts(alloc, "new.wit", new)?;
    said(alloc, wit::compat(alloc, old, new, &OPTIONS))
}

/// Says whether a component that imports and exports all of a world runs where another is the
/// target, as `wac-wit targets --json` prints it. Each is given by its name and its text.
pub fn targets(
    alloc: Global,
    component: (&[u8], &[u8]),
    target: (&[u8], &[u8]),
    out: &mut [u8],
) -> isize {
    put_answer(targets_answer(alloc, component, target), out)
}

fn targets_answer(
    alloc: Global,
    component: (&[u8], &[u8]),
    target: (&[u8], &[u8]),
) -> Result<String, NoAnswer> {
    let component = (
        text_of(component.0)?,
        texts(alloc, "component.wit", component.1)?,
    );
    let target = (text_of(target.0)?, texts(alloc, "target.wit", target.1)?);
    said(alloc, wit::targets(alloc, component, target, &OPTIONS))
}

/// Merges the imports of components of worlds, whose names stand in `worlds` with blanks between
/// them, as `wac-wit merge --json` prints them.
pub fn merge(alloc: Global, worlds: &[u8], text: &[u8], out: &mut [u8]) -> isize {
    put_answer(merge_answer(alloc, worlds, text), out)
}

fn merge_answer(alloc: Global, worlds: &[u8], text: &[u8]) -> Result<String, NoAnswer> {
    let mut named = Vec::new(alloc);
    for name in text_of(worlds)?.split_whitespace() {
        let name = String::from_str(alloc, name)?;
        named.push((name, texts(alloc, "worlds.wit", text)?))?;
    }
    said(alloc, wit::merge(alloc, named, &OPTIONS))
}

// A text as the only one of its packages.
fn texts(alloc: Global, name: &str, text: &[u8]) -> Result<Texts, NoAnswer> {
    let file = SourceFile {
        name: String::from_str(alloc, name)?,
        text: String::from_str(alloc, text_of(text)?)?,
        group: 0,
    };
    Ok(Texts {
        path: String::from_str(alloc, name)?,
        files: vec![in alloc; file]?,
    })
}

// An answer, or `{"refused": TEXT}` with all that is wrong with what was given.
fn said(alloc: Global, answer: Result<Answer, Failure>) -> Result<String, NoAnswer> {
    let refusal = match answer {
        Ok(answer) => return Ok(answer.text.clone()?),
        Err(Failure::Memory) => return Err(NoAnswer::Memory),
        Err(Failure::Refused(text)) => text,
        Err(Failure::NoIdentifier) => {
            String::from_str(
                alloc,
                "a type is used from an interface without identifier\n",
            )?
        }
        Err(Failure::Missing) => String::from_str(alloc, "an entry isn't there\n")?,
    };
    refused(alloc, &refusal)
}

// What was refused, as JSON.
fn refused(alloc: Global, refusal: &String) -> Result<String, NoAnswer> {
    match serde_json::to_string(alloc, refusal) {
        Ok(text) => Ok(format!(in alloc; "{{\n  \"refused\": {text}\n}}\n")?),
        Err(_) => Err(NoAnswer::Memory),
    }
}
