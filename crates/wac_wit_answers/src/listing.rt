//! Lists a collection as the lines of a script that builds it.

use super::answer::Answer;
use super::failure::Failure;
use super::finding::{FoundItem, find, not_there};
use super::input::{Input, Texts};
use super::options::Options;
use std::alloc::Global;
use wac_component::{Type, Types};
use wac_wit_lines::{push_all, push_one};

/// Lists all entries that the packages of a file make, or an interface or a world of them with what
/// it stands on, as the lines of a script that builds them in collection 1.
pub fn list(
    alloc: Global,
    texts: Texts,
    item: Option<&str>,
    options: &Options<'_>,
) -> Result<Answer, Failure> {
    let mut types = Types::new(alloc, 1);
    let input = Input::read(alloc, &mut types, texts, options.features)?;
    listed(alloc, &types, &input, item)
}

fn listed(
    alloc: Global,
    types: &Types,
    input: &Input,
    item: Option<&str>,
) -> Result<Answer, Failure> {
    let mut text = String::from_str(alloc, "script wit\ncoll 1\n")?;
    match item {
        None => push_all(alloc, &mut text, types)?,
        Some(name) => push_named(alloc, &mut text, types, input, name)?,
    }
    let is_yes = true;
    Ok(Answer { is_yes, text })
}

// Puts the lines of an interface or a world last.
fn push_named(
    alloc: Global,
    text: &mut String,
    types: &Types,
    input: &Input,
    name: &str,
) -> Result<(), Failure> {
    let entry = match &find(types, &input.wit, name) {
        Some(FoundItem::Interface(id)) => Type::Interface(*id),
        Some(FoundItem::World(id)) => Type::World(*id),
        None => return Err(not_there(alloc, input, name)),
    };
    push_one(alloc, text, types, entry)?;
    Ok(())
}
