//! Writing words.

ghost use Rattle.std.specs.Prelude.{◌≡◌, ◌++◌, string_bytes, IfOk, OnOk};
ghost use Rattle.wac_script_syntax.specs.Names.{written_name};

use super::names::ESCAPED;
use percent_encoding::utf8_percent_encode;
use std::alloc::{AllocError, Global};

/// Puts the word that writes a name last: letters, digits and `:/@.+_-[]#*` stand for themselves,
/// every other byte is `%` and its two upper-case hexadecimal digits. The empty name is `%`, and
/// the name `-` is `%2D`, since the word `-` stands for no name.
pub fn push_name(text: &mut String, name: &str) -> Result<(), AllocError>
    ensures { OnOk result (string_bytes text.new ≡ string_bytes text.old ++ written_name name.now) }
{
    if name.is_empty() {
        return text.push_str("%");
    }
    if name == "-" {
        return text.push_str("%2D");
    }
    utf8_percent_encode(name, ESCAPED).append_to(text)
}

/// The word that writes a name, as [`push_name`] does.
pub fn name_word(alloc: Global, name: &str) -> Result<String, AllocError>
    ensures { IfOk result (λ word. string_bytes word ≡ written_name name.now) }
{
    let mut word = String::new(alloc);
    push_name(&mut word, name)?;
    Ok(word)
}
