//! The words that can't be names.

ghost use Rattle.std.specs.Prelude.{◌≡◌};
ghost use Rattle.std.specs.List.{list_any};
ghost use Rattle.std.specs.Str.{bytes_eq};
ghost use Rattle.wac_wit_syntax.specs.Names.{keywords};

static KEYWORDS: [&str; 42] = [
    "as",
    "async",
    "bool",
    "borrow",
    "char",
    "constructor",
    "enum",
    "error-context",
    "export",
    "f32",
    "f64",
    "flags",
    "from",
    "func",
    "future",
    "import",
    "include",
    "interface",
    "list",
    "option",
    "own",
    "package",
    "record",
    "resource",
    "result",
    "s16",
    "s32",
    "s64",
    "s8",
    "static",
    "stream",
    "string",
    "tuple",
    "type",
    "u16",
    "u32",
    "u64",
    "u8",
    "use",
    "variant",
    "with",
    "world",
];

/// Whether a word has a meaning of its own, so that it is a name only after `%`. `map` is none,
/// since packages may have names of an older time: `map<` alone begins a type.
pub fn is_keyword(word: &str) -> bool
    ensures { result ≡ list_any (λ keyword. bytes_eq keyword word.now) keywords }
{
    KEYWORDS.iter().any(|keyword| *keyword == word)
}
