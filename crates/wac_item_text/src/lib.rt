//! The canonical text of the tree of an item.
//!
//! It hangs on the tree alone: aliases are peeled, a resource stands by the name at the root of its
//! aliases, and identifiers, uses and owners are left out. Names are written as words of a script
//! write them (`wac_script_syntax`'s `name_word`).
//!
//! | Item | Text |
//! |---|---|
//! | an item | `Type(..)`, `Func(..)`, `Instance(..)`, `Component(..)`, `Module(..)`, `Value(..)` |
//! | a resource | `resource NAME` |
//! | a function | `func(NAME=VALUE,..)` or `async(..)`, then `->VALUE` if there is a result |
//! | an interface | `{NAME=ITEM;..}`, in the order of the names' bytes |
//! | a world | `imports{NAME=ITEM;..}exports{NAME=ITEM;..}`, each in this order |
//! | a core module | `imports{MODULE,NAME=EXTERN;..}exports{NAME=EXTERN;..}`, each in this order; as a type, where both are empty, `module imports{}exports{}`, apart from a world |
//! | a value type | the name of a primitive type, `own<NAME>`, `borrow<NAME>`, `tuple<VALUE,..>`, `list<VALUE>`, `list<VALUE;SIZE>`, `map<VALUE,VALUE>`, `option<VALUE>`, `result<VALUE\|_,VALUE\|_>`, `variant{NAME=VALUE\|NAME,..}`, `record{NAME=VALUE,..}`, `flags{NAME,..}`, `enum{NAME,..}`, `stream<VALUE\|_>`, `future<VALUE\|_>` |
//! | a core extern | the word that writes it in a script |
#![tactic(auto)]

mod core_words;
mod items;
mod modules;
mod rest;
mod texts;
mod values;

pub use core_words::push_extern;
pub use items::push_item_text;
