//! Interners, which give keys to texts.

ghost use Rattle.std.specs.Prelude.{◌≡◌, Bool, true, IfOk};
ghost use Rattle.std.specs.Str.{bytes_eq};
ghost use Rattle.std.specs.String.{string_bytes};
ghost use Rattle.wac_model.specs.Text.{Text};
ghost use Rattle.wac_names.specs.Interner.{ExtendsInterning, GrowsOnlyAt, IsLawful, IsValueAt};
ghost use Rattle.wac_names.specs.InternerLaws.{text_keys_lawful};

use std::alloc::{AllocError, Global};

/// What gives keys to texts for a `NameMap`: it stands for a partial function from
/// texts to keys, which only grows. Keys are told apart by their `==` alone, and
/// different texts have different keys.
pub trait NameMapIntern {
    /// The keys.
    type Key: Eq;

    // Whether the key is that of the text, which has one at most.
    ghost is_key: { Self → Text → Self.Key → Bool };

    /// The key of the text, which gets one if it had none. After `Err`, which is want of
    /// memory, the text may have a key.
    fn intern(&mut self, alloc: Global, name: &str) -> Result<Self::Key, AllocError>
        ensures key { IfOk result (λ k. is_key self.new name.now k ≡ true) }
        ensures extends { ExtendsInterning (is_key self.old) (is_key self.new) }
        ensures grows { GrowsOnlyAt (is_key self.old) (is_key self.new) (λ text. text ≡ name.now) };

    /// The key of the text, where it has one. `Err` is a failed allocation.
    fn lookup(&self, alloc: Global, name: &str) -> Result<Option<Self::Key>, AllocError>
        ensures { IfOk result (IsValueAt (is_key self.now) name.now) };

    ghost lawful: { (it : Self) → IsLawful Self.Key.eq (is_key it) };
}

/// The interner of which each text is its own key.
#[derive(Drop)]
pub struct NameMapNoIntern;

impl NameMapIntern for NameMapNoIntern {
    type Key = String;

    ghost is_key = { λ _ text key. bytes_eq text (string_bytes key) };

    ghost lawful = { λ _. text_keys_lawful };

    fn intern(&mut self, alloc: Global, name: &str) -> Result<String, AllocError> {
        String::from_str(alloc, name)
    }

    fn lookup(&self, alloc: Global, name: &str) -> Result<Option<String>, AllocError> {
        Ok(Some(String::from_str(alloc, name)?))
    }
}
