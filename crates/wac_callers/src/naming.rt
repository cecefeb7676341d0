//! A caller of `NameMap`, over an interner of its own.

ghost use Rattle.std.specs.Prelude.{ℕ, List, IfOk, OnErr, OnOk, string_bytes};
ghost use Rattle.std.specs.Str.{bytes_eq};
ghost use Rattle.wac_callers.specs.Offers.{Offers};
ghost use Rattle.wac_types.specs.InternerLaws.{text_keys_lawful};
ghost use Rattle.wac_types.specs.Pairs.{IsFound, with_pair};
ghost use Rattle.wac_types.specs.Text.{Text};

use std::alloc::{AllocError, Global};
use wac_types::{NameError, NameMap, NameMapIntern};

/// An interner that takes so many texts from strangers, and no more. Each text is its own key.
#[derive(Drop)]
pub struct Bounded {
    left: usize,
}

impl Bounded {
    /// One that takes so many texts.
    pub fn new(most: usize) -> Bounded {
        Bounded { left: most }
    }
}

impl NameMapIntern for Bounded {
    type Key = String;

    // What the interner stands for: whether a key is that of a text. `intern` may only add to it.
    // Here no state of the interner changes it.
    ghost is_key = { λ _ text key. bytes_eq text (string_bytes key) };

    // A proof for each state that keys tell texts: keys of one text are equal, and no two texts
    // have one. That of texts as keys is ready.
    ghost lawful = { λ _. text_keys_lawful };

    fn intern(&mut self, alloc: Global, name: &str) -> Result<String, AllocError> {
        let Some(left) = self.left.checked_sub(1) else {
            return Err(AllocError);
        };
        self.left = left;
        String::from_str(alloc, name)
    }

    fn lookup(&self, alloc: Global, name: &str) -> Result<Option<String>, AllocError> {
        Ok(Some(String::from_str(alloc, name)?))
    }
}

/// Offers a value under a name. The answer is `Twice` where the name is there, and `Memory` also
/// where the interner takes no more.
pub fn offer(
    offers: &mut NameMap<String, u32>,
    names: &mut Bounded,
    name: &str,
    value: u32,
) -> Result<(), NameError>
    ensures offered { (ps : List (Text × ℕ)) → Offers offers.old ps → OnOk result (Offers offers.new (with_pair ps name.now value)) }
    ensures refused { (ps : List (Text × ℕ)) → Offers offers.old ps → OnErr result (Offers offers.new ps) }
{
    offers.insert(name, names, false, value)?;
    Ok(())
}

/// What is offered under a name: at the name itself, or else at the greatest version on its track.
pub fn find(
    offers: &NameMap<String, u32>,
    names: &Bounded,
    name: &str,
) -> Result<Option<u32>, AllocError>
    ensures { (ps : List (Text × ℕ)) → Offers offers.now ps → IfOk result (IsFound ps name.now) }
{
    Ok(offers.get(name, names)?.copied())
}
