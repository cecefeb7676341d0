//! Interners that number texts.

ghost use Rattle.std.specs.Prelude.{◌≡◌, ℕ, false, [], Some, IfOk, is_some, string_bytes};
ghost use Rattle.std.specs.List.{list_any};
ghost use Rattle.std.specs.Str.{bytes_eq};
ghost use Rattle.wac_model.specs.Text.{Text};
ghost use Rattle.wac_interners.specs.Places.{AddsAt, counts_down_to, is_place, text_place};
ghost use Rattle.wac_interners.specs.PlaceLaws.{countdown_lawful, numbers_lawful};

use indexmap::IndexSet;
use std::alloc::{AllocError, Global};
use wac_names::NameMapIntern;

// Texts, each once, in the order in which they came.
#[derive(Drop)]
struct Texts {
    texts: IndexSet<String>,
}

impl Texts {
    fn new(alloc: Global) -> Texts
        ensures { result.texts.keys ≡ [] }
    {
        Texts {
            texts: IndexSet::new(alloc),
        }
    }

    // The place of a text, where it is there.
    fn place(&self, text: &str) -> Option<usize>
        ensures place { result ≡ text_place self.now.texts.keys text.now }
        ensures found { is_some result ≡ list_any (λ s. bytes_eq text.now (string_bytes s)) self.now.texts.keys }
    {
        self.texts.get_index_of(text)
    }

    // The place of a text, which goes last if it was not there.
    fn place_or_add(&mut self, alloc: Global, text: &str) -> Result<usize, AllocError>
        ensures place { IfOk result (λ n. text_place self.new.texts.keys text.now ≡ Some n) }
        ensures others { AddsAt self.old.texts.keys self.new.texts.keys text.now }
    {
        if let Some(place) = self.place(text) {
            return Ok(place);
        }
        let place = self.texts.len();
        self.texts.insert(String::from_str(alloc, text)?)?;
        Ok(place)
    }
}

/// Numbers texts from 0 up.
#[derive(Drop)]
pub struct Numbers {
    texts: Texts,
}

impl Numbers {
    /// No texts.
    pub fn new(alloc: Global) -> Numbers
        ensures { (text : Text) (key : ℕ) → ⟦<Numbers as NameMapIntern>⟧.is_key result text key ≡ false }
    {
        Numbers {
            texts: Texts::new(alloc),
        }
    }
}

impl NameMapIntern for Numbers {
    type Key = usize;

    ghost is_key = { λ it text key. is_place (text_place it.texts.texts.keys text) key };

    ghost lawful = { λ it. numbers_lawful it.texts.texts.keys };

    fn intern(&mut self, alloc: Global, name: &str) -> Result<usize, AllocError> {
        self.texts.place_or_add(alloc, name)
    }

    fn lookup(&self, _alloc: Global, name: &str) -> Result<Option<usize>, AllocError> {
        Ok(self.texts.place(name))
    }
}

/// Numbers texts from 1000 down to 0; it has no keys for more.
#[derive(Drop)]
pub struct Countdown {
    texts: Texts,
}

impl Countdown {
    /// No texts.
    pub fn new(alloc: Global) -> Countdown
        ensures { (text : Text) (key : ℕ) → ⟦<Countdown as NameMapIntern>⟧.is_key result text key ≡ false }
    {
        Countdown {
            texts: Texts::new(alloc),
        }
    }
}

impl NameMapIntern for Countdown {
    type Key = usize;

    ghost is_key = { λ it text key. counts_down_to (text_place it.texts.texts.keys text) key };

    ghost lawful = { λ it. countdown_lawful it.texts.texts.keys };

    fn intern(&mut self, alloc: Global, name: &str) -> Result<usize, AllocError> {
        let place = self.texts.place_or_add(alloc, name)?;
        match 1000usize.checked_sub(place) {
            Some(key) => Ok(key),
            None => Err(AllocError),
        }
    }

    fn lookup(&self, _alloc: Global, name: &str) -> Result<Option<usize>, AllocError> {
        let Some(place) = self.texts.place(name) else {
            return Ok(None);
        };
        Ok(1000usize.checked_sub(place))
    }
}
