//! The value of a box that is kept as its pointer.

ghost use Rattle.std.specs.Prelude.{◌≡◌};
ghost use Rattle.std.specs.Borrow.{sem, follows};
ghost use Rattle.wac_c_calls.specs.contracts.raw_box.RawBox.{the_row};

use super::RawBox;
use std::alloc::Allocator;

impl<T, A: Allocator> RawBox<T, A> {
    /// The value, in place: the pointer stays.
    pub(crate) fn get(&mut self) -> &mut T
        ensures* writes_back { sem 𝓛 (follows (the_row T.row A.row A.Allocator) T.row self.entry.ghost_name result.ghost_name (λ w. record self.old { value = w })) }
        ensures value { result.now ≡ self.old.value }
    {
        unsafe {
            let at = self.at;
            &mut *at
        }
    }
}
