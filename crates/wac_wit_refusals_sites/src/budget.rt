//! How much is looked at for one refusal.

/// How many items are looked at, each as often as it is.
pub const MAX_ITEMS: usize = 1_000_000;

/// Takes steps, if as many are left.
pub fn takes(left: &mut usize, steps: usize) -> bool {
    if *left < steps {
        *left = 0;
        return false;
    }
    *left -= steps;
    true
}
