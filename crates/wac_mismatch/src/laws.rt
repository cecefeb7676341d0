//! Laws of paths. Each is the contract of a function that does nothing.

ghost use Rattle.wac_mismatch.specs.Laws.{APathRefutes};

/// Where a path leads to a fault, the left type doesn't fit where the right one is asked for: a
/// refusal can be checked by itself.
pub fn a_path_refutes()
    ensures { APathRefutes }
{}
