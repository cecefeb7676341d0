//! How programs end.

use std::alloc::AllocError;
use wac_test_tools::Expecting;

// Whether a program ended with this status, after all that it prints. Where it ended with the
// status 1 after a front of that, an allocation failed.
pub(crate) fn is_whole(
    answer: u8,
    status: u8,
    out: &Expecting<'_>,
    err: &Expecting<'_>,
) -> Result<bool, AllocError> {
    if answer == 1 && out.has_front() && err.has_front() {
        return Err(AllocError);
    }
    Ok(answer == status && out.has_all() && err.has_all())
}
