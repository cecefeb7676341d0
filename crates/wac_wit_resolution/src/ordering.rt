//! Puts things in an order in which each stands behind those that it needs.

use std::alloc::{AllocError, Global};
use std::collections::BTreeSet;

/// Things in an order in which each stands behind those that it needs, and of those that may come
/// next the first comes. A thing that leads to a cycle isn't among them.
pub fn first_first(alloc: Global, needs: &[Vec<usize>]) -> Result<Vec<usize>, AllocError> {
    let mut missing = Vec::new(alloc);
    let mut needed_by: Vec<Vec<usize>> = Vec::new(alloc);
    for of in needs {
        missing.push(of.len())?;
        needed_by.push(Vec::new(alloc))?;
    }
    let mut ready = BTreeSet::new(alloc);
    for (thing, of) in needs.iter().enumerate() {
        if of.is_empty() {
            ready.insert(thing)?;
        }
        push_needed_by(&mut needed_by, thing, of)?;
    }
    let mut sorted = Vec::new(alloc);
    for _turn in 0..needs.len() {
        let Some(thing) = ready.pop_first() else {
            break;
        };
        sorted.push(thing)?;
        if let Some(others) = needed_by.get(thing) {
            release(&mut missing, &mut ready, others)?;
        }
    }
    Ok(sorted)
}

// Notes that a thing needs others.
fn push_needed_by(
    needed_by: &mut [Vec<usize>],
    thing: usize,
    needs: &[usize],
) -> Result<(), AllocError> {
    for need in needs {
        if let Some(of) = needed_by.get_mut(*need) {
            of.push(thing)?;
        }
    }
    Ok(())
}

// Notes that something comes that others need, once for each time that they do.
fn release(
    missing: &mut [usize],
    ready: &mut BTreeSet<usize>,
    others: &[usize],
) -> Result<(), AllocError> {
    for other in others {
        if let Some(count) = missing.get_mut(*other) {
            *count = count.saturating_sub(1);
            if *count == 0 {
                ready.insert(*other)?;
            }
        }
    }
    Ok(())
}
