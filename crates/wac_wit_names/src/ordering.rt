//! Puts things in an order in which each stands behind those that it needs.

use std::alloc::{AllocError, Global};

/// An order, or a cycle: each thing of it needs the next, and the last the first.
#[derive(Drop)]
pub(crate) enum Order {
    Sorted(Vec<usize>),
    Cycle(Vec<usize>),
}

#[derive(Clone, Copy)]
enum State {
    New,
    Open,
    Done,
}

// A thing whose needs are looked at, and how many of them were.
#[derive(Clone, Copy)]
struct Step {
    thing: usize,
    looked_at: usize,
}

/// Orders things by what each needs: as they stand, but for those that something before them needs.
pub(crate) fn ordered(alloc: Global, needs: &[Vec<usize>]) -> Result<Order, AllocError> {
    let mut states = vec![in alloc; State::New; needs.len()]?;
    let mut sorted = Vec::new(alloc);
    for thing in 0..needs.len() {
        if let Some(cycle) = visit(alloc, needs, thing, &mut states, &mut sorted)? {
            return Ok(Order::Cycle(cycle));
        }
    }
    Ok(Order::Sorted(sorted))
}

fn state_of(states: &[State], thing: usize) -> State {
    states.get(thing).copied().unwrap_or(State::Done)
}

fn set_state(states: &mut [State], thing: usize, state: State) {
    if thing < states.len() {
        states[thing] = state;
    }
}

// Puts a thing last, behind all that it needs; a cycle comes back.
fn visit(
    alloc: Global,
    needs: &[Vec<usize>],
    thing: usize,
    states: &mut [State],
    sorted: &mut Vec<usize>,
) -> Result<Option<Vec<usize>>, AllocError> {
    let mut steps: Vec<Step> = Vec::new(alloc);
    enter(&mut steps, states, thing)?;
    for _turn in 0..u64::MAX {
        let Some(step) = steps.pop() else {
            break;
        };
        let Some(next) = need_of(needs, step) else {
            set_state(states, step.thing, State::Done);
            sorted.push(step.thing)?;
            continue;
        };
        let looked_at = step.looked_at.saturating_add(1);
        steps.push(Step {
            thing: step.thing,
            looked_at,
        })?;
        match state_of(states, next) {
            State::New => enter(&mut steps, states, next)?,
            State::Open => return Ok(Some(cycle_from(alloc, &steps, next)?)),
            State::Done => {}
        }
    }
    Ok(None)
}

// Begins with a thing, if it is new.
fn enter(steps: &mut Vec<Step>, states: &mut [State], thing: usize) -> Result<(), AllocError> {
    if matches!(state_of(states, thing), State::New) {
        set_state(states, thing, State::Open);
        steps.push(Step {
            thing,
            looked_at: 0,
        })?;
    }
    Ok(())
}

// The next thing that is needed.
fn need_of(needs: &[Vec<usize>], step: Step) -> Option<usize> {
    needs.get(step.thing)?.get(step.looked_at).copied()
}

// The open things from one on.
fn cycle_from(alloc: Global, steps: &[Step], first: usize) -> Result<Vec<usize>, AllocError> {
    let mut cycle = Vec::new(alloc);
    let mut is_in = false;
    for step in steps {
        is_in = is_in || step.thing == first;
        if is_in {
            cycle.push(step.thing)?;
        }
    }
    Ok(cycle)
}
