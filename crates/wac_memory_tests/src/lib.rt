//! Tests of calls in which a request for memory may be refused.
//!
//! Each passes whether or not one is refused, whichever it is: what it tries is tried twice, of
//! which one refused request spoils one at most. A trial that was refused looks at what has to
//! stand then; one that was not has the undisturbed answer.
#![tactic(auto)]

#[cfg(test)]
mod tests;
