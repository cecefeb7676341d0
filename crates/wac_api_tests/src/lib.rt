//! Tests of what a script can't ask: values handed out, what stays over
//! several calls, failing writers.
#![tactic(auto)]

#[cfg(test)]
mod aggregated;
#[cfg(test)]
mod callers;
#[cfg(test)]
mod collections;
#[cfg(test)]
mod endings;
#[cfg(test)]
mod errors;
#[cfg(test)]
mod first_use;
#[cfg(test)]
mod growing;
#[cfg(test)]
mod limits;
#[cfg(test)]
mod merged_sharing;
#[cfg(test)]
mod name_maps;
#[cfg(test)]
mod opened;
#[cfg(test)]
mod packages;
#[cfg(test)]
mod programs;
#[cfg(test)]
mod replacing;
#[cfg(test)]
mod replays;
#[cfg(test)]
mod reports;
#[cfg(test)]
mod sharing;
#[cfg(test)]
mod visits;
#[cfg(test)]
mod wit_packages;
#[cfg(test)]
mod wit_reasons;
#[cfg(test)]
mod wit_texts;
