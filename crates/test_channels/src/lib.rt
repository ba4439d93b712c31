//! Tests of the channels and of what they are built of, which are proved without them: threads that send and receive, and
//! each answer of the calls.
#![tactic(auto)]

#[cfg(test)]
mod audits;
#[cfg(test)]
mod bounded;
#[cfg(test)]
mod closing;
#[cfg(test)]
mod crowds;
#[cfg(test)]
mod halves;
#[cfg(test)]
mod returning;
#[cfg(test)]
mod rings;
#[cfg(test)]
mod segments;
#[cfg(test)]
mod sleeping;
#[cfg(test)]
mod ways;
