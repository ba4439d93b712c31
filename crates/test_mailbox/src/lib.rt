//! Tests of the mailbox, which is proved without them: worked examples, threads, and calls that run out of memory.
#![tactic(auto)]

#[cfg(test)]
mod beside;
#[cfg(test)]
mod compare;
#[cfg(test)]
mod gates;
#[cfg(test)]
mod growths;
#[cfg(test)]
mod leaves;
#[cfg(test)]
mod mailboxes;
#[cfg(test)]
mod polls;
#[cfg(test)]
mod rationed;
#[cfg(test)]
mod refused_mailboxes;
#[cfg(test)]
mod scenes;
#[cfg(test)]
mod takes;
#[cfg(test)]
mod texts;
#[cfg(test)]
mod trial;
#[cfg(test)]
mod trials;
#[cfg(test)]
mod workers;
