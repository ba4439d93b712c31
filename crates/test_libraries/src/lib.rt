//! Tests of the libraries below the mailbox, which are proved without them: worked examples, and calls that run out of
//! memory.
#![tactic(auto)]

#[cfg(test)]
mod answers;
#[cfg(test)]
mod audits;
#[cfg(test)]
mod cells;
#[cfg(test)]
mod claims;
#[cfg(test)]
mod compare;
#[cfg(test)]
mod conciliators;
#[cfg(test)]
mod devices;
#[cfg(test)]
mod entries;
#[cfg(test)]
mod last_objects;
#[cfg(test)]
mod mirrored;
#[cfg(test)]
mod own_table;
#[cfg(test)]
mod pools;
#[cfg(test)]
mod refused_memory;
#[cfg(test)]
mod refusing;
#[cfg(test)]
mod scripts;
#[cfg(test)]
mod shapes;
#[cfg(test)]
mod shared_cells;
#[cfg(test)]
mod shared_claims;
#[cfg(test)]
mod straight_seats;
#[cfg(test)]
mod tables;
#[cfg(test)]
mod texts;
#[cfg(test)]
mod worlds;
