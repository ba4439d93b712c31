//! Tests of the program, which is proved without them: its examples, further scripts and command lines, devices that
//! fail, and calls that run out of memory.
#![tactic(auto)]

#[cfg(test)]
mod command_line;
#[cfg(test)]
mod compare;
#[cfg(test)]
mod devices;
#[cfg(test)]
mod examples;
#[cfg(test)]
mod explanations;
#[cfg(test)]
mod faults;
#[cfg(test)]
mod ratify;
#[cfg(test)]
mod refused_memory;
#[cfg(test)]
mod replay;
#[cfg(test)]
mod run;
