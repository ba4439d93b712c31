//! Deciding objects: ratifiers, conciliators and last objects. With them, processes that share words choose one of
//! their inputs.
//!
//! # Deciding objects
//!
//! Each process hands an object an input once, and gets an output (d, u) from it. Here u is the input of some process,
//! and d says whether the object *decided*.
//!
//! A **ratifier** finds out whether all processes agree already. It has a proposal and some registers, all 0 at first.
//! Its *quorum table*, of [`mb_quorum`], gives each value a write quorum and a read quorum of registers. A write quorum
//! and a read quorum share a register exactly when they are of different values. A process sets the write quorum of its
//! input: it announces the input. Then it loads the proposal. If that is empty, it proposes its input and prefers it,
//! else it prefers what it finds there. At last it loads the read quorum of its preference. If each register holds 0,
//! its output is decided. A process with another input that comes later announces that input first, so it finds the
//! proposal and prefers the same. One that came before would have set a register. If a register is set, some process
//! announced another value, and the output is undecided.
//!
//! A **conciliator** makes processes agree, with luck, and never decides. It has one word. A process loads it again and
//! again. As soon as it finds a value there, that is its output. While it finds the word empty, it stores its input
//! with a chance that doubles each time: it becomes impatient. So most often the first that stores is the only one, and
//! then every output is its input. Chance comes as *random words* that the caller passes. All promises hold for all
//! random words.
//!
//! A **last object** has one word, which each process exchanges once: if it finds the word empty, it stores its input
//! there in the same access. Every output has the value that the word then holds, and is decided. The other two kinds
//! need only loads and stores.
//!
//! A conciliator and then a ratifier, again and again, make consensus. The objects and their names are those of James
//! Aspnes, "A modular approach to shared-memory consensus, with applications to the probabilistic-write model" (PODC
//! 2010). The order of accesses and the numbers are this crate's own.
//!
//! # What is here
//!
//! - [`Pc`] is the place of one process in an object. [`Pc::next`] returns its next access, and [`Pc::after`] what that
//!   leads to. A place holds no words, so it serves a simulation and threads alike.
//! - [`through_conciliator`], [`through_ratifier`] and [`through_last`] make all accesses of a process to one object,
//!   in a memory that draws random words, with a budget that has room for these accesses.
//! - [`ratify`] and [`conciliate`] run one object for a whole schedule of turns.
//! - [`laws`] has what holds of every lawful history of one object, for all orders of accesses and all random words:
//!   validity, coherence, acceptance and more. These are contracts of functions that compute nothing. [`steps`] is for
//!   proofs that build histories step by step. [`samples`] has small histories that the definitions admit or refuse.
#![tactic(auto)]

mod access;
mod attempts;
pub mod laws;
mod memory;
mod object;
mod place;
mod run;
pub mod samples;
pub mod steps;
mod trace;

pub use access::{Access, Act, Op, Reg, Turn};
pub use attempts::spread;
pub use memory::{Drawing, Memory, Site};
pub use object::{Kind, Out};
pub use place::{
    ConciliatorPlace, LastPlace, Next, Pc, RatifierPlace, through_conciliator, through_last,
    through_ratifier,
};
pub use run::conciliate::conciliate;
pub use run::ratify::ratify;
pub use trace::{Entry, Fault, Trace};
