//! The replayer: a script in, its transcript and report out. It has a text layer of its own (lines, words and numbers),
//! and readers and writers that count their failures.
#![tactic(auto)]

mod act_text;
mod command;
mod device;
mod fault;
mod few_words;
pub mod laws;
mod parser;
mod replay;
mod report_lines;
mod script;
mod script_command;
mod shape;
mod table;
mod text;
mod transcript;
mod transfer;

pub use act_text::push_act;
pub use command::run;
pub use device::{CountedRead, CountedWrite, CountingIo};
pub use fault::Fault;
pub use few_words::{LineWords, MAX_WORDS};
pub use parser::parse;
pub use report_lines::report_text;
pub use script::{MAX_EVENTS, Script};
pub use script_command::{Faults, ScriptCommand, answer_script};
pub use shape::shape_of_word;
pub use table::table_named;
pub use text::{ascii_text, has_empty_word, number, numbers, split_line, split_word};
pub use transfer::{MAX_SCRIPT_LEN, ReadEnd, WriteFailed, read_all, write_all};
