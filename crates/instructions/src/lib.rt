// One line of a routine's text: the words, the instructions, and a line of fields into what it says.

#![tactic(auto)]

pub mod arguments;
pub mod faults;
pub mod keyword;
pub mod lines;
pub mod types;
