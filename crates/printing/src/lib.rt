// A routine's text, printed into a lent buffer.

#![tactic(auto)]

pub mod faults;
mod lines;
mod page;
pub mod print;
mod text;
