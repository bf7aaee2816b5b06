// The lexical layer: a lent text into lines and fields, and decimal numbers both ways.

#![tactic(auto)]

pub mod faults;
pub mod numbers;
pub mod numeral;
pub mod reader;
pub mod registers;
pub mod tokens;
