// A routine: what each of its parties runs and where its words start, and reading one from a text.

#![tactic(auto)]

mod addresses;
mod draft;
pub mod fresh;
pub mod party;
pub mod read;
mod refill;
pub mod room;
pub mod routine;
mod storage;
