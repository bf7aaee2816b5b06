// The two fence passes: Fresh becomes Forward becomes Thinned.

#![tactic(auto)]

pub mod backward;
mod code;
mod dirty;
mod exposed;
pub mod forward;
pub mod pass;
pub mod routines;
mod steps;
mod sweeps;
mod thinning;
