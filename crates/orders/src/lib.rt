// Orders: lists of what happens on a machine of several cores, one entry at a time.

#![tactic(auto)]

pub mod entries;
