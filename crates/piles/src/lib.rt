// Tests of memories, alone and piled on one another.

#![tactic(auto)]

#[cfg(test)]
mod edges;
#[cfg(test)]
mod pairs;
#[cfg(test)]
mod piled;
