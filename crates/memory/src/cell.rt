// One cell of a memory: an address and its word.
#[derive(Clone, Copy, Debug, PartialEq, Eq)]
pub struct Cell {
    pub address: u16,
    pub word: u32,
}
