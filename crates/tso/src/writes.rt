// A write that waits in a store buffer. No memory's cell: a buffer may have an address twice, and memory has none of
// its words yet.
#[derive(Clone, Copy, Debug, PartialEq, Eq)]
pub struct Write {
    pub address: u16,
    pub word: u32,
}
