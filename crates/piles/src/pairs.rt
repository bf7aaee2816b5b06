// How many cells a sparse memory takes, and which.
use memory::cell::Cell;
use memory::memory::Memory;
use memory::refusal::NotHeld;
use memory::sparse::Sparse;
use memory::unfit::Unfit;
use std::alloc::{AllocError, Global};
use std::test::Fail;

// Cells of the addresses 0 to count - 1, and then one of the address `last`.
fn cells(heap: Global, count: u16, last: u16) -> Result<Vec<Cell>, AllocError> {
    let first = (0..count).map(|address| Cell { address, word: 1 });
    let last = Cell {
        address: last,
        word: 2,
    };
    first.chain([last]).collect(heap)
}

// Why the cells make no memory, if they make none.
fn unfit(pairs: Vec<Cell>) -> Option<Unfit> {
    Sparse::new(pairs).err().map(|refusal| refusal.unfit)
}

#[test]
fn counts(rt: HostRuntime) -> Result<(), Fail> {
    assert_eq!(rt; unfit(Vec::new(rt.alloc())), None);
    assert_eq!(rt; unfit(cells(rt.alloc(), 31, 65535)?), None);
    assert_eq!(rt; unfit(cells(rt.alloc(), 32, 65535)?), Some(Unfit::TooMany));
    assert_eq!(rt; unfit(cells(rt.alloc(), 32, 0)?), Some(Unfit::TooMany));
    assert_eq!(rt; unfit(cells(rt.alloc(), 31, 0)?), Some(Unfit::Twice));
    assert_eq!(rt; unfit(cells(rt.alloc(), 31, 30)?), Some(Unfit::Twice));
    assert_eq!(rt; Unfit::TooMany.number(), 18);
    Ok(())
}

#[test]
fn one_pair(rt: HostRuntime) -> Result<(), Fail> {
    let Ok(mut memory) = Sparse::new(cells(rt.alloc(), 0, 65535)?) else {
        return Err(Fail::new("one pair is refused"));
    };
    assert!(rt; memory.holds(65535));
    assert!(rt; !memory.holds(65534));
    assert!(rt; !memory.holds(0));
    assert_eq!(rt; memory.write(0, 5), Err(NotHeld));
    assert_eq!(rt; memory.read(65535), Ok(2));
    Ok(())
}
