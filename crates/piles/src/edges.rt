// The first and the last addresses that a memory holds, and those beside them.
use layers::offset::Offset;
use memory::dense::Dense;
use memory::memory::Memory;
use memory::refusal::NotHeld;

#[test]
fn dense_edges(rt: HostRuntime) {
    let mut memory = Dense::new();
    assert!(rt; memory.holds(0));
    assert!(rt; memory.holds(255));
    assert!(rt; !memory.holds(256));
    assert!(rt; !memory.holds(65535));
    assert_eq!(rt; memory.read(255), Ok(0));
    assert_eq!(rt; memory.write(255, 7), Ok(()));
    assert_eq!(rt; memory.write(256, 8), Err(NotHeld));
    assert_eq!(rt; memory.read(255), Ok(7));
    assert_eq!(rt; memory.read(0), Ok(0));
    assert_eq!(rt; memory.read(256), Err(NotHeld));
    assert_eq!(rt; NotHeld.number(), 17);
}

#[test]
fn offset_edges(rt: HostRuntime) {
    let mut moved = Offset::new(Dense::new(), 200);
    assert!(rt; moved.holds(55));
    assert!(rt; !moved.holds(56));
    assert!(rt; !moved.holds(65335));
    assert!(rt; !moved.holds(65336));
    assert_eq!(rt; moved.write(55, 9), Ok(()));
    assert_eq!(rt; moved.write(65336, 1), Err(NotHeld));
    let mut below = moved.into_below();
    assert_eq!(rt; below.read(255), Ok(9));
    assert_eq!(rt; below.read(0), Ok(0));
}

#[test]
fn farthest_offset(rt: HostRuntime) {
    let moved = Offset::new(Offset::new(Dense::new(), 0), 65535);
    assert!(rt; !moved.holds(0));
    assert!(rt; !moved.holds(1));
    assert!(rt; !moved.holds(65535));
}
