// Three layers over a memory: what a cache writes below, and when.
use layers::cache::Cache;
use layers::offset::Offset;
use memory::accesses::{Access, Answer, answer_alike, perform};
use memory::dense::Dense;
use memory::memory::Memory;
use memory::refusal::NotHeld;
use std::test::Fail;

// The addresses 4 and 8 use one line: the second takes it over.
#[test]
fn taken_over(rt: HostRuntime) {
    let mut cache = Cache::new(Dense::new());
    assert_eq!(rt; cache.write(4, 40), Ok(()));
    assert_eq!(rt; cache.write(8, 80), Ok(()));
    assert_eq!(rt; cache.read(300), Err(NotHeld));
    assert_eq!(rt; cache.read(8), Ok(80));
    let mut below = cache.into_below();
    assert_eq!(rt; below.read(4), Ok(40));
    assert_eq!(rt; below.read(8), Ok(0));
}

// The words of 5 and 1 take turns in one line of each cache; a refused write between them leaves all as it was.
#[test]
fn piled(rt: HostRuntime) {
    let mut pile = Cache::new(Offset::new(Cache::new(Dense::new()), 250));
    assert!(rt; pile.holds(5));
    assert!(rt; !pile.holds(6));
    assert_eq!(rt; pile.write(5, 50), Ok(()));
    assert_eq!(rt; pile.write(1, 10), Ok(()));
    assert_eq!(rt; pile.write(9, 90), Err(NotHeld));
    assert_eq!(rt; pile.read(5), Ok(50));
    assert_eq!(rt; pile.read(1), Ok(10));
    let mut dense = pile.into_below().into_below().into_below();
    assert_eq!(rt; dense.read(255), Ok(50));
    assert_eq!(rt; dense.read(251), Ok(10));
}

// A pile and a plain memory of the same meaning answer alike.
#[test]
fn alike(rt: HostRuntime) {
    let mut pile = Cache::new(Offset::new(Cache::new(Dense::new()), 0));
    let mut plain = Dense::new();
    let accesses = [
        Access::Write(3, 1),
        Access::Write(7, 2),
        Access::Read(3),
        Access::Read(256),
        Access::Write(256, 9),
        Access::Write(11, 3),
        Access::Read(7),
    ];
    assert!(rt; answer_alike(&mut pile, &mut plain, &accesses));
    assert_eq!(rt; plain.write(3, 5), Ok(()));
    assert!(rt; !answer_alike(&mut pile, &mut plain, &[Access::Read(3)]));
}

// The answers of a list, and room for them where there is some.
#[test]
fn performed(rt: HostRuntime) -> Result<(), Fail> {
    let mut memory = Dense::new();
    let accesses = [Access::Write(1, 6), Access::Read(1), Access::Read(256)];
    let answers = perform(rt.alloc(), &mut memory, &accesses)?;
    let wanted = [
        Answer::Written(Ok(())),
        Answer::Word(Ok(6)),
        Answer::Word(Err(NotHeld)),
    ];
    assert_eq!(rt; answers.as_slice(), wanted.as_slice());
    Ok(())
}
