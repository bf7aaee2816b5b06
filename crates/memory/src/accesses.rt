// Lists of reads and writes, performed on any memory, and the law that two memories of one meaning answer alike.
ghost use Rattle.std.specs.Prelude.{◌≡◌, ◌↔◌, IfOk, IsTrue, OnErr, OnOk};
ghost use Rattle.memory.specs.Accesses.{Accessed, Alike, Performed, answer_of, answers_of, cells_after, cells_by};

use crate::memory::Memory;
use crate::refusal::NotHeld;
use std::alloc::{AllocError, Global};

#[derive(Clone, Copy, Debug, PartialEq, Eq)]
pub enum Access {
    Read(u16),
    Write(u16, u32),
}

// What the memory answered to a read, or to a write.
#[derive(Clone, Copy, Debug, PartialEq, Eq)]
pub enum Answer {
    Word(Result<u32, NotHeld>),
    Written(Result<(), NotHeld>),
}

fn perform_one<M: Memory>(memory: &mut M, access: Access) -> Answer
    ensures answer { result ≡ answer_of (M.cells memory.old) access }
    ensures means { M.cells memory.new ≡ cells_by (M.cells memory.old) access }
    ensures itself { Accessed M.reads M.writes access memory.old memory.new }
{
    match access {
        Access::Read(address) => Answer::Word(memory.read(address)),
        Access::Write(address, word) => Answer::Written(memory.write(address, word)),
    }
}

// Performs the accesses in their order: their answers. Without room for these nothing is performed.
pub fn perform<M: Memory>(
    heap: Global,
    memory: &mut M,
    accesses: &[Access],
) -> Result<Vec<Answer>, AllocError>
    ensures answers { IfOk result (λ v. v.items ≡ answers_of (M.cells memory.old) accesses.now) }
    ensures means { OnOk result (M.cells memory.new ≡ cells_after (M.cells memory.old) accesses.now) }
    ensures itself { OnOk result (Performed M.reads M.writes accesses.now memory.old memory.new) }
    ensures unchanged { OnErr result (memory.new ≡ memory.old) }
{
    // A `collect` may fail for want of memory when some are performed, so the room is taken first.
    let mut answers = Vec::with_capacity(heap, accesses.len())?;
    for &access in accesses {
        answers.push_reserved(perform_one(memory, access));
    }
    Ok(answers)
}

// Performs the accesses on both memories: whether they answered alike throughout.
pub fn answer_alike<M: Memory, N: Memory>(
    first: &mut M,
    second: &mut N,
    accesses: &[Access],
) -> bool
    ensures answers { IsTrue result ↔ Alike (M.cells first.old) (N.cells second.old) accesses.now }
    ensures means { (M.cells first.new ≡ cells_after (M.cells first.old) accesses.now)
        × (N.cells second.new ≡ cells_after (N.cells second.old) accesses.now) }
    ensures itself { Performed M.reads M.writes accesses.now first.old first.new
        × Performed N.reads N.writes accesses.now second.old second.new }
    ensures law { M.cells first.old ≡ N.cells second.old
        → IsTrue result × (M.cells first.new ≡ N.cells second.new) }
{
    // Not `all`, which would stop at the first difference: both memories get every access.
    let mut alike = true;
    for &access in accesses {
        let one = perform_one(first, access);
        let other = perform_one(second, access);
        alike &= one == other;
    }
    alike
}
