// The first bytes of a file, and no more of them than are wanted.

#![tactic(auto)]

ghost use Rattle.std.specs.Prelude.{◌≤◌, length, IfOk, vec_len};

use std::alloc::AllocError;
use std::io::Read;
use std::rt::Files;
use std::{fs, io};

// Fills the buffer from its start, until it is full or the input ends: how many bytes came.
// By hand: no contract of std's `read_to_end` says that it reads no further than is wanted, nor that it ends where reads
// are interrupted again and again. Here the buffer's length counts the turns, since each but the last puts a byte.
fn fill<I: Read>(input: &mut I, buffer: &mut [u8]) -> io::Result<usize>
    ensures { IfOk result (λ n. n ≤ length buffer.new) }
{
    let mut filled = 0;
    while filled < buffer.len() {
        let count = input.read(&mut buffer[filled..])?;
        if count == 0 {
            break;
        }
        filled += count;
    }
    Ok(filled)
}

// Fills the buffer from the file's start: how many bytes came.
fn fill_from<R: Files>(files: &R, path: &str, buffer: &mut [u8]) -> io::Result<usize>
    ensures { IfOk result (λ n. n ≤ length buffer.new) }
{
    fill(&mut fs::open(files, path)?, buffer)
}

// The first `limit` bytes of the file, or all of a shorter one.
// There are none if the file is missing, or if opening or reading it fails, even after some bytes.
// The contract says how many bytes there are at most; which bytes they are, no contract can say.
pub fn read_up_to<R: Files + AllocGlobal>(
    rt: &R,
    path: &str,
    limit: usize,
) -> Result<Vec<u8>, AllocError>
    ensures { IfOk result (λ v. vec_len v ≤ limit) }
{
    let mut bytes = vec![in rt.alloc(); 0; limit]?;
    let count = fill_from(rt, path, &mut bytes).unwrap_or(0);
    bytes.truncate(count);
    Ok(bytes)
}
