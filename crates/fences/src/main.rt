// Prints what became of each fence of routine.txt, how many each party has, and then the thinned routine; or the fault of its text.

#![tactic(auto)]

use files::read_up_to;
use reports::fences::fences;
use routine::read::MOST_READ;
use std::io::Write;

fn main(rt: HostRuntime) -> anyhow::Result<()> {
    let text = read_up_to(&rt, "routine.txt", MOST_READ)?;
    let report = fences(rt.alloc(), &text)?;
    rt.stdout().write_all(&report)?;
    Ok(())
}
