// Shows every refusal: reads a text for each case into one routine, and prints what is told of it.

#![tactic(auto)]

ghost use Rattle.std.specs.Prelude.{◌≡◌, IfOk, OnErr};
ghost use Rattle.routine.specs.Fresh.{fresh_listing};
ghost use Rattle.routine.specs.Routines.{one_nop};

use cases::{ACCEPTED, REFUSED};
use files::read_up_to;
use grammar::faults::RoutineFault;
use routine::fresh::Fresh;
use routine::read::{MOST_READ, read};
use routine::routine::Routine;
use same::same_routine;
use std::alloc::{AllocError, Global};
use std::io;
use told::Told;

mod cases;
mod same;
mod told;

// A routine that none of the cases' texts says.
const LAWFUL: &str = "lawful";

// A new one is refused for memory alone.
fn fresh(heap: Global) -> Result<Fresh, AllocError>
    ensures { IfOk result (λ f. fresh_listing f ≡ one_nop) }
{
    Fresh::new(heap).map_err(|_| AllocError)
}

// Reads the text of a case; a case without a file has the empty text.
fn read_case(
    rt: &HostRuntime,
    name: &str,
    into: &mut Fresh,
) -> Result<Result<(), RoutineFault>, AllocError>
    ensures { IfOk result (λ answer. OnErr answer (into.new.routine ≡ into.old.routine)) }
{
    let path = format!(in rt.alloc(); "{name}.txt")?;
    let text = read_up_to(rt, &path, MOST_READ)?;
    Ok(read(&text, into))
}

// Reads the text of a case, and prints what is told of it.
fn show(rt: &HostRuntime, name: &str, into: &mut Fresh) -> io::Result<()> {
    let answer = read_case(rt, name, into)?;
    rt.println(Told { name, answer })
}

// Shows cases in order, and then whether `into` said what `kept` says after each of them.
// Every case is shown, so a loop stands here, and not `all`, which ends at the first change.
fn show_all(rt: &HostRuntime, names: &[&str], into: &mut Fresh, kept: &Routine) -> io::Result<()> {
    let mut same = true;
    for name in names {
        show(rt, name, into)?;
        same &= same_routine(into.routine(), kept);
    }
    rt.println(if same { "KEPT" } else { "CHANGED" })
}

// KEPT stands after the refused cases. CHANGED, after the accepted ones, shows that a change would be told.
fn main(rt: HostRuntime) -> io::Result<()> {
    let mut routine = fresh(rt.alloc())?;
    let mut lawful = fresh(rt.alloc())?;
    // What it answers is shown by the next line, which reads the same text.
    let _ = read_case(&rt, LAWFUL, &mut lawful)?;
    show(&rt, LAWFUL, &mut routine)?;
    show_all(&rt, REFUSED, &mut routine, lawful.routine())?;
    show_all(&rt, ACCEPTED, &mut routine, lawful.routine())
}
