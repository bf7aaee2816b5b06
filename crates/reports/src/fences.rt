// What became of each fence, how many each party has, and the thinned routine.
ghost use Rattle.std.specs.Prelude.{◌≡◌, [], ◌++◌, map, IfOk, string_bytes, MatchResult, OnOk, slice_index_or};
ghost use Rattle.routine.specs.Fresh.{fresh_listing};
ghost use Rattle.grammar.specs.Faults.{routine_code};
ghost use Rattle.grammar.specs.Texts.{text_of};
ghost use Rattle.routine.specs.Parties.{code_of};
ghost use Rattle.routine.specs.Routines.{listing};
ghost use Rattle.reports.specs.Fences.{fault_line, is_fence, fence_count, fence_lines, fate_lines, party_fates, thinning_report, ReportOf, FencesPrinted};
ghost use Rattle.reports.specs.declared.faults.ReportFault.{ReportFault};

use crate::fates::Fate;
use crate::faults::ReportFault;
use fields::faults::FaultCode;
use grammar::faults::RoutineFault;
use instructions::types::Instruction;
use passes::backward::backward;
use passes::forward::forward;
use passes::routines::Thinned;
use printing::print::{LONGEST_PRINT, print};
use routine::fresh::Fresh;
use routine::party::Party;
use routine::read::read;
use routine::routine::Routine;
use std::alloc::{AllocError, Global};

fn fault_report(heap: Global, fault: RoutineFault) -> Result<Vec<u8>, AllocError>
    ensures { IfOk result (λ v. v.items ≡ fault_line (routine_code fault)) }
{
    let line = format!(in heap; "FAULT {}\n", FaultCode::from(fault))?;
    Ok(line.into_bytes())
}

fn is_fence(instruction: &Instruction) -> bool
    ensures { result ≡ is_fence instruction.now }
{
    matches!(instruction, Instruction::Fence)
}

fn fence_count(code: &[Instruction]) -> usize
    ensures { result ≡ fence_count code.now }
{
    code.iter()
        .filter(|instruction| is_fence(instruction))
        .count()
}

// The code of a party, none past the last: so no loop has to know that all three routines have as many parties.
fn code_at(parties: &[Party], party: usize) -> &[Instruction]
    ensures { result.now ≡ slice_index_or (map code_of parties.now) party [] }
{
    parties.get(party).map(Party::code).unwrap_or_default()
}

// Adds the line of each fence of a party. By `get` and not by `zip`: so no proof has to know that the three are as long.
fn add_party_fates(
    out: &mut String,
    party: usize,
    original: &[Instruction],
    forward: &[Instruction],
    thinned: &[Instruction],
) -> Result<(), AllocError>
    ensures { OnOk result (string_bytes out.new ≡ string_bytes out.old
        ++ fate_lines party 0 original.now forward.now thinned.now) }
{
    for (position, instruction) in original.iter().enumerate() {
        if is_fence(instruction) {
            let fate = Fate::new(forward.get(position), thinned.get(position)).text();
            writeln!(out, "FENCE {party} {position} {fate}")?;
        }
    }
    Ok(())
}

// Adds the line of each fence of each party.
fn add_fates(out: &mut String, thinned: &Thinned) -> Result<(), AllocError>
    ensures { OnOk result (string_bytes out.new ≡ string_bytes out.old
        ++ party_fates 0 (listing thinned.now.original).parties
        (listing thinned.now.forward).parties (listing thinned.now.routine).parties) }
{
    let forward = thinned.after_forward().parties();
    let both = thinned.routine().parties();
    for (number, party) in thinned.original().parties().iter().enumerate() {
        let after_forward = code_at(forward, number);
        let after_both = code_at(both, number);
        add_party_fates(out, number, party.code(), after_forward, after_both)?;
    }
    Ok(())
}

// Adds the line of each party: its fences before and after.
fn add_counts(out: &mut String, thinned: &Thinned) -> Result<(), AllocError>
    ensures { OnOk result (string_bytes out.new ≡ string_bytes out.old
        ++ fence_lines 0 (listing thinned.now.original).parties
        (listing thinned.now.routine).parties) }
{
    let both = thinned.routine().parties();
    for (number, party) in thinned.original().parties().iter().enumerate() {
        let before = fence_count(party.code());
        let after = fence_count(code_at(both, number));
        writeln!(out, "FENCES {number} {before} {after}")?;
    }
    Ok(())
}

// Adds the routine's text. It comes as bytes, and a String would ask whether they are text.
fn add_text(out: &mut Vec<u8>, routine: &Routine) -> Result<(), AllocError>
    ensures { OnOk result (out.new.items ≡ out.old.items ++ text_of (listing routine.now)) }
{
    let mut text = [0; LONGEST_PRINT];
    let len = print(routine, &mut text).unwrap();
    out.extend_from_slice(&text[..len])?;
    Ok(())
}

fn thinning_report(heap: Global, thinned: &Thinned) -> Result<Vec<u8>, AllocError>
    ensures { IfOk result (λ v. v.items ≡ thinning_report (listing thinned.now.original)
        (listing thinned.now.forward) (listing thinned.now.routine)) }
{
    let mut lines = String::new(heap);
    add_fates(&mut lines, thinned)?;
    add_counts(&mut lines, thinned)?;
    let mut out = lines.into_bytes();
    add_text(&mut out, thinned.routine())?;
    Ok(out)
}

fn routine_report(heap: Global, fresh: Fresh) -> Result<Vec<u8>, AllocError>
    ensures { IfOk result (λ v. ReportOf (fresh_listing fresh) v.items) }
{
    let thinned = backward(forward(fresh));
    thinning_report(heap, &thinned)
}

// All that the program `fences` prints of the text.
pub fn fences(heap: Global, text: &[u8]) -> Result<Vec<u8>, ReportFault>
    ensures { MatchResult result (λ v. FencesPrinted text.now v.items) (λ e. e ≡ ReportFault.Memory) }
{
    // A new one is refused for memory alone.
    let mut fresh = Fresh::new(heap).map_err(|_| ReportFault::Memory)?;
    match read(text, &mut fresh) {
        Ok(()) => Ok(routine_report(heap, fresh)?),
        Err(fault) => Ok(fault_report(heap, fault)?),
    }
}
