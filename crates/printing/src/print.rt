// A whole routine into a lent buffer.
ghost use Rattle.std.specs.Prelude.{◌≡◌, ◌≤◌, length, IfErr, Ok};
ghost use Rattle.std.proofs.lemmas.List.Edits.{sets};
ghost use Rattle.grammar.specs.Reads.{read_of};
ghost use Rattle.grammar.specs.Texts.{text_of};
ghost use Rattle.routine.specs.Routines.{listing};
ghost use Rattle.printing.specs.Faults.{print_code, too_short};
ghost use Rattle.printing.specs.Lines.{routine_text};
ghost use Rattle.printing.specs.Prints.{print_answer, printed_over};

use crate::faults::PrintFault;
use crate::page::Page;
use crate::text::{Text, write_all};
use routine::routine::Routine;

// How many bytes a routine's text has at most.
pub const LONGEST_PRINT: usize = 2952;

impl Text for Routine {
    ghost text = { routine_text };

    #[tactic(auto, using(crate::proofs::Texts::parts))]
    fn write(&self, page: &mut Page) {
        write_all(self.inits(), page);
        write_all(self.parties(), page);
    }
}

// Writes the text from the buffer's start on, as far as there is room: the text's length.
#[tactic(auto, using(crate::proofs::Texts::whole))]
fn write_text(routine: &Routine, out: &mut [u8]) -> usize
    ensures writes { out.new ≡ sets out.old 0 (routine_text routine.now) }
    ensures ends { result ≡ length (routine_text routine.now) }
{
    let mut page = Page::new(out);
    routine.write(&mut page);
    page.at
}

// Prints the routine: the length of its text. The bytes after the text stay; a buffer that is too short stays whole.
#[tactic(auto, using(crate::proofs::Texts::whole))]
pub fn print(routine: &Routine, out: &mut [u8]) -> Result<usize, PrintFault>
    ensures answer { result ≡ print_answer (text_of (listing routine.now)) (length out.old) }
    ensures after { out.new ≡ printed_over (text_of (listing routine.now)) out.old }
    ensures short { IfErr result (λ e. print_code e ≡ too_short (length (text_of (listing routine.now)))) }
    ensures reads_back { read_of (text_of (listing routine.now)) ≡ Ok (listing routine.now) }
    ensures bound { length (text_of (listing routine.now)) ≤ 2952 }
{
    // Into no buffer, to learn how long it is.
    let needed = write_text(routine, &mut []);
    if out.len() < needed {
        return Err(PrintFault::Short { needed });
    }
    write_text(routine, out);
    Ok(needed)
}
