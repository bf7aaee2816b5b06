// A text that is being read: the lines so far.
ghost use Rattle.std.specs.Prelude.{◌≡◌, ◌<◌, true, length, IfOk, OnOk};
ghost use Rattle.fields.specs.Pieces.{pieces};
ghost use Rattle.instructions.specs.Keywords.{may_stand};
ghost use Rattle.instructions.specs.declared.types.Line.{Line};
ghost use Rattle.instructions.specs.declared.types.Stage.{Stage};
ghost use Rattle.instructions.specs.declared.types.Stage.TheVariants.{Inside};
ghost use Rattle.grammar.specs.Grammar.{word_of};
ghost use Rattle.grammar.specs.Reads.{accept, blank, read_from, read_of, finished, outside};
ghost use Rattle.routine.specs.Joins.{Joined};
ghost use Rattle.routine.specs.Routines.{listing};
ghost use Rattle.routine.specs.Storages.{parties_of, listing_of, IsComplete};

use crate::party::{MOST_INSTRUCTIONS, Party};
use crate::read::LONGEST_TEXT;
use crate::room::Room;
use crate::routine::Routine;
use crate::storage::{MOST_PARTIES, Storage};
use fields::reader::Reader;
use grammar::faults::RoutineFault;
use instructions::lines::read_line;
use instructions::types::{Instruction, Line, Stage};
use std::alloc::{AllocError, Global};

const FEWEST_PARTIES: usize = 1;

#[derive(Drop)]
pub struct Draft {
    // INIT lines and whole parties.
    storage: Storage,
    // The party in hand.
    current: Party,
    // Where the next line stands.
    stage: Stage,
    ghost room_inside: { stage ≡ Inside → length (parties_of storage) < 4 },
}

impl Draft {
    ghost use Rattle.routine.specs.Drafts.{drafted, ReadInto};

    // No line yet.
    pub(crate) fn new(heap: Global) -> Result<Draft, AllocError>
        ensures { IfOk result (λ d. drafted d ≡ blank) }
    {
        let storage = Storage::new(heap)?;
        let current = Party::new(heap)?;
        Ok(Draft {
            storage,
            current,
            stage: Stage::Before,
        })
    }

    fn clear(&mut self)
        ensures { drafted self.new ≡ blank }
    {
        self.storage.clear();
        self.current.clear();
        self.stage = Stage::Before;
    }

    fn begin_party(&mut self, line: usize) -> Result<(), RoutineFault>
        ensures { Joined result (accept Line.Party line (drafted self.old)) (drafted self.new) }
    {
        if self.storage.parties().len() >= MOST_PARTIES {
            return Err(RoutineFault::Room { line });
        }
        self.current.clear();
        self.stage = Stage::Inside;
        Ok(())
    }

    fn add_instruction(&mut self, instruction: Instruction, line: usize) -> Result<(), RoutineFault>
        ensures { let read = accept (Line.Instruction instruction) line (drafted self.old) in
            Joined result read (drafted self.new) }
    {
        if self.current.code().len() >= MOST_INSTRUCTIONS {
            return Err(RoutineFault::Room { line });
        }
        self.current.add(instruction);
        Ok(())
    }

    fn end_party(&mut self, line: usize) -> Result<(), RoutineFault>
        requires { self.old.stage ≡ Stage.Inside }
        ensures { Joined result (accept Line.End line (drafted self.old)) (drafted self.new) }
    {
        if self.current.code().is_empty() {
            return Err(RoutineFault::Empty { line });
        }
        if !self.current.stays_within() {
            return Err(RoutineFault::Target { line });
        }
        self.storage.add_party(self.current.code());
        self.current.clear();
        self.stage = Stage::Between;
        Ok(())
    }

    // One line more, whose word may stand there. By a match: what a line says is data, and each case asks its own.
    fn accept(&mut self, line: Line, number: usize) -> Result<(), RoutineFault>
        requires { may_stand self.old.stage (word_of line) ≡ true }
        ensures { Joined result (accept line number (drafted self.old)) (drafted self.new) }
    {
        match line {
            Line::Init(init) => self.storage.add_init(init, number),
            Line::Party => self.begin_party(number),
            Line::Instruction(instruction) => self.add_instruction(instruction, number),
            Line::End => self.end_party(number),
        }
    }

    // The lines of a text, up to its end or its first fault.
    fn read_lines(&mut self, text: &[u8]) -> Result<(), RoutineFault>
        ensures { Joined result (read_from 1 blank (pieces 10 text.now)) (drafted self.new) }
    {
        self.clear();
        let mut reader = Reader::new(text);
        while let Some(line) = read_line(&mut reader, self.stage)? {
            self.accept(line, reader.line())?;
        }
        Ok(())
    }

    // The questions at the text's end.
    fn finish(&mut self) -> Result<(), RoutineFault>
        ensures read { ReadInto (finished (drafted self.old)) result self.new }
        ensures same { drafted self.new ≡ drafted self.old }
    {
        if self.stage == Stage::Inside || self.storage.parties().len() < FEWEST_PARTIES {
            return Err(RoutineFault::Unfinished);
        }
        self.storage.note_addresses()
    }

    // Reads a whole text: which routine it is, or its first fault.
    pub(crate) fn read_text(&mut self, text: &[u8]) -> Result<(), RoutineFault>
        ensures read { ReadInto (read_of text.now) result self.new }
        ensures complete { OnOk result (IsComplete self.new.storage) }
    {
        if text.is_empty() || text.len() > LONGEST_TEXT {
            return Err(RoutineFault::Length);
        }
        self.read_lines(text)?;
        self.finish()
    }

    // Puts what was read into the routine, whose storage is the draft's from then on.
    pub(crate) fn hand_to(&mut self, routine: &mut Routine)
        requires complete { IsComplete self.old.storage }
        requires closed { outside self.old.stage ≡ true }
        ensures { listing routine.new ≡ listing_of self.old.storage }
    {
        routine.exchange(&mut self.storage);
    }

    // Its room, for another use.
    pub(crate) fn into_room(self) -> Room {
        Room(self.storage)
    }
}
