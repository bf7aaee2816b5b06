// A line of fields into what it says.
ghost use Rattle.std.specs.Prelude.{◌≡◌, suc, map, drop};
ghost use Rattle.fields.specs.Lines.{line_answer};
ghost use Rattle.fields.specs.Readers.{lines_left, fields_left};
ghost use Rattle.fields.specs.Tokens.{seen, seen_of};
ghost use Rattle.instructions.specs.Arguments.{given, given_by};
ghost use Rattle.instructions.specs.Lines.{keyword_here, line_by, line_read, AfterRead};

use crate::arguments::{Arguments, Fields};
use crate::faults::LineFault;
use crate::keyword::Keyword;
use crate::types::{Init, Instruction, Line, Stage};
use fields::reader::Reader;
use fields::tokens::Token;

// The fields that are left of the current line; at most three are cut off.
fn rest_of_line<'a>(reader: &mut Reader<'a>) -> Fields<'a>
    ensures gives { given result ≡ given_by (map seen_of (fields_left reader.old)) }
    ensures left { fields_left reader.new ≡ drop 3 (fields_left reader.old) }
    ensures lines { lines_left reader.new ≡ lines_left reader.old }
    ensures line { reader.new.line ≡ reader.old.line }
    ensures text { reader.new.text.now ≡ reader.old.text.now }
{
    match (
        reader.next_field(),
        reader.next_field(),
        reader.next_field(),
    ) {
        (None, _, _) => Fields::Zero,
        (Some(first), None, _) => Fields::One(first),
        (Some(first), Some(second), None) => Fields::Two(first, second),
        _ => Fields::More,
    }
}

// The keyword that the first field is, if it may stand there.
fn keyword_here(first: Token, stage: Stage) -> Option<Keyword>
    ensures { result ≡ keyword_here stage (seen first.entry) }
{
    Keyword::of(first).filter(|keyword| keyword.may_stand(stage))
}

// What a line says that begins with the keyword.
fn line_of(keyword: Keyword, arguments: Arguments) -> Result<Line, LineFault>
    ensures { result ≡ line_by keyword (given arguments.entry.fields) arguments.entry.line }
{
    let instruction = match keyword {
        Keyword::Init => {
            let (address, value) = arguments.two()?;
            return Ok(Line::Init(Init { address, value }));
        }
        Keyword::Party => {
            arguments.none()?;
            return Ok(Line::Party);
        }
        Keyword::End => {
            arguments.none()?;
            return Ok(Line::End);
        }
        Keyword::Load => {
            let (register, address) = arguments.two()?;
            Instruction::Load(register, address)
        }
        Keyword::Store => {
            let (address, operand) = arguments.two()?;
            Instruction::Store(address, operand)
        }
        Keyword::Exchange => {
            let (register, address) = arguments.two()?;
            Instruction::Exchange(register, address)
        }
        Keyword::Fence => {
            arguments.none()?;
            Instruction::Fence
        }
        Keyword::Nop => {
            arguments.none()?;
            Instruction::Nop
        }
        Keyword::Set => {
            let (register, operand) = arguments.two()?;
            Instruction::Set(register, operand)
        }
        Keyword::Add => {
            let (register, operand) = arguments.two()?;
            Instruction::Add(register, operand)
        }
        Keyword::JumpNonzero => {
            let (register, target) = arguments.two()?;
            Instruction::JumpNonzero(register, target)
        }
        Keyword::Jump => Instruction::Jump(arguments.one()?),
    };
    Ok(Line::Instruction(instruction))
}

// What the next line says, told where it stands; None after the last line.
pub fn read_line(reader: &mut Reader, stage: Stage) -> Result<Option<Line>, LineFault>
    ensures answer { result ≡ line_read stage (lines_left reader.old) (suc reader.old.line) }
    ensures after { AfterRead (line_answer (lines_left reader.old) (suc reader.old.line)) reader.old reader.new }
{
    if !reader.next_line()? {
        return Ok(None);
    }
    let line = reader.line();
    let first = reader.next_field().ok_or(LineFault::Word { line })?;
    let fields = rest_of_line(reader);
    let keyword = keyword_here(first, stage).ok_or(LineFault::Word { line })?;
    Ok(Some(line_of(keyword, Arguments { fields, line })?))
}
