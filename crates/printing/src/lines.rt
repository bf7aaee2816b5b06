// The lines of a routine's text.
ghost use Rattle.std.specs.Prelude.{◌≡◌};
ghost use Rattle.printing.specs.Lines.{field_text, keyword_line, instruction_line, init_line, party_text};
ghost use Rattle.printing.specs.Pages.{EndFits, Wrote};

use crate::page::Page;
use crate::text::{Text, write_all};
use fields::numeral::Numeral;
use instructions::keyword::Keyword;
use instructions::types::{Init, Instruction, Operand};
use routine::party::Party;

// A field after the first one, with the space before it.
impl Text for Operand {
    ghost text = { field_text };

    fn write(&self, page: &mut Page) {
        page.put_byte(b' ');
        match *self {
            Operand::Register(register) => page.put_byte(register.letter()),
            Operand::Constant(n) => page.put(Numeral::of(n).bytes()),
        }
    }
}

// Writes a line: the word and the fields.
#[tactic(auto, using(crate::proofs::Texts::parts))]
fn write_line(keyword: Keyword, fields: &[Operand], page: &mut Page)
    requires { EndFits page.old (keyword_line keyword fields.now) }
    ensures { Wrote page.old (keyword_line keyword fields.now) page.new }
{
    page.put(keyword.spelling());
    write_all(fields, page);
    page.put_byte(b'\n');
}

// An address or a position, which is written as a constant is.
fn number(n: u16) -> Operand
    ensures { result ≡ Operand.Constant n }
{
    Operand::Constant(u32::from(n))
}

impl Text for Instruction {
    ghost text = { instruction_line };

    fn write(&self, page: &mut Page) {
        match *self {
            Instruction::Load(r, address) => write_line(
                Keyword::Load,
                &[Operand::Register(r), number(address)],
                page,
            ),
            Instruction::Store(address, source) => write_line(
                Keyword::Store,
                &[number(address), source],
                page,
            ),
            Instruction::Exchange(r, address) => write_line(
                Keyword::Exchange,
                &[Operand::Register(r), number(address)],
                page,
            ),
            Instruction::Fence => write_line(Keyword::Fence, &[], page),
            Instruction::Nop => write_line(Keyword::Nop, &[], page),
            Instruction::Set(r, source) => write_line(
                Keyword::Set,
                &[Operand::Register(r), source],
                page,
            ),
            Instruction::Add(r, source) => write_line(
                Keyword::Add,
                &[Operand::Register(r), source],
                page,
            ),
            Instruction::JumpNonzero(r, target) => write_line(
                Keyword::JumpNonzero,
                &[Operand::Register(r), number(u16::from(target))],
                page,
            ),
            Instruction::Jump(target) => write_line(
                Keyword::Jump,
                &[number(u16::from(target))],
                page,
            ),
        }
    }
}

impl Text for Init {
    ghost text = { init_line };

    fn write(&self, page: &mut Page) {
        write_line(
            Keyword::Init,
            &[number(self.address), Operand::Constant(self.value)],
            page,
        );
    }
}

// PARTY, its instructions, END.
impl Text for Party {
    ghost text = { party_text };

    #[tactic(auto, using(crate::proofs::Texts::parts))]
    fn write(&self, page: &mut Page) {
        write_line(Keyword::Party, &[], page);
        write_all(self.code(), page);
        write_line(Keyword::End, &[], page);
    }
}
