// Why a line says nothing that may stand there.
ghost use Rattle.std.specs.Prelude.{◌≡◌};
ghost use Rattle.instructions.specs.Faults.{line_code};
ghost use Rattle.instructions.specs.declared.faults.LineFault.{LineFault};

use fields::faults::{FaultCode, FieldFault};

#[derive(Clone, Copy, Debug, PartialEq, Eq)]
pub enum LineFault {
    // The line is not made of fields.
    Field(FieldFault),
    // Its first field is no word, or one that may not stand here.
    Word { line: usize },
    // Its number of fields is not that of its word.
    Count { line: usize },
    // A field is not of its kind.
    Kind { line: usize },
    // A number is out of range.
    Range { line: usize },
}

impl From<FieldFault> for LineFault {
    ghost from_gives = { λ e r. r ≡ LineFault.Field e };

    fn from(fault: FieldFault) -> LineFault {
        LineFault::Field(fault)
    }
}

impl From<LineFault> for FaultCode {
    ghost from_gives = { λ e r. r ≡ line_code e };

    fn from(fault: LineFault) -> FaultCode {
        let (number, line) = match fault {
            LineFault::Field(fault) => return FaultCode::from(fault),
            LineFault::Word { line } => (4, line),
            LineFault::Count { line } => (5, line),
            LineFault::Kind { line } => (6, line),
            LineFault::Range { line } => (7, line),
        };
        FaultCode {
            number,
            layer: 2,
            line,
        }
    }
}
