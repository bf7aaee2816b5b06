// Why a line cannot be cut into fields.
ghost use Rattle.std.specs.Prelude.{◌≡◌, Some};
ghost use Rattle.fields.specs.Faults.{code_text, field_code};

use std::fmt;

// What is told of a fault: its number, the layer that found it, and the line where it stands.
// Numbers and no enums: the programs print them, and each layer has faults of its own.
#[derive(Clone, Copy, Debug, PartialEq, Eq)]
pub struct FaultCode {
    pub number: u8,
    pub layer: u8,
    pub line: usize,
}

// The three numbers, with a space between them.
impl fmt::Display for FaultCode {
    ghost output = { λ c. Some (code_text c) };

    fn fmt<W: fmt::Write>(&self, f: &mut fmt::Formatter<W>) -> fmt::Result {
        let FaultCode {
            number,
            layer,
            line,
        } = *self;
        write!(f, "{number} {layer} {line}")
    }
}

#[derive(Clone, Copy, Debug, PartialEq, Eq)]
pub enum FieldFault {
    // A byte outside 32 to 126 in the line, or no byte 10 after it.
    Bytes { line: usize },
    // An empty field: an empty line, or a leading, a trailing or a second space.
    Spacing { line: usize },
}

impl From<FieldFault> for FaultCode {
    ghost from_gives = { λ e r. r ≡ field_code e };

    fn from(fault: FieldFault) -> FaultCode {
        let (number, line) = match fault {
            FieldFault::Bytes { line } => (2, line),
            FieldFault::Spacing { line } => (3, line),
        };
        FaultCode {
            number,
            layer: 1,
            line,
        }
    }
}
