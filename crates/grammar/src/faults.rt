// Why a text is no routine.
ghost use Rattle.std.specs.Prelude.{◌≡◌};
ghost use Rattle.grammar.specs.Faults.{routine_code};
ghost use Rattle.grammar.specs.declared.faults.RoutineFault.{RoutineFault};

use fields::faults::FaultCode;
use instructions::faults::LineFault;
use std::alloc::AllocError;

#[derive(Clone, Copy, Debug, PartialEq, Eq)]
pub enum RoutineFault {
    // A line says nothing that may stand there.
    Line(LineFault),
    // The text is empty, or above 8,192 bytes.
    Length,
    // An INIT address is not above the one before.
    Order { line: usize },
    // One INIT line, party or instruction too many.
    Room { line: usize },
    // A party ends without an instruction.
    Empty { line: usize },
    // A jump goes past the end of its party.
    Target { line: usize },
    // The text ends with no party, or inside one.
    Unfinished,
    // More than 32 different addresses are named.
    Addresses,
    // There is no memory for what is made.
    Memory,
}

impl From<LineFault> for RoutineFault {
    ghost from_gives = { λ e r. r ≡ RoutineFault.Line e };

    fn from(fault: LineFault) -> RoutineFault {
        RoutineFault::Line(fault)
    }
}

impl From<AllocError> for RoutineFault {
    ghost from_gives = { λ _ r. r ≡ RoutineFault.Memory };

    fn from(_: AllocError) -> RoutineFault {
        RoutineFault::Memory
    }
}

impl From<RoutineFault> for FaultCode {
    ghost from_gives = { λ e r. r ≡ routine_code e };

    fn from(fault: RoutineFault) -> FaultCode {
        let (number, layer, line) = match fault {
            RoutineFault::Line(fault) => return FaultCode::from(fault),
            RoutineFault::Length => (1, 3, 0),
            RoutineFault::Order { line } => (8, 3, line),
            RoutineFault::Room { line } => (9, 3, line),
            RoutineFault::Empty { line } => (10, 3, line),
            RoutineFault::Target { line } => (11, 3, line),
            RoutineFault::Unfinished => (12, 3, 0),
            RoutineFault::Addresses => (13, 3, 0),
            RoutineFault::Memory => (255, 0, 0),
        };
        FaultCode {
            number,
            layer,
            line,
        }
    }
}
