// Why a routine is not printed.
ghost use Rattle.std.specs.Prelude.{◌≡◌};
ghost use Rattle.printing.specs.Faults.{print_code};

// What is told of a refusal that stands in no line: its number, and the value that goes with it.
// Numbers and no enum: they are what is told.
#[derive(Clone, Copy, Debug, PartialEq, Eq)]
pub struct RefusalCode {
    pub number: u8,
    pub value: usize,
}

#[derive(Clone, Copy, Debug, PartialEq, Eq)]
pub enum PrintFault {
    // The buffer is shorter than the text.
    Short { needed: usize },
}

impl From<PrintFault> for RefusalCode {
    ghost from_gives = { λ e r. r ≡ print_code e };

    fn from(fault: PrintFault) -> RefusalCode {
        match fault {
            PrintFault::Short { needed } => RefusalCode {
                number: 14,
                value: needed,
            },
        }
    }
}
