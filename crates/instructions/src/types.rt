// What a line of a routine's text may say.
use fields::registers::Register;

#[derive(Clone, Copy, Debug, PartialEq, Eq)]
pub enum Operand {
    Register(Register),
    Constant(u32),
}

#[derive(Clone, Copy, Debug, PartialEq, Eq)]
pub enum Instruction {
    // The register takes the word at the address.
    Load(Register, u16),
    // The operand is written to the address, by way of the store buffer.
    Store(u16, Operand),
    // The register and the word at the address change places, as one step.
    Exchange(Register, u16),
    // Waits until the store buffer is empty.
    Fence,
    Nop,
    Set(Register, Operand),
    // The operand is added to the register, modulo 2^32.
    Add(Register, Operand),
    // To the position, if the register is not 0.
    JumpNonzero(Register, u8),
    Jump(u8),
}

// The starting word of an address.
#[derive(Clone, Copy, Debug, PartialEq, Eq)]
pub struct Init {
    pub address: u16,
    pub value: u32,
}

// What a line says. A party is what one core runs.
#[derive(Clone, Copy, Debug, PartialEq, Eq)]
pub enum Line {
    Init(Init),
    Party,
    End,
    Instruction(Instruction),
}

// Where a line stands: before any party, inside one, or after one has ended.
#[derive(Clone, Copy, Debug, PartialEq, Eq)]
pub enum Stage {
    Before,
    Inside,
    Between,
}
