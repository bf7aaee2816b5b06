// The four registers of a party, and the letter that names each.
ghost use Rattle.std.specs.Prelude.{◌≡◌};
ghost use Rattle.fields.specs.Registers.{letter_of, register_of};

#[derive(Clone, Copy, Debug, PartialEq, Eq)]
pub enum Register {
    A,
    B,
    C,
    D,
}

impl Register {
    // A method, since `u8::from` would not say that the byte is a letter.
    pub fn letter(self) -> u8
        ensures { result ≡ letter_of self }
    {
        match self {
            Register::A => b'A',
            Register::B => b'B',
            Register::C => b'C',
            Register::D => b'D',
        }
    }

    // The register that a field names, if it is a register's letter.
    // An Option, and no TryFrom with an error type: another field is no error, but of another kind.
    pub(crate) fn named(field: &[u8]) -> Option<Register>
        ensures { result ≡ register_of field.now }
    {
        let [letter] = field else {
            return None;
        };
        match char::from(*letter) {
            'A' => Some(Register::A),
            'B' => Some(Register::B),
            'C' => Some(Register::C),
            'D' => Some(Register::D),
            _ => None,
        }
    }
}
