// The fields after a line's word: their count, then their kinds, then their ranges.
ghost use Rattle.std.specs.Prelude.{◌≡◌, ◌≤◌, Bool, Option, IfSome};
ghost use Rattle.fields.specs.Tokens.{Seen, seen};
ghost use Rattle.instructions.specs.Arguments.{given, of_none, of_one, of_two, is_register, is_number, is_operand, register_in, number_in, operand_in};

use crate::faults::LineFault;
use crate::types::Operand;
use fields::numbers::value_up_to;
use fields::registers::Register;
use fields::tokens::Token;

// By their count, and no slice: a reader cuts fields off one by one, and no word takes more than two.
#[derive(Clone, Copy)]
pub(crate) enum Fields<'a> {
    Zero,
    One(Token<'a>),
    Two(Token<'a>, Token<'a>),
    More,
}

// The fields after a line's word, and the line's number.
#[derive(Clone, Copy)]
pub(crate) struct Arguments<'a> {
    pub(crate) fields: Fields<'a>,
    pub(crate) line: usize,
}

impl<'a> Arguments<'a> {
    // For a word that takes no field.
    pub(crate) fn none(self) -> Result<(), LineFault>
        ensures { result ≡ of_none (given self.entry.fields) self.entry.line }
    {
        match self.fields {
            Fields::Zero => Ok(()),
            _ => Err(LineFault::Count { line: self.line }),
        }
    }

    // For a word that takes one: their count is asked first, then the kind, then the range.
    pub(crate) fn one<A: Argument>(self) -> Result<A, LineFault>
        ensures { result ≡ of_one A.is_kind A.value (given self.entry.fields) self.entry.line }
    {
        let line = self.line;
        let Fields::One(field) = self.fields else {
            return Err(LineFault::Count { line });
        };
        if !A::is_kind(field) {
            return Err(LineFault::Kind { line });
        }
        A::value(field).ok_or(LineFault::Range { line })
    }

    // For a word that takes two: both kinds are asked before the ranges.
    pub(crate) fn two<A: Argument, B: Argument>(self) -> Result<(A, B), LineFault>
        ensures { result ≡ of_two A.is_kind A.value B.is_kind B.value
            (given self.entry.fields) self.entry.line }
    {
        let line = self.line;
        let Fields::Two(first, second) = self.fields else {
            return Err(LineFault::Count { line });
        };
        if !A::is_kind(first) || !B::is_kind(second) {
            return Err(LineFault::Kind { line });
        }
        let first = A::value(first).ok_or(LineFault::Range { line })?;
        let second = B::value(second).ok_or(LineFault::Range { line })?;
        Ok((first, second))
    }
}

// What a field after a word may be asked to be.
pub(crate) trait Argument: Copy {
    ghost is_kind: { Seen → Bool };

    ghost value: { Seen → Option Self };

    // Whether the field is of the kind.
    fn is_kind(field: Token) -> bool
        ensures { result ≡ is_kind (seen field.entry) };

    // What the field says, where that is in range.
    fn value(field: Token) -> Option<Self>
        ensures { result ≡ value (seen field.entry) };
}

fn is_number(field: Token) -> bool
    ensures { result ≡ is_number (seen field.entry) }
{
    matches!(field, Token::Number { .. })
}

fn number_up_to(field: Token, max: u32) -> Option<u32>
    ensures value { result ≡ number_in max (seen field.entry) }
    ensures within { IfSome result (λ n. n ≤ max) }
{
    match field {
        Token::Number { digits, .. } => value_up_to(digits, max),
        _ => None,
    }
}

// The kinds of numbers, by type. One impl under a bound would have to ask each type for its greatest number and for
// its way from a u32, and would be longer than the three. What is cast is at most that number.

// The position that a jump goes to: at most the end of a party of 32 instructions.
impl Argument for u8 {
    ghost is_kind = { is_number };

    ghost value = { number_in 32 };

    fn is_kind(field: Token) -> bool {
        is_number(field)
    }

    fn value(field: Token) -> Option<u8> {
        Some(number_up_to(field, 32)? as u8)
    }
}

// An address.
impl Argument for u16 {
    ghost is_kind = { is_number };

    ghost value = { number_in 65535 };

    fn is_kind(field: Token) -> bool {
        is_number(field)
    }

    fn value(field: Token) -> Option<u16> {
        Some(number_up_to(field, u32::from(u16::MAX))? as u16)
    }
}

// A word of memory.
impl Argument for u32 {
    ghost is_kind = { is_number };

    ghost value = { number_in 4294967295 };

    fn is_kind(field: Token) -> bool {
        is_number(field)
    }

    fn value(field: Token) -> Option<u32> {
        number_up_to(field, u32::MAX)
    }
}

impl Argument for Register {
    ghost is_kind = { is_register };

    ghost value = { register_in };

    fn is_kind(field: Token) -> bool {
        matches!(field, Token::Register { .. })
    }

    fn value(field: Token) -> Option<Register> {
        match field {
            Token::Register { register, .. } => Some(register),
            _ => None,
        }
    }
}

// A register or a word.
impl Argument for Operand {
    ghost is_kind = { is_operand };

    ghost value = { operand_in };

    fn is_kind(field: Token) -> bool {
        matches!(field, Token::Register { .. } | Token::Number { .. })
    }

    fn value(field: Token) -> Option<Operand> {
        match field {
            Token::Word { .. } => None,
            Token::Register { register, .. } => Some(Operand::Register(register)),
            Token::Number { digits, .. } => value_up_to(digits, u32::MAX).map(Operand::Constant),
        }
    }
}
