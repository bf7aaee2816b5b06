// A reader of a lent text: lines one by one, and the fields of the current line.
ghost use Rattle.std.specs.Prelude.{◌≡◌, suc, ◌≤◌, [], length, take, IfOk, IfSome};
ghost use Rattle.std.specs.Option.{ForSome};
ghost use Rattle.fields.specs.Lines.{all_printable, all_some, line_checked, line_answer};
ghost use Rattle.fields.specs.Newlines.{newlines};
ghost use Rattle.fields.specs.Pieces.{pieces, SplitOnce};
ghost use Rattle.fields.specs.Tokens.{At};

use crate::faults::FieldFault;
use crate::tokens::{Place, Token};

#[derive(Drop)]
pub struct Reader<'a> {
    // The whole text, so that it can be told of each field where it stands.
    text: &'a [u8],
    // Where the next line begins.
    next: usize,
    // The number of the current line, 0 before the first.
    line: usize,
    // The bytes of the current line that are not cut yet, if a field of it is left.
    rest: Option<&'a [u8]>,
    // Where they begin, as an index of the text. Apart from the line, and no `Place`: the line's number stays when no
    // field of it is left.
    place: usize,

    ghost next_within: { next ≤ length text.now },
    ghost few_lines: { line ≤ next },
    ghost place_within: { place ≤ length text.now },
    ghost counted: { line ≡ newlines (take next text.now) },

    // The rest is the text's own from `place` on, and has no byte 10.
    ghost stands: { ForSome rest (λ bytes. At text.now bytes.now line place) },
    ghost unbroken: { ForSome rest (λ bytes. newlines bytes.now ≡ 0) },
}

impl<'a> Reader<'a> {
    ghost use Rattle.fields.specs.Readers.{lines_left, fields_left, NextLine, AfterLine, AfterField};
    ghost use Rattle.fields.specs.Steps.{LiesAhead, IsAhead, AfterCut};

    // A reader before the first line.
    pub fn new(text: &'a [u8]) -> Reader<'a>
        ensures text { result.text.now ≡ text.now }
        ensures lines { lines_left result ≡ pieces 10 text.now }
        ensures line { result.line ≡ 0 }
        ensures fields { fields_left result ≡ [] }
    {
        Reader {
            text,
            next: 0,
            line: 0,
            rest: None,
            place: 0,
        }
    }

    // The number of the current line, 0 before the first.
    pub fn line(&self) -> usize
        ensures { result ≡ self.now.line }
    {
        self.line
    }

    // The bytes of the line ahead, if there is one: `line` is its number.
    fn ahead(&self, line: usize) -> Result<Option<&'a [u8]>, FieldFault>
        ensures is { LiesAhead result (lines_left self.now) line }
        ensures fits { IfOk result (λ found. IfSome found (λ bytes. IsAhead self.now bytes.now)) }
    {
        let rest = &self.text[self.next..];
        match split_once(rest, b'\n') {
            Some((bytes, _)) => Ok(Some(bytes)),
            None if rest.is_empty() => Ok(None),
            None => Err(FieldFault::Bytes { line }),
        }
    }

    // Goes on to the line ahead.
    fn enter(&mut self, bytes: &'a [u8])
        requires { IsAhead self.old bytes.now }
        ensures { NextLine self.old self.new }
    {
        *self = Reader {
            text: self.text,
            next: self.next + bytes.len() + 1,
            line: self.line + 1,
            rest: Some(bytes),
            place: self.next,
        };
    }

    // Goes to the next line, or says why it is not made of fields.
    // Ok says whether there is a line: a bool, since what a line holds is asked field by field.
    pub fn next_line(&mut self) -> Result<bool, FieldFault>
        ensures answer { result ≡ line_answer (lines_left self.old) (suc self.old.line) }
        ensures after { AfterLine result self.old self.new }
    {
        let line = self.line + 1;
        let Some(bytes) = self.ahead(line)? else {
            return Ok(false);
        };
        check_line(bytes, line)?;
        self.enter(bytes);
        Ok(true)
    }

    // The bytes of the next field.
    fn cut_field(&mut self) -> Option<&'a [u8]>
        ensures { AfterCut result self.old self.new }
    {
        let rest = self.rest?;
        match split_once(rest, b' ') {
            Some((field, others)) => {
                self.rest = Some(others);
                self.place += field.len() + 1;
                Some(field)
            }
            None => {
                self.rest = None;
                Some(rest)
            }
        }
    }

    // The next field of the current line, or None after its last.
    pub fn next_field(&mut self) -> Option<Token<'a>>
        ensures { AfterField result self.old self.new }
    {
        let place = Place {
            line: self.line,
            index: self.place,
        };
        let field = self.cut_field()?;
        Some(Token::of(field, place))
    }
}

// The bytes before the first separator, and those after it.
fn split_once(bytes: &[u8], separator: u8) -> Option<(&[u8], &[u8])>
    ensures { SplitOnce separator bytes.now result }
{
    let at = bytes.iter().position(|b| *b == separator)?;
    Some((&bytes[..at], &bytes[at + 1..]))
}

// Whether each byte is printable.
fn all_printable(line: &[u8]) -> bool
    ensures { result ≡ all_printable line.now }
{
    line.iter().all(|b| matches!(b, b' '..=b'~'))
}

// Whether no field is empty.
fn all_some(line: &[u8]) -> bool
    ensures { result ≡ all_some (pieces 32 line.now) }
{
    line.split(|b| *b == b' ').all(|field| !field.is_empty())
}

// Whether a line is made of fields, or else why it is not.
fn check_line(bytes: &[u8], line: usize) -> Result<(), FieldFault>
    ensures { result ≡ line_checked bytes.now line }
{
    if !all_printable(bytes) {
        return Err(FieldFault::Bytes { line });
    }
    if !all_some(bytes) {
        return Err(FieldFault::Spacing { line });
    }
    Ok(())
}
