// The words that a line may begin with.
ghost use Rattle.std.specs.Prelude.{◌≡◌};
ghost use Rattle.fields.specs.Tokens.{seen};
ghost use Rattle.instructions.specs.Keywords.{spelled, keyword_seen, may_stand};

use crate::types::Stage;
use fields::tokens::Token;

#[derive(Clone, Copy, Debug, PartialEq, Eq)]
pub enum Keyword {
    Init,
    Party,
    End,
    Load,
    Store,
    Exchange,
    Fence,
    Nop,
    Set,
    Add,
    JumpNonzero,
    Jump,
}

const KEYWORDS: [Keyword; 12] = [
    Keyword::Init,
    Keyword::Party,
    Keyword::End,
    Keyword::Load,
    Keyword::Store,
    Keyword::Exchange,
    Keyword::Fence,
    Keyword::Nop,
    Keyword::Set,
    Keyword::Add,
    Keyword::JumpNonzero,
    Keyword::Jump,
];

impl Keyword {
    // The word, as it stands in a text: bytes, since a field is bytes.
    pub fn spelling(self) -> &'static [u8]
        ensures { result.now ≡ spelled self }
    {
        match self {
            Keyword::Init => b"INIT",
            Keyword::Party => b"PARTY",
            Keyword::End => b"END",
            Keyword::Load => b"LD",
            Keyword::Store => b"ST",
            Keyword::Exchange => b"XCHG",
            Keyword::Fence => b"MFENCE",
            Keyword::Nop => b"NOP",
            Keyword::Set => b"SET",
            Keyword::Add => b"ADD",
            Keyword::JumpNonzero => b"JNZ",
            Keyword::Jump => b"JMP",
        }
    }

    // The keyword that a field is; no TryFrom, which would be public as Keyword is.
    pub(crate) fn of(field: Token) -> Option<Keyword>
        ensures { result ≡ keyword_seen (seen field.entry) }
    {
        KEYWORDS
            .iter()
            .copied()
            .find(|keyword| field.is_word(keyword.spelling()))
    }

    // Whether a line that begins with the word may stand there.
    pub(crate) fn may_stand(self, stage: Stage) -> bool
        ensures { result ≡ may_stand stage self }
    {
        match self {
            Keyword::Init => stage == Stage::Before,
            Keyword::Party => stage != Stage::Inside,
            _ => stage == Stage::Inside,
        }
    }
}
