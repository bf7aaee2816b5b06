// Theorems on reading, which the reader's contract cites.
ghost use Rattle.grammar.specs.Grammar.{LinesReadBack, LinesReadAsWritten, ReadsExactly, WrittenIsRead, ReadIsWritten};

pub fn lines_stand()
    ensures back { LinesReadBack }
    ensures only { LinesReadAsWritten }
{}

pub fn grammar_stands()
    ensures exactly { ReadsExactly }
    ensures back { WrittenIsRead }
    ensures only { ReadIsWritten }
{}
