// What became of a fence.
ghost use Rattle.std.specs.Prelude.{◌≡◌, unwrap_or};
ghost use Rattle.std.specs.Option.{option_copied};
ghost use Rattle.instructions.specs.declared.types.Instruction.TheVariants.{Nop};
ghost use Rattle.reports.specs.Fates.{fate_text};
ghost use Rattle.reports.specs.Fences.{fate};

use instructions::types::Instruction;

// A type of its own and no `Option<Pass>`, which could have no methods here.
#[derive(Clone, Copy, Debug, PartialEq, Eq)]
pub(crate) enum Fate {
    // The forward pass took it out.
    Forward,
    // The backward pass took it out.
    Backward,
    Stays,
}

impl Fate {
    // By what stands in the fence's place after the forward pass and after both, if anything does.
    pub(crate) fn new(forward: Option<&Instruction>, thinned: Option<&Instruction>) -> Fate
        ensures { fate_text result ≡ fate (unwrap_or (option_copied forward.entry) Nop)
            (unwrap_or (option_copied thinned.entry) Nop) }
    {
        match (forward, thinned) {
            (Some(Instruction::Fence), Some(Instruction::Fence)) => Fate::Stays,
            (Some(Instruction::Fence), _) => Fate::Backward,
            _ => Fate::Forward,
        }
    }

    // How it is told. Not by a `Display`: no clause keeps its `fmt` from failing.
    pub(crate) fn text(self) -> &'static str
        ensures { result.now ≡ fate_text self }
    {
        match self {
            Fate::Forward => "FORWARD",
            Fate::Backward => "BACKWARD",
            Fate::Stays => "STAYS",
        }
    }
}
