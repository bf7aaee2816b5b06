// What is told of a case.
ghost use Rattle.std.specs.Prelude.{◌++◌, Some};
ghost use Rattle.refusals.specs.Told.{answer_text};

use fields::faults::FaultCode;
use grammar::faults::RoutineFault;
use std::fmt;

// A case by its name, and what the reading of its text answered.
#[derive(Clone, Copy, Debug)]
pub(crate) struct Told<'a> {
    pub(crate) name: &'a str,
    pub(crate) answer: Result<(), RoutineFault>,
}

// The name, and READ or the fault's number, layer and line.
impl fmt::Display for Told<'_> {
    ghost output = { λ t. Some (t.name.now ++ answer_text t.answer) };

    fn fmt<W: fmt::Write>(&self, f: &mut fmt::Formatter<W>) -> fmt::Result {
        let name = self.name;
        match self.answer {
            Ok(()) => write!(f, "{name} READ"),
            Err(fault) => write!(f, "{name} {}", FaultCode::from(fault)),
        }
    }
}
