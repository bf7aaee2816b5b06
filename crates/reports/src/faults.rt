// Why there is no report.
ghost use Rattle.std.specs.Prelude.{◌≡◌, Some, codes};
ghost use Rattle.reports.specs.Faults.{report_code};
ghost use Rattle.reports.specs.declared.faults.ReportFault.{ReportFault};

use fields::faults::FaultCode;
use std::alloc::AllocError;
use std::error::Error;
use std::fmt;

// A type of its own, and not AllocError, since it has a code.
#[derive(Clone, Copy, Debug, PartialEq, Eq)]
pub enum ReportFault {
    // There is no memory for it.
    Memory,
}

impl fmt::Display for ReportFault {
    ghost output = { λ _. Some (codes "no memory") };

    fn fmt<W: fmt::Write>(&self, f: &mut fmt::Formatter<W>) -> fmt::Result {
        match self {
            ReportFault::Memory => f.write_str("no memory"),
        }
    }
}

impl Error for ReportFault {}

impl From<AllocError> for ReportFault {
    ghost from_gives = { λ _ r. r ≡ ReportFault.Memory };

    fn from(_: AllocError) -> ReportFault {
        ReportFault::Memory
    }
}

impl From<ReportFault> for FaultCode {
    ghost from_gives = { λ e r. r ≡ report_code e };

    fn from(fault: ReportFault) -> FaultCode {
        match fault {
            ReportFault::Memory => FaultCode {
                number: 255,
                layer: 0,
                line: 0,
            },
        }
    }
}
