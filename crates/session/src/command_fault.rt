ghost use Rattle.std.specs.Prelude.{◌≡◌};
ghost use Rattle.session.specs.Carrying.{fault_of_print};
ghost use Rattle.session.specs.inner.AddFaults.{fault_of_add};

use crate::add_fault::AddFault;
use session_rules::Limit;
use text_rows::PrintFault;

/// Why a job was not carried out.
#[derive(Clone, Copy, Debug, PartialEq, Eq)]
pub enum CommandFault {
    /// An allocation failed. A prefix of the job's text may be written.
    Memory,
    /// A write failed. A prefix of the job's text is written.
    Write,
    /// The job is an add that passes this limit. Nothing of it is written.
    Over {
        /// The first limit that it passes.
        limit: Limit,
    },
}

impl From<PrintFault> for CommandFault {
    ghost from_gives = { λ fault e. e ≡ fault_of_print fault };

    /// Gives the fault of a job whose text is not printed to its end.
    fn from(fault: PrintFault) -> CommandFault {
        match fault {
            PrintFault::Memory => CommandFault::Memory,
            PrintFault::Write => CommandFault::Write,
        }
    }
}

impl From<AddFault> for CommandFault {
    ghost from_gives = { λ fault e. e ≡ fault_of_add fault };

    /// Gives the fault of a job whose batch is not added.
    fn from(fault: AddFault) -> CommandFault {
        match fault {
            AddFault::Memory => CommandFault::Memory,
            AddFault::Over { limit } => CommandFault::Over { limit },
        }
    }
}
