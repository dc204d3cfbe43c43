ghost use Rattle.std.specs.Prelude.{◌≡◌};
ghost use Rattle.session.specs.declared.add_fault.AddFault.TheVariants.{Memory};
ghost use Rattle.session.specs.inner.AddFaults.{fault_of_names, fault_of_sheets};

use day_partitions::AddAllFault;
use segment_names::{NameFault, NameLimit};
use session_rules::Limit;
use std::alloc::AllocError;

/// Why a batch was not added.
#[derive(Clone, Copy, Debug, PartialEq, Eq)]
pub(crate) enum AddFault {
    /// Memory ran out.
    Memory,
    /// The add passes a limit.
    Over {
        /// The first limit that it passes.
        limit: Limit,
    },
}

impl From<AllocError> for AddFault {
    ghost from_gives = { λ _ e. e ≡ Memory };

    /// Converts an allocation failure to `Memory`.
    fn from(_error: AllocError) -> AddFault {
        AddFault::Memory
    }
}

impl From<NameFault> for AddFault {
    ghost from_gives = { λ fault e. e ≡ fault_of_names fault };

    /// Gives the fault of names that are not added.
    fn from(fault: NameFault) -> AddFault {
        match fault {
            NameFault::Memory => AddFault::Memory,
            NameFault::Over {
                limit: NameLimit::Names { count },
            } => AddFault::Over {
                limit: Limit::Names { count },
            },
            NameFault::Over {
                limit: NameLimit::Tasks { count },
            } => AddFault::Over {
                limit: Limit::Tasks { count },
            },
        }
    }
}

impl From<AddAllFault> for AddFault {
    ghost from_gives = { λ fault e. e ≡ fault_of_sheets fault };

    /// Gives the fault of sheets that are not added.
    fn from(fault: AddAllFault) -> AddFault {
        match fault {
            AddAllFault::Memory { .. } => AddFault::Memory,
            AddAllFault::TooManyDays { days, .. } => AddFault::Over {
                limit: Limit::Days { count: days },
            },
        }
    }
}
