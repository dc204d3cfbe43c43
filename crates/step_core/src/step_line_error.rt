use std::alloc::{AllocError, AllocFailed};

/// Why a file of steps was not read.
#[derive(Clone, Copy, Debug, PartialEq, Eq)]
pub enum StepLineError {
    /// Out of memory.
    Memory,
    /// The file has a line that is outside the form: the first one.
    Bad {
        /// Its number, from 1 over the whole file.
        line: u32,
    },
}

impl From<AllocError> for StepLineError {
    ghost use Rattle.std.specs.Prelude.{◌≡◌};
    ghost use Rattle.step_core.specs.declared.step_line_error.StepLineError.TheVariants.{Memory};

    ghost from_gives = { λ _ e. e ≡ Memory };

    /// Gives the error of a call that is out of memory.
    fn from(_: AllocError) -> Self {
        StepLineError::Memory
    }
}

impl<T: Drop> From<AllocFailed<T>> for StepLineError {
    ghost use Rattle.std.specs.Prelude.{◌≡◌};
    ghost use Rattle.step_core.specs.declared.step_line_error.StepLineError.TheVariants.{Memory};

    ghost from_gives = { λ _ e. e ≡ Memory };

    /// Gives the error of a call that is out of memory.
    fn from(_: AllocFailed<T>) -> Self {
        StepLineError::Memory
    }
}
