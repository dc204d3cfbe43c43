ghost use Rattle.std.specs.Prelude.{◌≡◌, ◌≤◌, ◌+◌, List, ℕ, length, OnOk, ⊤};
ghost use Rattle.mystery_io.specs.Input.{input_limit};
ghost use Rattle.mystery_io.specs.Intakes.{TakesMore};

use std::alloc::AllocError;

/// What takes the bytes of an input, a piece at a time.
pub trait Intake {
    /// These are all bytes that were taken.
    ghost took: { Self → List ℕ → Type 0 };

    /// How many bytes more it takes at least.
    ghost room: { Self → ℕ };

    /// What else its calls ask for, as that threads may share what it uses.
    ghost ready: { Self → Type 0 };

    /// Takes the next bytes. The only error is out of memory.
    fn take(&mut self, bytes: &[u8]) -> Result<(), AllocError>
        requires room { length bytes.now ≤ room self.old }
        requires ready { ready self.old }
        ensures taken { OnOk result (TakesMore took self.old bytes.now self.new) }
        ensures room { OnOk result (room self.old ≤ room self.new + length bytes.now) }
        ensures ready { OnOk result (ready self.new) };
}

impl Intake for Vec<u8> {
    ghost took = { λ list bytes. list.items ≡ bytes };

    ghost room = { λ _. input_limit };

    ghost ready = { λ _. ⊤ };

    /// Appends the bytes.
    fn take(&mut self, bytes: &[u8]) -> Result<(), AllocError> {
        self.extend_from_slice(bytes)
    }
}
