use trace_types::{NameText, Text};

/// The relation of a claim, by the texts of its names or tasks.
#[derive(Debug, PartialEq, Eq, Drop)]
pub enum Matter {
    /// The first name happens before the second.
    Before {
        /// The name that ends.
        first: NameText,
        /// The name that starts after it.
        second: NameText,
    },
    /// The two names are mutually exclusive.
    Exclusive {
        /// The name that is printed first.
        first: NameText,
        /// The other name.
        second: NameText,
    },
    /// Data elements pass from the one task to the other, first in, first out.
    Pipe {
        /// The task that hands the elements on.
        from: Text,
        /// The task that takes them.
        to: Text,
    },
}
