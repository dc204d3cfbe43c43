//! What follows from the definitions alone. Each law is the contract of a function that does
//! nothing.
ghost use Rattle.std.specs.Prelude.{◌≡◌, ◌↔◌, ◌<◌, ◌^◌, ◌&&◌, ℕ, List, Some, None, decimal};
ghost use Rattle.std.specs.Prelude.{if◌then◌else◌, nat_lt};
ghost use Rattle.std.specs.Str.Parse.{digits_value};
ghost use Rattle.step_core.specs.Numbers.{plain_number};
ghost use Rattle.step_core.specs.PlainDigits.{is_plain};

/// A word is the number in plain digits that is printed just so.
pub fn a_plain_number_is_as_printed()
    ensures { (n : ℕ) (word : List ℕ) → n < 2 ^ 32
        → (plain_number word ≡ Some n) ↔ (decimal n ≡ word) }
{}

/// A word has a number exactly where it is plain digits: the value of the digits, if it fits 32 bits.
pub fn a_plain_number_is_plain_digits()
    ensures { (word : List ℕ) → plain_number word ≡
        (if is_plain word && nat_lt (digits_value 10 word) (2 ^ 32)
        then Some (digits_value 10 word) else None) }
{}
