ghost use Rattle.std.specs.Prelude.{◌≡◌, ◌≤◌, length, option_map, IfSome};
ghost use Rattle.mystery_run.specs.CommandLines.{evidence_of_words, evidence_over};
ghost use Rattle.mystery_run.specs.CommandLines.{evidence_reduced, evidence_with_least, is_option};
ghost use Rattle.mystery_run.specs.inner.Actions.{IsInRange, file_count};
ghost use Rattle.mystery_run.specs.inner.ParsedLines.{action_of};

use crate::action::Action;
use crate::command_line::are_files;
use crate::numbers::number_between;
use evidence_rules::Choice;
use trace_types::Text;

/// The most traces that a relation may be asked to have.
const MAX_LEAST: u32 = 2_147_483_647;

/// Tells whether the argument is an option of `evidence`.
fn is_option(word: &Text) -> bool
    ensures { result ≡ is_option word.now }
{
    word.as_str() == "--least" || word.as_str() == "--reduced"
}

/// Finds the evidence that the arguments `FILE...` ask for. An option among them was given twice.
fn find_over(choice: Choice, words: &[Text]) -> Option<Action<'_>>
    ensures asked { option_map action_of result ≡ evidence_over choice words.now }
    ensures few { IfSome result (λ a. file_count (action_of a) ≤ length words.now) }
    ensures numbers { IfSome result (λ a. IsInRange (action_of a)) }
{
    match words {
        [first, ..] if !is_option(first) && are_files(words) => Some(Action::Evidence {
            choice,
            files: words,
        }),
        _ => None,
    }
}

/// Finds the evidence of relations that so many traces support, by the arguments
/// `[--reduced] FILE...`.
fn find_with_least(least: u32, words: &[Text]) -> Option<Action<'_>>
    ensures asked { option_map action_of result ≡ evidence_with_least least words.now }
    ensures few { IfSome result (λ a. file_count (action_of a) ≤ length words.now) }
    ensures numbers { IfSome result (λ a. IsInRange (action_of a)) }
{
    match words {
        [word, ..] if word.as_str() == "--reduced" => {
            let choice = Choice {
                least,
                reduced: true,
            };
            find_over(choice, &words[1..])
        }
        _ => {
            let choice = Choice {
                least,
                reduced: false,
            };
            find_over(choice, words)
        }
    }
}

/// Finds the evidence without implied orders, by the arguments `[--least N] FILE...`.
fn find_reduced(words: &[Text]) -> Option<Action<'_>>
    ensures asked { option_map action_of result ≡ evidence_reduced words.now }
    ensures few { IfSome result (λ a. file_count (action_of a) ≤ length words.now) }
    ensures numbers { IfSome result (λ a. IsInRange (action_of a)) }
{
    match words {
        [word, number, ..] if word.as_str() == "--least" => {
            let choice = Choice {
                least: number_between(1, MAX_LEAST, number.as_str())?,
                reduced: true,
            };
            find_over(choice, &words[2..])
        }
        _ => {
            let choice = Choice {
                least: 1,
                reduced: true,
            };
            find_over(choice, words)
        }
    }
}

/// Finds the evidence that the arguments `[--least N] [--reduced] FILE...` ask for, the two options
/// in either order. Without `--least` one trace supports a relation.
pub(crate) fn find_evidence(words: &[Text]) -> Option<Action<'_>>
    ensures asked { option_map action_of result ≡ evidence_of_words words.now }
    ensures few { IfSome result (λ a. file_count (action_of a) ≤ length words.now) }
    ensures numbers { IfSome result (λ a. IsInRange (action_of a)) }
{
    match words {
        [word, number, ..] if word.as_str() == "--least" => {
            let least = number_between(1, MAX_LEAST, number.as_str())?;
            find_with_least(least, &words[2..])
        }
        [word, ..] if word.as_str() == "--reduced" => find_reduced(&words[1..]),
        _ => {
            let choice = Choice {
                least: 1,
                reduced: false,
            };
            find_over(choice, words)
        }
    }
}
