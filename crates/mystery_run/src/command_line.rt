ghost use Rattle.std.specs.Prelude.{◌≡◌, ◌<◌, ◌≤◌, ◌^◌, length, option_map, None, IfSome};
ghost use Rattle.std.specs.Prelude.{IsSome};
ghost use Rattle.std.specs.List.{list_all};
ghost use Rattle.mystery_run.specs.CommandLines.{action_of_words, action_over, action_under};
ghost use Rattle.mystery_run.specs.CommandLines.{call_of, call_of_words, call_with};
ghost use Rattle.mystery_run.specs.CommandLines.{drill_of_words, is_filled, named_action};
ghost use Rattle.mystery_run.specs.CommandLines.{verify_of_words, view_alone, what_if_of_words};
ghost use Rattle.mystery_run.specs.inner.Actions.{IsInRange, call_file_count, file_count};
ghost use Rattle.mystery_run.specs.inner.GivenWords.{first_given};
ghost use Rattle.mystery_run.specs.inner.ParsedLines.{action_of, call_of_line};

use crate::action::Action;
use crate::change_words::ChangeWords;
use crate::evidence_words::find_evidence;
use crate::given_words::{find_form, first_given};
use crate::numbers::number_between;
use crate::view::View;
use trace_types::Text;

/// The default number of workers.
const WORKERS: u32 = 4;

/// The greatest number of workers that may be asked for.
const MAX_WORKERS: u32 = 64;

/// The greatest number that draws start from.
const MAX_NUMBER: u32 = 2_147_483_647;

/// The most traces of a drill.
const MAX_TRACES: u32 = 20_000;

/// What the arguments ask for.
#[derive(Clone, Copy, Debug)]
pub(crate) struct CommandLine<'w> {
    /// The number of workers, from 1 to 64.
    pub(crate) workers: u32,
    /// The arguments from the options `--given FILE` on, whose files are given.
    pub(crate) given: &'w [Text],
    /// What is to be done.
    pub(crate) action: Action<'w>,
}

/// Tells whether all arguments may be files.
pub(crate) fn are_files(words: &[Text]) -> bool
    ensures { result ≡ list_all is_filled words.now }
{
    words.iter().all(|word| !word.as_str().is_empty())
}

/// Finds the forecast that the arguments `TASK START END NUM DEN FILE...` ask for.
fn find_forecast(words: &[Text]) -> Option<Action<'_>>
    ensures asked { option_map action_of result ≡ what_if_of_words words.now }
    ensures few { IfSome result (λ a. file_count (action_of a) ≤ length words.now) }
    ensures numbers { IfSome result (λ a. IsInRange (action_of a)) }
{
    match words {
        [task, start, end, num, den, ..] => {
            let change = ChangeWords::parse(task, start, end, num.as_str(), den.as_str())?;
            let files = &words[5..];
            if files.is_empty() || !are_files(files) {
                return None;
            }
            Some(Action::WhatIf { change, files })
        }
        _ => None,
    }
}

/// Finds the check that the arguments `CERT FILE...` ask for.
fn find_check(words: &[Text]) -> Option<Action<'_>>
    ensures asked { option_map action_of result ≡ verify_of_words words.now }
    ensures few { IfSome result (λ a. file_count (action_of a) ≤ length words.now) }
    ensures numbers { IfSome result (λ a. IsInRange (action_of a)) }
{
    let [certificate, ..] = words else {
        return None;
    };
    let files = &words[1..];
    if certificate.as_str().is_empty() || files.is_empty() || !are_files(files) {
        return None;
    }
    Some(Action::Verify { certificate, files })
}

/// Finds the drill that the arguments `NUMBER TRACES` ask for.
fn find_drill(words: &[Text]) -> Option<Action<'static>>
    ensures asked { option_map action_of result ≡ drill_of_words words.now }
    ensures few { IfSome result (λ a. file_count (action_of a) ≤ length words.now) }
    ensures numbers { IfSome result (λ a. IsInRange (action_of a)) }
{
    match words {
        [number, traces] => {
            let number = number_between(0, MAX_NUMBER, number.as_str())?;
            let traces = number_between(1, MAX_TRACES, traces.as_str())?;
            Some(Action::Drill { number, traces })
        }
        _ => None,
    }
}

/// Finds what a command with this name over these files asks for.
fn find_over_files<'w>(name: &str, files: &'w [Text]) -> Option<Action<'w>>
    ensures asked { option_map action_of result ≡ action_over name.now files.now }
    ensures few { IfSome result (λ a. file_count (action_of a) ≤ length files.now) }
    ensures numbers { IfSome result (λ a. IsInRange (action_of a)) }
{
    match files {
        [file] if name == "replay" && !file.as_str().is_empty() => Some(Action::Replay { file }),
        [_, ..] if name == "session" && are_files(files) => Some(Action::Session { files }),
        [_, ..] if name == "tail" && are_files(files) => Some(Action::Tail { files }),
        [_, ..] if name == "why" && are_files(files) => Some(Action::Why { files }),
        [_, ..] if are_files(files) => {
            let view = View::parse(name)?;
            Some(Action::View { view, files })
        }
        _ => None,
    }
}

/// Finds what the command with this name and the arguments after it asks for.
fn find_named<'w>(name: &str, words: &'w [Text]) -> Option<Action<'w>>
    ensures asked { option_map action_of result ≡ named_action name.now words.now }
    ensures few { IfSome result (λ a. file_count (action_of a) ≤ length words.now) }
    ensures numbers { IfSome result (λ a. IsInRange (action_of a)) }
{
    match name {
        "whatif" => find_forecast(words),
        "verify" => find_check(words),
        "evidence" => find_evidence(words),
        "drill" => find_drill(words),
        _ => find_over_files(name, words),
    }
}

/// Finds what a command with its arguments asks for.
fn find_action(words: &[Text]) -> Option<Action<'_>>
    ensures asked { option_map action_of result ≡ action_of_words words.now }
    ensures few { IfSome result (λ a. file_count (action_of a) ≤ length words.now) }
    ensures numbers { IfSome result (λ a. IsInRange (action_of a)) }
{
    match words {
        [name, ..] => find_named(name.as_str(), &words[1..]),
        [] => None,
    }
}

/// Finds the view with this name that needs no file where something is given.
fn find_alone(name: &str) -> Option<Action<'static>>
    ensures asked { option_map action_of result ≡ view_alone name.now }
    ensures few { IfSome result (λ a. file_count (action_of a) ≤ 0) }
    ensures numbers { IfSome result (λ a. IsInRange (action_of a)) }
{
    let view = match name {
        "model" => View::Model,
        "summarize" => View::Summarize,
        _ => return None,
    };
    Some(Action::View { view, files: &[] })
}

/// Finds what a command with its arguments asks for where something is given.
fn find_under(words: &[Text]) -> Option<Action<'_>>
    ensures asked { option_map action_of result ≡ action_under words.now }
    ensures few { IfSome result (λ a. file_count (action_of a) ≤ length words.now) }
    ensures numbers { IfSome result (λ a. IsInRange (action_of a)) }
{
    match words {
        [name] => find_alone(name.as_str()),
        _ => {
            let action = find_action(words)?;
            if !action.is_judged() {
                return None;
            }
            Some(action)
        }
    }
}

/// Finds the call of so many workers that these arguments ask for, which give nothing.
fn find_plain_call(workers: u32, words: &[Text]) -> Option<CommandLine<'_>>
    requires { first_given words.now ≡ None }
    ensures call { option_map call_of_line result ≡ call_with workers words.now }
    ensures workers { IfSome result (λ line. line.workers ≡ workers) }
    ensures few { IfSome result (λ line. call_file_count (call_of_line line) ≤ length words.now) }
    ensures numbers { IfSome result (λ line. IsInRange (action_of line.action)) }
{
    let action = find_action(words)?;
    Some(CommandLine {
        workers,
        given: words,
        action,
    })
}

/// Finds the call of so many workers that these arguments ask for, in which files are given.
fn find_call_under(workers: u32, words: &[Text]) -> Option<CommandLine<'_>>
    requires { IsSome (first_given words.now) }
    ensures call { option_map call_of_line result ≡ call_with workers words.now }
    ensures workers { IfSome result (λ line. line.workers ≡ workers) }
    ensures few { IfSome result (λ line. call_file_count (call_of_line line) ≤ length words.now) }
    ensures numbers { IfSome result (λ line. IsInRange (action_of line.action)) }
{
    let form = find_form(words)?;
    let action = find_under(form)?;
    Some(CommandLine {
        workers,
        given: words,
        action,
    })
}

/// Finds the call of so many workers that these arguments ask for.
fn find_call(workers: u32, words: &[Text]) -> Option<CommandLine<'_>>
    ensures call { option_map call_of_line result ≡ call_with workers words.now }
    ensures workers { IfSome result (λ line. line.workers ≡ workers) }
    ensures few { IfSome result (λ line. call_file_count (call_of_line line) ≤ length words.now) }
    ensures numbers { IfSome result (λ line. IsInRange (action_of line.action)) }
{
    match first_given(words) {
        None => find_plain_call(workers, words),
        Some(_) => find_call_under(workers, words),
    }
}

impl<'w> CommandLine<'w> {
    /// Reads the arguments `[--workers N] [--given FILE]... COMMAND`, where COMMAND is
    /// `session FILE...`, a view as `model FILE...`, `whatif TASK START END NUM DEN FILE...`,
    /// `tail FILE...`, `why FILE...`, `verify CERT FILE...`,
    /// `evidence [--least N] [--reduced] FILE...`, `drill NUMBER TRACES` or `replay FILE`; `None`
    /// if they are outside the grammar.
    pub(crate) fn parse(words: &'w [Text]) -> Option<CommandLine<'w>>
        ensures call { option_map call_of_line result ≡ call_of words.now }
        ensures workers { IfSome result (λ line. 0 < line.workers) }
        ensures most { IfSome result (λ line. line.workers ≤ 64) }
        ensures few { IfSome result (λ line. call_file_count (call_of_line line) < 2 ^ 32) }
        ensures numbers { IfSome result (λ line. IsInRange (action_of line.action)) }
    {
        if u32::try_from(words.len()).is_err() {
            return None;
        }
        Self::parse_few(words)
    }

    /// Reads fewer than 2^32 arguments.
    fn parse_few(words: &'w [Text]) -> Option<CommandLine<'w>>
        ensures call { option_map call_of_line result ≡ call_of_words words.now }
        ensures workers { IfSome result (λ line. 0 < line.workers) }
        ensures most { IfSome result (λ line. line.workers ≤ 64) }
        ensures few { IfSome result (λ line.
            call_file_count (call_of_line line) ≤ length words.now) }
        ensures numbers { IfSome result (λ line. IsInRange (action_of line.action)) }
    {
        match words {
            [first, number, ..] if first.as_str() == "--workers" => {
                let workers = number_between(1, MAX_WORKERS, number.as_str())?;
                find_call(workers, &words[2..])
            }
            [_, _, ..] => find_call(WORKERS, words),
            _ => find_call(WORKERS, words),
        }
    }
}
