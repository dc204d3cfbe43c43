ghost use Rattle.std.specs.Prelude.{◌≡◌, ◌<◌, ◌≤◌, ◌^◌, ◌+◌, ◌-◌, ◌∷◌, codes, length, slice_get, Some};
ghost use Rattle.std.specs.Prelude.{IfSome, option_map};
ghost use Rattle.std.specs.List.{count_by, list_all};
ghost use Rattle.import_run.specs.CommandLines.{are_files, call_after, call_of, call_of_form};
ghost use Rattle.import_run.specs.CommandLines.{call_of_words, call_with, file_name, file_names};
ghost use Rattle.import_run.specs.CommandLines.{form_named, grace_of, is_dash, is_file};
ghost use Rattle.import_run.specs.CommandLines.{nothing_asked};
ghost use Rattle.import_run.specs.inner.ParsedLines.{asked_view, call_of_line};
ghost use Rattle.import_run.specs.inner.OptionSteps.{TakesOption};

use crate::Form;
use crate::asked::Asked;
use span_files::SpanForm;
use span_text::whole_number;
use trace_types::Text;

/// The least number of arguments that are outside the grammar.
const TOO_MANY: usize = 1 << 30;

/// The most microseconds of grace: an hour.
const MOST_GRACE: u64 = 3_600_000_000;

/// The form of the input, what is asked of spans, and the arguments that name the files.
#[derive(Clone, Copy, Debug)]
pub(crate) struct CommandLine<'w> {
    /// The form.
    pub(crate) form: Form,
    /// What is asked of spans.
    pub(crate) asked: Asked<'w>,
    /// The files; none is standard input alone.
    pub(crate) files: &'w [Text],
}

/// Tells whether an argument may be a file: it is not empty and no option.
fn may_be_file(word: &[u8]) -> bool
    ensures { result ≡ is_file word.now }
{
    match word {
        [] => false,
        [b'-', b'-', ..] => false,
        _ => true,
    }
}

/// Tells whether an argument stands for standard input.
fn is_standard_input(word: &str) -> bool
    ensures { result ≡ is_dash word.now }
{
    word == "-"
}

/// Counts the arguments that stand for standard input.
fn count_standard_input(words: &[Text]) -> usize
    ensures count { result ≡ count_by is_dash words.now }
    ensures most { result ≤ length words.now }
{
    let mut count = 0;
    for word in words {
        if is_standard_input(word.as_str()) {
            count += 1;
        }
    }
    count
}

/// Tells whether all arguments may be files.
fn may_all_be_files(words: &[Text]) -> bool
    ensures { result ≡ list_all is_file words.now }
{
    words
        .iter()
        .all(|word| may_be_file(word.as_str().as_bytes()))
}

/// Finds the form with this name.
fn find_form(word: &str) -> Option<Form>
    ensures { result ≡ form_named word.now }
{
    match word {
        "events" => Some(Form::Events),
        "otlp" => Some(Form::Spans {
            form: SpanForm::Otlp,
        }),
        "jaeger" => Some(Form::Spans {
            form: SpanForm::Jaeger,
        }),
        "zipkin" => Some(Form::Spans {
            form: SpanForm::Zipkin,
        }),
        _ => None,
    }
}

/// Reads a number of microseconds, and gives it in nanoseconds.
fn read_grace(word: &str) -> Option<u64>
    ensures result { result ≡ grace_of word.now }
    ensures most { IfSome result (λ grace. grace < 2 ^ 42) }
{
    let micros = whole_number(word)?;
    if micros > MOST_GRACE {
        return None;
    }
    Some(micros * 1000)
}

/// An option that was read.
#[derive(Clone, Copy, Debug)]
struct TakenOption<'w> {
    /// How many arguments it has; 0 where there is none.
    count: usize,
    /// What is asked with it.
    asked: Asked<'w>,
}

/// Tells that there is no option.
fn take_none(asked: Asked<'_>) -> TakenOption<'_>
    ensures count { result.count ≡ 0 }
    ensures asked { asked_view result.asked ≡ asked_view asked.entry }
{
    TakenOption { count: 0, asked }
}

/// Reads what stands behind `--entry`.
fn take_entry<'w>(later: &'w [Text], asked: Asked<'w>) -> TakenOption<'w>
    ensures { TakesOption (asked_view asked.entry) (codes "--entry" ∷ later.now) (Some result) }
{
    let Some(value) = later.first() else {
        return take_none(asked);
    };
    TakenOption {
        count: 2,
        asked: Asked {
            operation: Some(value.as_str()),
            ..asked
        },
    }
}

/// Reads what stands behind `--grace`; `None` if that is no grace.
fn take_grace<'w>(later: &'w [Text], asked: Asked<'w>) -> Option<TakenOption<'w>>
    ensures { TakesOption (asked_view asked.entry) (codes "--grace" ∷ later.now) result }
{
    let Some(value) = later.first() else {
        return Some(take_none(asked));
    };
    let grace = read_grace(value.as_str())?;
    Some(TakenOption {
        count: 2,
        asked: Asked { grace, ..asked },
    })
}

/// Reads the option that the arguments begin with, if they begin with one; `None` if it is refused.
fn take_option<'w>(words: &'w [Text], asked: Asked<'w>) -> Option<TakenOption<'w>>
    ensures { TakesOption (asked_view asked.entry) words.now result }
{
    let Some((word, later)) = words.split_first() else {
        return Some(take_none(asked));
    };
    match word.as_str() {
        "--fold" => Some(TakenOption {
            count: 1,
            asked: Asked {
                fold: true,
                ..asked
            },
        }),
        "--entry" => Some(take_entry(later, asked)),
        "--grace" => take_grace(later, asked),
        _ => Some(take_none(asked)),
    }
}

/// Finds what a form and files ask for.
fn find_call<'w>(form: Form, asked: Asked<'w>, files: &'w [Text]) -> Option<CommandLine<'w>>
    ensures asked { option_map call_of_line result ≡ call_with form (asked_view asked.entry) files.now }
    ensures few { IfSome result (λ line. length line.files.now ≤ length files.now) }
{
    if !may_all_be_files(files) || count_standard_input(files) > 1 {
        return None;
    }
    Some(CommandLine { form, asked, files })
}

/// Finds what a form, options and files ask for.
fn find_asked<'w>(form: Form, words: &'w [Text]) -> Option<CommandLine<'w>>
    ensures asked { option_map call_of_line result ≡ call_after form nothing_asked words.now }
    ensures few { IfSome result (λ line. length line.files.now ≤ length words.now) }
{
    let mut asked = Asked::nothing();
    let mut taken = 0;
    'options: while taken < words.len() {
        let option = take_option(&words[taken..], asked)?;
        if option.count == 0 {
            break;
        }
        taken += option.count;
        asked = option.asked;
    }
    find_call(form, asked, &words[taken..])
}

/// Finds what the arguments behind a form ask for.
fn find_call_of(form: Form, words: &[Text]) -> Option<CommandLine<'_>>
    ensures asked { option_map call_of_line result ≡ call_of_form words.now form }
    ensures few { IfSome result (λ line. length line.files.now ≤ length words.now) }
{
    match form {
        Form::Events => find_call(form, Asked::nothing(), words),
        Form::Spans { .. } => find_asked(form, words),
    }
}

/// Finds what fewer than 2^30 arguments ask for.
fn find_few(words: &[Text]) -> Option<CommandLine<'_>>
    ensures asked { option_map call_of_line result ≡ call_of_words words.now }
    ensures few { IfSome result (λ line. length line.files.now ≤ length words.now) }
{
    match words {
        [form, ..] => find_call_of(find_form(form.as_str())?, &words[1..]),
        [] => None,
    }
}

/// Returns the name by which a file is opened.
fn name_of_file(word: &str) -> &str
    ensures { result.now ≡ file_name word.now }
{
    if is_standard_input(word) {
        "/dev/stdin"
    } else {
        word
    }
}

impl<'w> CommandLine<'w> {
    /// Reads the arguments `FORM [OPTION]... [FILE]...`; `None` if they are outside the grammar.
    pub(crate) fn parse(words: &'w [Text]) -> Option<CommandLine<'w>>
        ensures asked { option_map call_of_line result ≡ call_of words.now }
        ensures few { IfSome result (λ line. length line.files.now < 2 ^ 30) }
    {
        if words.len() >= TOO_MANY {
            return None;
        }
        find_few(words)
    }
}

/// Counts the files of an input.
pub(crate) fn count_files(files: &[Text]) -> usize
    ensures { result ≡ length (file_names files.now) }
{
    files.len().max(1)
}

/// Returns the name of the file at this index.
pub(crate) fn name_at(files: &[Text], index: usize) -> &str
    requires { index < length (file_names files.now) }
    ensures { slice_get (file_names files.now) index ≡ Some result.now }
{
    if files.is_empty() {
        return "/dev/stdin";
    }
    name_of_file(files[index].as_str())
}
