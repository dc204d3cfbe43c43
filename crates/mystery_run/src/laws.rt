//! What holds of the definitions, each law a function that does nothing. Those on a run speak of any
//! outcome that `explained`, the clause of `run`, allows.
ghost use Rattle.std.specs.Prelude.{◌≡◌, ◌≤◌, ◌==◌, ◌⊎◌, ℕ, List, [], false, not};
ghost use Rattle.digest_merging.specs.declared.digest_limit.DigestLimit.{DigestLimit};
ghost use Rattle.mystery_io.specs.Honest.{AreHonest};
ghost use Rattle.mystery_io.specs.Input.{input_of};
ghost use Rattle.mystery_io.specs.ReadFaults.{OpensFirst};
ghost use Rattle.session_laws.specs.WatchLaws.{DifferInWatchNumbers};
ghost use Rattle.session_rules.specs.declared.limit.Limit.{Limit};
ghost use Rattle.mystery_run.specs.declared.outcome.Outcome.{Outcome};
ghost use Rattle.mystery_run.specs.declared.outcome.Outcome.TheVariants.{BadLine, Done, File, Memory};
ghost use Rattle.mystery_run.specs.declared.outcome.Outcome.TheVariants.{Over, OverGiven};
ghost use Rattle.mystery_run.specs.declared.outcome.Outcome.TheVariants.{Size, Write};
ghost use Rattle.mystery_run.specs.declared.reason.Reason.{Reason};
ghost use Rattle.mystery_run.specs.CommandLines.{all_files_of, files_of, is_in_grammar};
ghost use Rattle.mystery_run.specs.CommandLines.{preface_of};
ghost use Rattle.mystery_run.specs.Endings.{Ends, IsDecided};
ghost use Rattle.mystery_run.specs.Messages.{status_of};
ghost use Rattle.mystery_run.specs.Readings.{FailsAt, PassesSize};
ghost use Rattle.mystery_run.specs.Runs.{EndsAs, Explains, OfInputs, ReadsAll, Seen};

use digest_merging::laws::a_given_digest_is_one;
use mystery_io::laws::honest_files_give_contents;
use session_laws::laws::{jobs_end_in_one_way, only_watch_numbers_differ};

/// States that arguments, a preface and an input have one ending, where no memory, file or sink
/// fails.
pub fn an_input_has_one_ending()
    ensures { (words : List (List ℕ)) (preface input : List ℕ) (o p : Outcome)
        (text other : List ℕ) → IsDecided o → IsDecided p → Ends words preface input o text
        → Ends words preface input p other → o ≡ p }
{
    jobs_end_in_one_way();
    a_given_digest_is_one();
}

/// States that two texts of arguments, a preface, an input and an ending are one, or are texts
/// of the same parts that differ in watch numbers alone.
pub fn texts_are_alike()
    ensures { (words : List (List ℕ)) (preface input : List ℕ) (o : Outcome)
        (text other : List ℕ) → IsDecided o → Ends words preface input o text
        → Ends words preface input o other
        → (text ≡ other) ⊎ DifferInWatchNumbers text other }
{
    jobs_end_in_one_way();
    only_watch_numbers_differ();
    a_given_digest_is_one();
}

/// States that where each reading gave the content of its name, and a run read all its files, the
/// preface and the input that were read are those of these contents.
pub fn honest_files_give_the_inputs()
    ensures { (contents : List ℕ → List ℕ) (seen : Seen) → AreHonest contents seen.files.readings
        → ReadsAll seen → OfInputs seen.files seen.words (λ preface input.
        (preface ≡ input_of contents (preface_of seen.words))
        × (input ≡ input_of contents (files_of seen.words))) }
{
    honest_files_give_contents();
}

/// States that the status of a run is at most 6.
pub fn statuses_are_at_most_6()
    ensures { (o : Outcome) → status_of o ≤ 6 }
{}

/// States that a run ends with 2 exactly where its arguments are outside the grammar.
pub fn arguments_outside_the_grammar_end_with_2()
    ensures { (o : Outcome) (seen : Seen) → Explains o seen
        → (status_of o == 2) ≡ not (is_in_grammar seen.words) }
{}

/// States that arguments outside the grammar name no file, so that a run leaves the files as they
/// were.
pub fn arguments_outside_the_grammar_name_no_file()
    ensures { (words : List (List ℕ)) → is_in_grammar words ≡ false → all_files_of words ≡ [] }
{}

/// States that the outcome of a run that ends with 3 has the first bad line, and why it is bad.
pub fn with_3_the_first_bad_line_is_told()
    ensures { (o : Outcome) (seen : Seen) → Explains o seen → status_of o ≡ 3
        → (line : ℕ) × (why : Reason) × (o ≡ BadLine line why) × EndsAs (BadLine line why) seen }
{}

/// States that the outcome of a run that ends with 4 has the index of the file that failed.
pub fn with_4_the_failed_file_is_named()
    ensures { (o : Outcome) (seen : Seen) → Explains o seen → status_of o ≡ 4
        → (index : ℕ) × (o ≡ File index)
        × FailsAt seen.files (preface_of seen.words) (files_of seen.words) index }
{}

/// States that where a run ends with 6 the preface or the input is too big, and nothing was written;
/// or all files were read, what is given passes a limit, which is told, and nothing was written; or
/// an add passes one, which is told, and the whole text of the jobs before it was written.
pub fn with_6_a_limit_is_passed()
    ensures { (o : Outcome) (seen : Seen) → Explains o seen → status_of o ≡ 6
        → ((o ≡ Size) × OfInputs seen.files seen.words PassesSize
        × (seen.written_now ≡ seen.written_before))
        ⊎ ((limit : DigestLimit) × (o ≡ OverGiven limit) × ReadsAll seen
        × EndsAs (OverGiven limit) seen × (seen.written_now ≡ seen.written_before))
        ⊎ ((limit : Limit) × (o ≡ Over limit) × ReadsAll seen × EndsAs (Over limit) seen) }
{}

/// States that a run ends as its arguments and its input decide, where neither memory, a file nor
/// `out` failed: the completeness of its answers.
pub fn a_run_is_decided()
    ensures { (o : Outcome) (seen : Seen) → Explains o seen
        → OfInputs seen.files seen.words (λ preface input. (p : Outcome) (text : List ℕ)
        → IsDecided p → Ends seen.words preface input p text
        → (o ≡ p) ⊎ (status_of o ≡ 1) ⊎ (status_of o ≡ 4) ⊎ (status_of o ≡ 5)) }
{
    an_input_has_one_ending();
}

/// States that whatever its status a run opened exactly the first files, so many, in order, and read
/// each but the last to its end.
pub fn the_first_files_are_opened()
    ensures { (o : Outcome) (seen : Seen) → Explains o seen
        → (count : ℕ) × OpensFirst seen.files (all_files_of seen.words) count }
{}

/// States that a run that ends with 0, 3 or 5 read each of its files to its end.
pub fn with_0_3_and_5_all_is_read()
    ensures { (o : Outcome) (seen : Seen) → Explains o seen
        → (status_of o ≡ 0) ⊎ (status_of o ≡ 3) ⊎ (status_of o ≡ 5) → ReadsAll seen }
{}

/// States that with 0 the whole text was written.
pub fn with_0_the_whole_text_is_written()
    ensures { (o : Outcome) (seen : Seen) → Explains o seen → status_of o ≡ 0
        → EndsAs Done seen }
{}

/// States that with 1 nothing was written, or whole parts of the text and a prefix of the next.
pub fn with_1_a_prefix_is_written()
    ensures { (o : Outcome) (seen : Seen) → Explains o seen → status_of o ≡ 1
        → EndsAs Memory seen }
{}

/// States that with 5 whole parts of the text were written and a prefix of the next.
pub fn with_5_a_prefix_is_written()
    ensures { (o : Outcome) (seen : Seen) → Explains o seen → status_of o ≡ 5
        → EndsAs Write seen }
{}
