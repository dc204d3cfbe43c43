//! Laws over the definitions alone: each function does nothing, and its contract is the law.
ghost use Rattle.std.specs.Prelude.{ℕ};
ghost use Rattle.std.specs.declared.cmp.Ordering.{Ordering};
ghost use Rattle.trace_types.specs.NameOrder.{name_cmp};
ghost use Rattle.trace_types.specs.Parts.{Parts};
ghost use Rattle.digest_facts.specs.Coherence.{MergedIsCoherent, DigestIsCoherent};
ghost use Rattle.digest_facts.specs.Tables.{TablesTellApart};
ghost use Rattle.digest_facts.specs.Texts.{DigestTextsTellApart, TextsTellApart};
ghost use Rattle.digest_facts.specs.DigestLaws.{ExclusionsAreThoseOfAll, RenamedTellAlike};
ghost use Rattle.digest_facts.specs.DigestLaws.{DigestTellsOfAll};
ghost use Rattle.digest_facts.specs.MergeLaws.{HasOneDigest, IsFormed, MergedIsDigest};
ghost use Rattle.digest_facts.specs.MergeLaws.{MergesFreely, NothingIsDigest};
ghost use Rattle.digest_facts.specs.SplitLaws.{TracesOfParts};
ghost use Rattle.digest_facts.specs.Digests.{TellsApart};

use trace_types::laws::renamed_traces_leave_alike;

/// States that digests in form are a commutative monoid.
pub fn digests_merge_freely<N, T>()
    ensures { (by_name : N → N → Ordering) (by_task : T → T → Ordering) → TellsApart by_name
        → TellsApart by_task → MergesFreely by_name by_task }
{}

/// States that a digest of traces is in form, and that traces have one digest, in whatever order
/// they stand.
pub fn a_digest_is_one<A, S, N, T, E>()
    ensures formed { (p : Parts A S N T E) (day : A → ℕ) (by_name : N → N → Ordering)
        (by_task : T → T → Ordering) → IsFormed p day by_name by_task }
    ensures one { (p : Parts A S N T E) (day : A → ℕ) (by_name : N → N → Ordering)
        (by_task : T → T → Ordering) → TellsApart by_name → TellsApart by_task
        → HasOneDigest p day by_name by_task }
{}

/// States that the empty digest is that of no trace, and the merge of two digests that of the
/// traces of both, one list after the other.
pub fn a_merge_is_of_both<A, S, N, T, E>()
    ensures none { (p : Parts A S N T E) (day : A → ℕ) (by_name : N → N → Ordering)
        (by_task : T → T → Ordering) → NothingIsDigest p day by_name by_task }
    ensures both { (p : Parts A S N T E) (day : A → ℕ) (by_name : N → N → Ordering)
        (by_task : T → T → Ordering) → TellsApart by_name → TellsApart by_task
        → MergedIsDigest p day by_name by_task }
{}

/// States that the digest of past traces and traces at hand tell the model of all traces, and which
/// edges their graphs have.
pub fn a_digest_tells_of_all<A, S, N, T, E>()
    ensures { (p : Parts A S N T E) (day : A → ℕ) (by_name : N → N → Ordering)
        (by_task : T → T → Ordering) → TellsApart by_name → DigestTellsOfAll p day by_name by_task }
{}

/// States that a mutual exclusion survives what a digest of past traces and the traces at hand tell
/// exactly where it survives all traces.
pub fn exclusions_are_those_of_all<A, S, N, T, E>()
    ensures { (p : Parts A S N T E) → ExclusionsAreThoseOfAll p }
{}

/// States that digests of traces and of the same traces under other names tell alike.
pub fn renamed_traces_tell_alike<A, S, N, T, E, B, X, M, U, F>()
    ensures { (p : Parts A S N T E) (q : Parts B X M U F) → RenamedTellAlike p q }
{
    renamed_traces_leave_alike::<A, S, N, T, E, B, X, M, U, F>();
}

/// States that a digest of traces is coherent, and so is the merge of two that are.
pub fn digests_are_coherent<A, S, N, T, E>()
    ensures digest { (p : Parts A S N T E) → DigestIsCoherent p }
    ensures merged { (by_name : N → N → Ordering) (by_task : T → T → Ordering)
        → TellsApart by_name → TellsApart by_task → MergedIsCoherent by_name by_task }
{}

/// States that a table is that of one digest.
pub fn tables_tell_apart<N, T>()
    ensures { (by_name : N → N → Ordering) (by_task : T → T → Ordering) → TellsApart by_name
        → TellsApart by_task → TablesTellApart by_name by_task }
{}

/// States that a text is that of one table.
pub fn texts_tell_apart()
    ensures { TextsTellApart }
{}

/// States that a text is that of one digest.
pub fn digest_texts_tell_apart()
    ensures { DigestTextsTellApart }
{}

/// States that where no request has events in both parts of a batch, its traces are those of the
/// parts.
pub fn traces_are_those_of_parts()
    ensures { TracesOfParts }
{}

/// States that names tell apart.
pub fn names_tell_apart()
    ensures { TellsApart name_cmp }
{}
