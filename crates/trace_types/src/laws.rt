//! Laws over the definitions alone: each function does nothing, and its contract is the law.
ghost use Rattle.std.specs.Prelude.{◌≡◌, ◌≢◌, ◌↔◌, ℕ, List, AllPairs, Contains, slice_get, Some};
ghost use Rattle.std.specs.List.{enumerate_from};
ghost use Rattle.std.specs.Cmp.{IsTotalOrder};
ghost use Rattle.std.specs.declared.cmp.Ordering.{Ordering};
ghost use Rattle.std.specs.declared.cmp.Ordering.TheVariants.{Less};
ghost use Rattle.trace_types.specs.declared.latest_time.TheConstants.{LATEST_TIME};
ghost use Rattle.trace_types.specs.declared.latest_time.TheConstants.{LATEST_TIME_IN_MICROSECONDS};
ghost use Rattle.trace_types.specs.Listing.{CountsDistinct};
ghost use Rattle.trace_types.specs.NameOrder.{name_cmp, pair_cmp};
ghost use Rattle.trace_types.specs.Parts.{Parts};
ghost use Rattle.trace_types.specs.Pipelines.{RefutesUnshared};
ghost use Rattle.trace_types.specs.Refuting.{RefutesBefore, RefutesExclusive, RefutesApart};
ghost use Rattle.trace_types.specs.Relations.{ExcludesUnordered};
ghost use Rattle.trace_types.specs.Renaming.{IsOneToOne, Agree, IsTraceRenamed, AreRenamed};
ghost use Rattle.trace_types.specs.Renaming.{RefuteAlike, LeaveAlike};
ghost use Rattle.trace_types.specs.SegmentLists.{NamesDiffer};
ghost use Rattle.trace_types.specs.Surviving.{Survives};
ghost use Rattle.trace_types.specs.Times.{latest_time, latest_time_in_microseconds};

/// The constants are the latest time of the definitions.
pub fn latest_time_is_as_defined()
    ensures nanoseconds { LATEST_TIME ≡ latest_time }
    ensures microseconds { LATEST_TIME_IN_MICROSECONDS ≡ latest_time_in_microseconds }
{}

/// One trace refutes that two names are mutually exclusive exactly where it refutes both orders.
pub fn exclusive_is_refuted_by_both_orders<A, S, N, T, E>()
    ensures { (p : Parts A S N T E) (a b : N) (trace : A) → NamesDiffer p.name (p.segments trace)
        → RefutesExclusive p a b trace ↔ (RefutesBefore p a b trace × RefutesBefore p b a trace) }
{}

/// Where one order of two names survives a list of traces, so does their mutual exclusion, whatever
/// grace each trace has.
pub fn exclusive_survives_with_before<A, S, N, T, E>()
    ensures { (p : Parts A S N T E) (a b : N) (traces : List A)
        → Survives (RefutesBefore p a b) traces → Survives (RefutesExclusive p a b) traces }
{}

/// Mutual exclusion, being apart and sharing no element do not depend on the order of the two.
pub fn relations_are_symmetric<A, S, N, T, E>()
    ensures exclusive { (p : Parts A S N T E) (a b : N) (trace : A)
        → RefutesExclusive p a b trace ↔ RefutesExclusive p b a trace }
    ensures apart { (p : Parts A S N T E) (a b : N) (trace : A)
        → RefutesApart p a b trace ↔ RefutesApart p b a trace }
    ensures unshared { (p : Parts A S N T E) (t u : T) (trace : A)
        → RefutesUnshared p t u trace ↔ RefutesUnshared p u t trace }
{}

/// A trace refutes the same under other names, where names, tasks and elements are matched one to
/// one.
pub fn renamed_trace_refutes_alike<A, S, N, T, E, B, X, M, U, F>()
    ensures { (p : Parts A S N T E) (q : Parts B X M U F) (names : List (N × M))
        (tasks : List (T × U)) (trace : A) (other : B) → IsOneToOne names → IsOneToOne tasks
        → IsTraceRenamed p q names tasks trace other → RefuteAlike p q names tasks trace other }
{}

/// So traces leave the same relations under other names, each trace with its own grace. Name order
/// is given from outside.
pub fn renamed_traces_leave_alike<A, S, N, T, E, B, X, M, U, F>()
    ensures relations { (p : Parts A S N T E) (q : Parts B X M U F) (names : List (N × M))
        (tasks : List (T × U)) (traces : List A) (others : List B) → IsOneToOne names
        → IsOneToOne tasks → AreRenamed p q names tasks traces others
        → LeaveAlike p q names tasks traces others }
    ensures unordered { (p : Parts A S N T E) (q : Parts B X M U F) (names : List (N × M))
        (tasks : List (T × U)) (traces : List A) (others : List B) → IsOneToOne names
        → IsOneToOne tasks → AreRenamed p q names tasks traces others
        → (cmp : N → N → Ordering) (other_cmp : M → M → Ordering)
        → Agree names (λ a b. cmp a b ≡ Less) (λ c d. other_cmp c d ≡ Less)
        → Agree names (ExcludesUnordered p cmp traces) (ExcludesUnordered q other_cmp others) }
{}

/// Where nothing stands twice in a list, numbering it from 0 is one to one, and a number is matched
/// with what stands at that index.
pub fn numbering_is_one_to_one<X>()
    ensures one_to_one { (xs : List X) → AllPairs (λ x y. x ≢ y) xs
        → IsOneToOne (enumerate_from 0 xs) }
    ensures matched { (xs : List X) (k : ℕ) (x : X)
        → Contains (enumerate_from 0 xs) (k, x) ↔ (slice_get xs k ≡ Some x) }
{}

/// Names, and pairs of what is ordered, are totally ordered.
pub fn names_are_totally_ordered<N>()
    ensures names { IsTotalOrder name_cmp }
    ensures pairs { (cmp : N → N → Ordering) → IsTotalOrder cmp → IsTotalOrder (pair_cmp cmp) }
{}

/// Elements are listed in rising order in one way, and a list has one number of different elements.
pub fn a_list_is_told_in_one_way<X>()
    ensures listed { (cmp : X → X → Ordering) → IsTotalOrder cmp → (xs ys : List X)
        → AllPairs (λ x y. cmp x y ≡ Less) xs → AllPairs (λ x y. cmp x y ≡ Less) ys
        → ((x : X) → Contains xs x ↔ Contains ys x) → xs ≡ ys }
    ensures counted { (n m : ℕ) (xs : List X) → CountsDistinct n xs → CountsDistinct m xs → n ≡ m }
{}
