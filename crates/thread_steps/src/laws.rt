//! Laws over the definitions alone: each function does nothing, and its contract is the law.
ghost use Rattle.thread_steps.specs.StepKeys.{StepsDiffer};
ghost use Rattle.thread_steps.specs.ThreadCalls.{ThreadsAreOfCallsBelow, ThreadsKeepTests};
ghost use Rattle.thread_steps.specs.ThreadLaws.{CallsStandWithCallers, EachStandsOnce};
ghost use Rattle.thread_steps.specs.ThreadLaws.{HeadsStandOnce, NoOtherStands};

/// Among the steps of the threads of requests each of their calls starts once and ends once.
pub fn each_stands_once()
    ensures { EachStandsOnce }
{}

/// No other call stands among the steps of the threads of requests.
pub fn no_other_stands()
    ensures { NoOtherStands }
{}

/// In the thread that it begins a call starts once and ends once.
pub fn heads_stand_once()
    ensures { HeadsStandOnce }
{}

/// In a thread that another call begins, a call starts and ends as often as the caller that goes
/// into it, and if none does, never.
pub fn calls_stand_with_callers()
    ensures { CallsStandWithCallers }
{}

/// No two steps of a thread have one key, where its calls are told apart by their contexts.
pub fn steps_differ()
    ensures { StepsDiffer }
{}

/// The calls that stand in a thread are below the one that begins it.
pub fn threads_are_of_calls_below()
    ensures { ThreadsAreOfCallsBelow }
{}

/// A test that the call that begins a thread passes, and each call that a thread goes into if its
/// caller does, all calls that stand in the thread pass.
pub fn threads_keep_tests()
    ensures { ThreadsKeepTests }
{}
