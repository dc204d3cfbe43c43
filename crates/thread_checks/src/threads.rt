use crate::rows::{Row, list_steps};
use span_names::Piece;
use std::alloc::AllocError;
use thread_steps::Step;

/// Makes a row of a call that another one makes.
fn called(caller: usize, start: u64, end: u64, forked: bool) -> Row {
    Row {
        caller: Some(caller),
        start,
        end,
        forked,
    }
}

/// Gives the join of a call in the first group, behind the part with this number unless it is the
/// last.
fn joins(call: usize, gap: Option<u64>) -> Step {
    Step::Joins {
        call,
        piece: Piece { number: 2, gap },
    }
}

#[test]
fn threads_go_into_calls_and_fork_parts(rt: HostRuntime) -> Result<(), AllocError> {
    let rows = [
        Row {
            caller: None,
            start: 0,
            end: 100,
            forked: false,
        },
        called(0, 10, 30, false),
        called(1, 12, 20, false),
        called(0, 40, 70, true),
        called(0, 50, 60, true),
        called(4, 52, 54, false),
        called(0, 70, 85, true),
    ];
    let whole = [
        Step::Starts { call: 0 },
        Step::Starts { call: 1 },
        Step::Starts { call: 2 },
        Step::Ends { call: 2 },
        Step::Ends { call: 1 },
        Step::Forks { call: 3 },
        joins(3, Some(1)),
        Step::Forks { call: 6 },
        joins(6, None),
        Step::Ends { call: 0 },
    ];
    let forked = [
        Step::Starts { call: 4 },
        Step::Starts { call: 5 },
        Step::Ends { call: 5 },
        Step::Ends { call: 4 },
    ];
    for (head, steps) in [(0, whole.as_slice()), (4, forked.as_slice())] {
        let listed = list_steps(rt.alloc(), &rows, head)?;
        assert_eq!(rt; listed.as_slice(), steps);
    }
    Ok(())
}
