use worker_limit::WorkerLimit;

/// How many threads place events, find facts, and cut traces and let their names meet.
const WORKERS: u32 = 4;

/// Returns a runtime with the number of threads that may share one piece of work.
pub(crate) fn limit_on<R>(rt: &R) -> WorkerLimit<'_, R> {
    WorkerLimit {
        runtime: rt,
        most: WORKERS,
    }
}
