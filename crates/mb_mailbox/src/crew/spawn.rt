//! Starts the workers of a run, each in a thread of its own if one can be made.
ghost use Rattle.std.specs.Prelude.{◌≡◌, ◌-◌, ◌≤◌, [], ◌∷◌, vec_capacity, vec_len};
ghost use Rattle.std.specs.List.{All, AllZip};
ghost use Rattle.mb_mailbox.specs.Begun.{IsAborted, Promises};
ghost use Rattle.mb_mailbox.specs.Runs.{ArePutsFirst, IsEnd, IsJobOf, with_abort};

use super::jobs::{Done, Job, Pledge, PollDone, PutDone, Shared};
use super::worker::{RunWorker, Worker};
use super::workers::do_job;
use crate::gate::Gate;
use rand_core::Rng;
use std::alloc::Allocator;
use std::snapshot::Snapshot;
use std::sync::{OnceToken, Wait};
use std::thread::Scope;

/// This end, changed to say that the run is aborted. A worker that got no thread has such an end.
fn without_thread<A: Allocator + Drop>(end: Done<A>) -> Done<A>
    ensures { result ≡ with_abort end }
{
    match end {
        Done::Put(put) => Done::Put(PutDone {
            aborted: true,
            ..put
        }),
        Done::Poll(poll) => Done::Poll(PollDone {
            aborted: true,
            ..poll
        }),
    }
}

/// Starts a worker's thread. If no thread can be made, the run is aborted, and the worker ends here and makes no call.
/// A consumer's worker comes after those of all producers. `begun` has the workers before this one.
fn start<
    's,
    E: 's,
    A: Allocator + Drop + Send + Sync + 's,
    W: Wait,
    R: Rng + Send + Drop + 's,
    G: Gate + 's,
>(
    scope: &Scope<'s, E>,
    rt: &W,
    shared: &Shared<'s, A, G>,
    job: Job<R, A>,
    begun: &Vec<RunWorker<G, R, A>, A>,
) -> (RunWorker<G, R, A>, Option<OnceToken<'s, ()>>)
    requires belongs { IsJobOf shared.now.mailbox.now job }
    requires few { shared.now.lanes.end ≤ shared.now.mailbox.now.cells.size.lanes }
    requires after { ArePutsFirst
        (shared.now.lanes.end - shared.now.lanes.from - vec_len begun.now) (job ∷ []) }
    ensures promised { Promises G.may_stop G.may_pass R.stream shared.now.gate.now shared.now.lanes
        job result.0 }
    ensures aborted { IsAborted (λ t. t.of) result.0 result.1 shared.now.abort.now.id }
{
    let mailbox = shared.mailbox;
    let lanes = shared.lanes;
    let gate = shared.gate;
    let abort = shared.abort;
    let promise = Pledge {
        job: Snapshot::of(&job),
        lanes,
        gate: Snapshot::of(gate),
    };
    let body = move || -> Done<A>
        requires belongs { IsJobOf mailbox.now job }
        requires few { lanes.end ≤ mailbox.now.cells.size.lanes }
        ensures { IsEnd (G.may_stop gate.entry.now) (G.may_pass gate.entry.now) R.stream lanes job
            result }
    { do_job(mailbox, job, lanes, gate, abort) };
    match scope.spawn_with(promise, body) {
        Ok(handle) => (Worker::Spawned(handle), None),
        Err(refused) => {
            let token = abort.init(rt, || ());
            (
                Worker::Inline(without_thread((refused.value)())),
                Some(token),
            )
        }
    }
}

/// Starts a worker for each job, in order, and adds it to `begun`, which has room for all.
pub(super) fn start_all<
    's,
    E: 's,
    A: Allocator + Drop + Send + Sync + 's,
    W: Wait,
    R: Rng + Send + Drop + 's,
    G: Gate + 's,
>(
    scope: &Scope<'s, E>,
    rt: &W,
    shared: &Shared<'s, A, G>,
    jobs: Vec<Job<R, A>, A>,
    mut begun: Vec<RunWorker<G, R, A>, A>,
) -> Vec<RunWorker<G, R, A>, A>
    requires belongs { All (IsJobOf shared.now.mailbox.now) jobs.items }
    requires few { shared.now.lanes.end ≤ shared.now.mailbox.now.cells.size.lanes }
    requires puts_first { ArePutsFirst (shared.now.lanes.end - shared.now.lanes.from) jobs.items }
    requires none { begun.items ≡ [] }
    requires room { vec_len jobs ≤ vec_capacity begun }
    ensures { AllZip (Promises G.may_stop G.may_pass R.stream shared.now.gate.now shared.now.lanes)
        jobs.items result.items }
{
    for job in jobs {
        let (worker, _) = start(scope, rt, shared, job, &begun);
        begun.push_reserved(worker);
    }
    begun
}
