//! Runs the workers of a run, each in a thread of its own, or ends them all in the caller's thread.
ghost use Rattle.std.specs.Prelude.{◌≡◌, ◌-◌, ◌≤◌, [], vec_capacity, vec_len};
ghost use Rattle.std.specs.List.{All, AllZip};
ghost use Rattle.mb_mailbox.specs.Runs.{ArePutsFirst, HasRoom, IsEnd, IsJobOf};

use super::jobs::{Done, Job, Shared};
use super::join::join_all;
use super::spawn::start_all;
use super::worker::RunWorker;
use super::workers::do_job;
use crate::gate::Gate;
use rand_core::Rng;
use std::alloc::Allocator;
use std::sync::{OnceToken, Wait};
use std::thread;
use std::thread::{Scope, Threads};

/// Starts all workers in order, and joins them. `begun` and `done` have room for all.
fn run_in<
    's,
    E: 's,
    A: Allocator + Drop + Send + Sync + 's,
    W: Threads + Wait,
    R: Rng + Send + Drop + 's,
    G: Gate + 's,
>(
    scope: &Scope<'s, E>,
    rt: &W,
    shared: &Shared<'s, A, G>,
    jobs: Vec<Job<R, A>, A>,
    begun: Vec<RunWorker<G, R, A>, A>,
    done: Vec<Done<A>, A>,
) -> Vec<Done<A>, A>
    requires belongs { All (IsJobOf shared.now.mailbox.now) jobs.items }
    requires few { shared.now.lanes.end ≤ shared.now.mailbox.now.cells.size.lanes }
    requires first { ArePutsFirst (shared.now.lanes.end - shared.now.lanes.from) jobs.items }
    requires begun { HasRoom (vec_len jobs) begun }
    requires done { HasRoom (vec_len jobs) done }
    ensures { AllZip (IsEnd (G.may_stop shared.now.gate.now) (G.may_pass shared.now.gate.now)
        R.stream shared.now.lanes) jobs.items result.items }
{
    let running = start_all(scope, rt, shared, jobs, begun);
    join_all(rt, running, done)
}

/// Runs a worker for each job, in a thread if one can be made, and joins all. `begun` and `done` have room for all.
pub(super) fn run<
    A: Allocator + Drop + Send + Sync,
    W: Threads + Wait + Sync,
    R: Rng + Send + Drop,
    G: Gate,
>(
    rt: &W,
    shared: &Shared<'_, A, G>,
    jobs: Vec<Job<R, A>, A>,
    begun: Vec<RunWorker<G, R, A>, A>,
    done: Vec<Done<A>, A>,
) -> Vec<Done<A>, A>
    requires belongs { All (IsJobOf shared.now.mailbox.now) jobs.items }
    requires few { shared.now.lanes.end ≤ shared.now.mailbox.now.cells.size.lanes }
    requires first { ArePutsFirst (shared.now.lanes.end - shared.now.lanes.from) jobs.items }
    requires begun { HasRoom (vec_len jobs) begun }
    requires done { HasRoom (vec_len jobs) done }
    ensures { AllZip (IsEnd (G.may_stop shared.now.gate.now) (G.may_pass shared.now.gate.now)
        R.stream shared.now.lanes) jobs.items result.items }
{
    let mailbox = shared.mailbox;
    let lanes = shared.lanes;
    let gate = shared.gate;
    let abort = shared.abort;
    thread::scope(
        thread::scope_env(),
        rt,
        |scope| -> Vec<Done<A>, A>
            requires belongs { All (IsJobOf mailbox.now) jobs.items }
            requires lanes { (lanes.end ≤ mailbox.now.cells.size.lanes)
                × ArePutsFirst (lanes.end - lanes.from) jobs.items }
            requires room { HasRoom (vec_len jobs) begun × HasRoom (vec_len jobs) done }
            ensures { AllZip (IsEnd (G.may_stop gate.entry.now) (G.may_pass gate.entry.now) R.stream
                lanes) jobs.items result.items }
        {
            let shared = Shared {
                mailbox,
                lanes,
                gate,
                abort,
            };
            run_in(scope, rt, &shared, jobs, begun, done)
        },
    )
}

/// Ends the workers of all jobs in the caller's thread, after the run was aborted. `done` has room for all.
pub(super) fn end_all<A: Allocator + Drop, R: Rng + Drop, G: Gate>(
    shared: &Shared<'_, A, G>,
    aborted: &OnceToken<'_, ()>,
    jobs: Vec<Job<R, A>, A>,
    mut done: Vec<Done<A>, A>,
) -> Vec<Done<A>, A>
    requires belongs { All (IsJobOf shared.now.mailbox.now) jobs.items }
    requires few { shared.now.lanes.end ≤ shared.now.mailbox.now.cells.size.lanes }
    requires aborted { aborted.now.of ≡ shared.now.abort.now.id }
    requires none { done.items ≡ [] }
    requires room { vec_len jobs ≤ vec_capacity done }
    ensures { AllZip (IsEnd (G.may_stop shared.now.gate.now) (G.may_pass shared.now.gate.now)
        R.stream shared.now.lanes) jobs.items result.items }
{
    let mailbox = shared.mailbox;
    let lanes = shared.lanes;
    let gate = shared.gate;
    let abort = shared.abort;
    for job in jobs {
        done.push_reserved(do_job(mailbox, job, lanes, gate, abort));
    }
    done
}
