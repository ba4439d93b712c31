//! The ends of the workers, in the order of their jobs.
ghost use Rattle.std.specs.Prelude.{◌≡◌, ◌≤◌, [], vec_capacity, vec_len};
ghost use Rattle.std.specs.List.{AllZip};
ghost use Rattle.mb_mailbox.specs.Begun.{Keeps};

use super::worker::Worker;
use std::alloc::Allocator;
use std::thread::{Promise, Threads};

/// The end of a worker. If it has a thread, the thread is joined.
fn join<W: Threads, D: Drop, P: Promise<D>>(rt: &W, one: Worker<D, P>) -> D
    ensures { Keeps P.kept_by one result }
{
    match one {
        Worker::Spawned(handle) => handle.join(rt),
        Worker::Inline(end) => end,
    }
}

/// The ends of all these workers, in their order, after their threads are joined. `done` has room for all.
pub(super) fn join_all<W: Threads, A: Allocator + Drop, D: Drop, P: Promise<D>>(
    rt: &W,
    begun: Vec<Worker<D, P>, A>,
    mut done: Vec<D, A>,
) -> Vec<D, A>
    requires none { done.items ≡ [] }
    requires room { vec_len begun ≤ vec_capacity done }
    ensures { AllZip (Keeps P.kept_by) begun.items result.items }
{
    for one in begun {
        done.push_reserved(join(rt, one));
    }
    done
}
