//! The job of a worker, what the worker's thread promises, and the end that it gives back.
ghost use Rattle.std.specs.Prelude.{◌≡◌, ◌<◌, ◌≤◌, [], false};
ghost use Rattle.mb_mailbox.specs.Producers.{is_over};

use crate::consumer::Consumer;
use crate::gate::Gate;
use crate::mailbox::Mailbox;
use crate::producer::Producer;
use rand_core::Rng;
use std::alloc::Allocator;
use std::snapshot::Snapshot;
use std::sync::OnceLock;
use std::thread::Promise;

/// The lanes from `from` on and below `end`, and how many accesses a poll of one of them makes at most.
#[derive(Clone, Copy)]
pub(crate) struct Lanes {
    pub(crate) from: u32,
    pub(crate) end: u32,
    pub(crate) budget: u64,
    pub(crate) ghost ordered: { from ≤ end },
    pub(crate) ghost few: { end ≤ 16 },
    pub(crate) ghost able: { 0 < budget },
}

/// What all workers of a run share: the mailbox, the lanes, the gate, and a lock that is set once the run is aborted.
#[derive(Drop)]
pub(crate) struct Shared<'s, A: Allocator + Drop, G: Gate> {
    pub(crate) mailbox: &'s Mailbox<A>,
    pub(crate) lanes: Lanes,
    pub(crate) gate: &'s G,
    pub(crate) abort: &'s OnceLock<()>,
}

/// A producer that has put nothing and has not ended its lane, and the list that it is to put.
#[derive(Drop)]
pub(crate) struct PutJob<A: Allocator + Drop> {
    pub(crate) producer: Producer<A>,
    pub(crate) list: Vec<u64, A>,
    pub(crate) ghost fresh: { producer.items ≡ [] },
    pub(crate) ghost begun: { is_over producer ≡ false },
}

/// A consumer that is to poll, and its source of random words.
#[derive(Drop)]
pub(crate) struct PollJob<R: Drop, A: Allocator + Drop> {
    pub(crate) consumer: Consumer<A>,
    pub(crate) rng: R,
}

/// What a worker is to do.
#[derive(Drop)]
pub(crate) enum Job<R: Drop, A: Allocator + Drop> {
    Put(PutJob<A>),
    Poll(PollJob<R, A>),
}

/// The end of a producer's worker. The producer has ended its lane. `full` says how many items of its list it did not
/// put because no cell was left. `stopped` says whether it was stopped before the end of its list. `aborted` is true if
/// it was stopped because the run is aborted, or if the worker got no thread.
#[derive(Drop)]
pub(crate) struct PutDone<A: Allocator + Drop> {
    pub(crate) producer: Producer<A>,
    pub(crate) full: u64,
    pub(crate) stopped: bool,
    pub(crate) aborted: bool,
}

/// The end of a consumer's worker. `stopped` says whether it was stopped before it met the end mark of each lane.
/// `aborted` is true if it was stopped because the run is aborted, or if the worker got no thread.
#[derive(Drop)]
pub(crate) struct PollDone<A: Allocator + Drop> {
    pub(crate) consumer: Consumer<A>,
    pub(crate) stopped: bool,
    pub(crate) aborted: bool,
}

/// The end of a worker.
#[derive(Drop)]
pub(crate) enum Done<A: Allocator + Drop> {
    Put(PutDone<A>),
    Poll(PollDone<A>),
}

/// What a worker's thread promises: an end of this job, with these lanes and this gate.
#[derive(Drop)]
pub(crate) struct Pledge<G: Gate, R: Rng + Drop, A: Allocator + Drop> {
    pub(crate) job: Snapshot<Job<R, A>>,
    pub(crate) lanes: Lanes,
    pub(crate) gate: Snapshot<G>,
}

impl<G: Gate, R: Rng + Drop, A: Allocator + Drop> Promise<Done<A>> for Pledge<G, R, A> {
    ghost use Rattle.mb_mailbox.specs.Runs.{IsEnd};

    ghost kept_by = { λ p d. IsEnd (G.may_stop p.gate.value) (G.may_pass p.gate.value) R.stream p.lanes p.job.value d };
}
