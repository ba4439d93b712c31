//! What comes of the start of a worker.
use super::jobs::{Done, Pledge};
use std::thread::{Promise, PromisedHandle};

/// A worker: it has a thread of its own (`Spawned`), or its end already (`Inline`) if no thread could be made.
#[derive(Drop)]
pub(crate) enum Worker<D: Drop, P: Promise<D>> {
    Spawned(PromisedHandle<D, P>),
    Inline(D),
}

/// A worker of a run, with the end that it gives back and what its thread promises.
pub(crate) type RunWorker<G, R, A> = Worker<Done<A>, Pledge<G, R, A>>;
