//! Which values were sent and received.

use std::alloc::{AllocError, Global};
use std::fmt;
use std::sync::atomic::{AtomicU64, Ordering};

/// What became of the values of several rounds. All threads write into it.
#[derive(Drop)]
pub struct Account {
    /// How many values there are: the numbers below this one.
    values: u64,
    /// A bit for each value: whether it was received.
    received: Vec<AtomicU64>,
    pub sent: AtomicU64,
    /// How often a value was received that had been received before.
    pub again: AtomicU64,
    /// How often a value was received that is none.
    pub unknown: AtomicU64,
    /// How often a worker received a value behind a later one of the same sender.
    pub disordered: AtomicU64,
    /// How many pills and values were left in the channel when it ended.
    pub left: AtomicU64,
    /// How many ends were dropped.
    pub dropped: AtomicU64,
    /// How often a channel ended though an end was dropped, or did not though none was.
    pub misjudged: AtomicU64,
    /// How often a call was refused.
    pub refused: AtomicU64,
    /// How many rounds had no memory for their workers, so that some may not have run.
    pub given_up: AtomicU64,
}

/// What a count is now.
pub fn now(count: &AtomicU64) -> u64 {
    count.load(Ordering::SeqCst)
}

/// Adds to a count.
pub fn add(count: &AtomicU64, more: u64) {
    count.fetch_add(more, Ordering::SeqCst);
}

impl Account {
    /// An account of the values 0 to `values - 1`. None was sent yet.
    pub fn new(alloc: Global, values: u64) -> Result<Account, AllocError> {
        let words = values.div_ceil(64);
        let mut received = Vec::with_capacity(alloc, words as usize)?;
        for _ in 0..words {
            received.push(AtomicU64::new(0))?;
        }
        Ok(Account {
            values,
            received,
            sent: AtomicU64::new(0),
            again: AtomicU64::new(0),
            unknown: AtomicU64::new(0),
            disordered: AtomicU64::new(0),
            left: AtomicU64::new(0),
            dropped: AtomicU64::new(0),
            misjudged: AtomicU64::new(0),
            refused: AtomicU64::new(0),
            given_up: AtomicU64::new(0),
        })
    }

    /// Notes that this value was received.
    pub fn receive(&self, value: u64) {
        match self.received.get((value / 64) as usize) {
            Some(word) if value < self.values => {
                let bit = 1u64 << (value % 64);
                if word.fetch_or(bit, Ordering::SeqCst) & bit != 0 {
                    add(&self.again, 1);
                }
            }
            _ => add(&self.unknown, 1),
        }
    }

    /// Whether this value was received.
    pub fn has(&self, value: u64) -> bool {
        match self.received.get((value / 64) as usize) {
            Some(word) => word.load(Ordering::SeqCst) & (1u64 << (value % 64)) != 0,
            None => false,
        }
    }

    /// How many values were received, each counted once.
    fn once(&self) -> u64 {
        let mut once = 0u64;
        for word in &self.received {
            once = once.wrapping_add(u64::from(word.load(Ordering::SeqCst).count_ones()));
        }
        once
    }

    /// How many values were sent and not received, if no round was given up.
    fn lost(&self) -> u64 {
        match now(&self.given_up) {
            0 => now(&self.sent).abs_diff(self.once()),
            _ => 0,
        }
    }

    /// Whether something happened that may not happen, whatever memory there is.
    pub fn has_fault(&self) -> bool {
        let wrong = [
            now(&self.again),
            now(&self.unknown),
            now(&self.disordered),
            now(&self.left),
            now(&self.misjudged),
            self.lost(),
        ];
        wrong.iter().any(|count| *count != 0)
    }

    /// Whether a call was refused, or a round was given up.
    pub fn lacks_memory(&self) -> bool {
        now(&self.refused) != 0 || now(&self.given_up) != 0
    }
}

impl fmt::Display for Account {
    fn fmt<W: fmt::Write>(&self, f: &mut fmt::Formatter<W>) -> fmt::Result {
        let (sent, once, lost) = (now(&self.sent), self.once(), self.lost());
        let (again, unknown) = (now(&self.again), now(&self.unknown));
        let (disordered, left) = (now(&self.disordered), now(&self.left));
        let (misjudged, refused) = (now(&self.misjudged), now(&self.refused));
        let given_up = now(&self.given_up);
        write!(f, "{sent} values sent, {once} received once, {lost} lost, ")?;
        write!(
            f,
            "{again} again, {unknown} unknown, {disordered} out of order, "
        )?;
        write!(f, "{left} left, {misjudged} ends misjudged, ")?;
        write!(f, "{refused} calls refused, {given_up} rounds given up")
    }
}
