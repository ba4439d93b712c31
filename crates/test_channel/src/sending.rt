//! A worker that sends.
ghost use Rattle.std.specs.Prelude.{◌≡◌};
ghost use Rattle.mb_channel.specs.Ends.{AreOfOneChannel};

use crate::account::{Account, add};
use crate::draws::{Draws, Fate, Sent};
use mb_channel::{Receiver, Sender};
use std::mem::replace;
use std::sync::Wait;
use std::thread::sleep;
use std::time::{Clock, Duration};

/// How many values of a sender may wait. Before each further one it is patient.
const WINDOW: u64 = 4096;

/// How many milliseconds a sender waits for the receivers, before it goes on without them.
const PATIENCE: u64 = 500;

/// A worker that sends values, by one sender after the other.
#[derive(Drop)]
pub struct Sending {
    pub sender: Sender<Sent>,
    /// It takes back the senders, and receives nothing.
    pub keeper: Receiver<Sent>,
    pub draws: Draws,
    /// The first of its values.
    pub first: u64,
    /// Whether it still waits for the receivers.
    pub is_patient: bool,
    ghost one: { AreOfOneChannel keeper.end sender.end },
}

impl Sending {
    /// Waits until few values wait, or until no patience is left.
    fn keep_pace<R: Clock>(&mut self, rt: &R, account: &Account, value: u64)
        ensures sender { self.new.sender ≡ self.old.sender }
        ensures keeper { self.new.keeper ≡ self.old.keeper }
    {
        if !self.is_patient || value.saturating_sub(self.first) < WINDOW {
            return;
        }
        for _ in 0..PATIENCE {
            if account.has(value.saturating_sub(WINDOW)) {
                return;
            }
            sleep(rt, Duration::from_millis(1));
        }
        self.is_patient = false;
    }

    /// Makes another sender, and gives back or drops one of the two.
    fn renew<R: Wait>(&mut self, rt: &R, account: &Account, fate: Fate)
        ensures { AreOfOneChannel self.old.keeper.end self.new.keeper.end }
    {
        let Some(other) = self.sender.another() else {
            add(&account.refused, 1);
            return;
        };
        match fate {
            Fate::Changed => {
                let old = replace(&mut self.sender, other);
                self.keeper.give_sender(rt, old);
            }
            Fate::Returned => {
                self.keeper.give_sender(rt, other);
            }
            Fate::Dropped => {
                add(&account.dropped, 1);
                drop(other);
            }
            Fate::Left => {
                add(&account.dropped, 1);
                drop(replace(&mut self.sender, other));
            }
        }
    }

    /// Sends a value. It is `false` if that is refused.
    fn send<R: Clock + Wait>(&mut self, rt: &R, account: &Account, value: u64) -> bool
        ensures { AreOfOneChannel self.old.keeper.end self.new.keeper.end }
    {
        self.keep_pace(rt, account, value);
        if let Some(fate) = self.draws.fate() {
            self.renew(rt, account, fate);
        }
        self.sender.send(rt, Sent::Value(value)).is_ok()
    }

    /// Sends so many values, and gives all senders back to the receiver that it returns.
    pub fn work<R: Clock + Wait>(self, rt: &R, account: &Account, many: u64) -> Receiver<Sent>
        ensures { AreOfOneChannel self.keeper.end result.end }
    {
        let mut worker = self;
        let mut sent = 0u64;
        for number in 0..many {
            let value = worker.first.wrapping_add(number);
            if !worker.send(rt, account, value) {
                add(&account.refused, 1);
                break;
            }
            sent = sent.wrapping_add(1);
        }
        add(&account.sent, sent);
        let Sending {
            sender,
            keeper,
            draws: _,
            first: _,
            is_patient: _,
        } = worker;
        let mut keeper = keeper;
        keeper.give_sender(rt, sender);
        keeper
    }
}
