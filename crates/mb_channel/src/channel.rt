//! How the ends of a channel come from segment to segment.
use crate::answers::Came;
use crate::end::End;
use crate::inside::Inside;

/// How often a call that never waits leaves a segment or comes to one, at most.
pub(crate) const TRIES: u32 = 4;

/// Why a call could not be made. Nothing has changed.
#[derive(Clone, Copy, PartialEq, Eq, Debug, Drop)]
pub enum Refused {
    /// The allocator refused the memory for the next segment.
    NoMemory,
    /// The channel is closed, or no sender is left. If a receive tells it: and nothing waits in it, for ever.
    Closed,
    /// So many ends are in a segment, or there were so many segments, that they cannot be counted.
    Crowded,
}

impl<T: Drop> End<T> {
    ghost use Rattle.std.specs.Prelude.{◌≡◌, ◌≢◌, ◌<◌, true, false, is_some, Err, IfErr, IfOk};
    ghost use Rattle.mb_channel.specs.declared.channel.Refused.TheVariants.{Closed, NoMemory};
    ghost use Rattle.mb_channel.specs.Answers.{IfClosed};
    ghost use Rattle.mb_channel.specs.Receives.{FoundNone};
    ghost use Rattle.mb_channel.specs.Ends.{IsBehind, IsOver, IsSame, SawOver, got_by, sent_by, stand_of, view_of};
    ghost use Rattle.mb_channel.specs.Wakes.{Tells, wakes_of};

    /// Tries to come to the segment at the end's place. If there is none yet, it may add it. It is `false` if there is
    /// none yet and it added none. Once it was told that the channel is closed, it is told so without a look.
    fn come(&mut self, takes: bool, adds: bool) -> Result<bool, Refused>
        requires outside { is_some self.old.inside ≡ false }
        requires side { takes ≡ true → (view_of self.old).takes ≡ true }
        ensures end { IsSame self.old self.new }
        ensures sent { sent_by self.new ≡ sent_by self.old }
        ensures got { got_by self.new ≡ got_by self.old }
        ensures wakes { Tells 0 (wakes_of self.old) (wakes_of self.new) }
        ensures takes { takes ≡ true → (view_of self.new).takes ≡ true }
        ensures none { takes ≡ true → IfOk result (λ there. there ≡ false
            → FoundNone (stand_of self.old) (stand_of self.new)) }
        ensures closed { IfErr result (λ why. IfClosed why (IsBehind self.new)) }
        ensures still { IsBehind self.old → result ≡ Err Closed }
        ensures memory { takes ≡ true → IfErr result (λ why. why ≢ NoMemory) }
    {
        if self.behind {
            return Err(Refused::Closed);
        }
        let at = self.at;
        if at == usize::MAX {
            return Err(Refused::Crowded);
        }
        let name = self.name;
        match self.list.come(&mut self.chair, name, at, takes, adds) {
            Came::Here(segment, pass) => {
                let pass = pass.rest();
                self.inside = Some(Inside { segment, pass });
                Ok(true)
            }
            Came::Gone(next) => {
                self.at = next;
                Ok(true)
            }
            // A receiver waits for memory, which any end may free.
            Came::NotYet if adds && !takes => Err(Refused::NoMemory),
            Came::NotYet => Ok(false),
            Came::Added => Ok(true),
            Came::Closed => {
                self.behind = true;
                Err(Refused::Closed)
            }
            Came::Crowded => Err(Refused::Crowded),
            Came::Locked => Ok(true),
        }
    }

    /// Tries to leave the segment where the end is, which is over. An end that is in none has left.
    fn leave(&mut self) -> bool
        requires over { SawOver self.old }
        ensures end { IsSame self.old self.new }
        ensures sent { sent_by self.new ≡ sent_by self.old }
        ensures got { got_by self.new ≡ got_by self.old }
        ensures wakes { Tells 0 (wakes_of self.old) (wakes_of self.new) }
        ensures takes { (view_of self.old).takes ≡ true → IsOver self.old
            → (view_of self.new).takes ≡ true }
        ensures left { result ≡ true → is_some self.new.inside ≡ false }
    {
        let at = self.at;
        let Some(inside) = self.inside.take() else {
            return true;
        };
        let Inside { segment, pass } = inside;
        match self.list.leave(&mut self.chair, at, pass.pass(), self.over) {
            Ok(_) => {
                self.at = at + 1;
                self.over = false;
                true
            }
            Err(pass) => {
                let pass = pass.rest();
                self.inside = Some(Inside { segment, pass });
                false
            }
        }
    }

    /// Goes on: leaves the segment where the end is, or comes to the next one, or adds that. It is a try, which may change
    /// nothing if the lock is taken. It is `false` if the next one is not there yet, and was not added: this end adds
    /// none, or it is a receiver and the allocator refused the memory.
    #[cold]
    #[inline(never)]
    pub(crate) fn go_on(&mut self, takes: bool, adds: bool) -> Result<bool, Refused>
        requires side { takes ≡ true → (view_of self.old).takes ≡ true }
        requires done { takes ≡ true → IsOver self.old }
        requires over { SawOver self.old }
        ensures end { IsSame self.old self.new }
        ensures sent { sent_by self.new ≡ sent_by self.old }
        ensures got { got_by self.new ≡ got_by self.old }
        ensures wakes { Tells 0 (wakes_of self.old) (wakes_of self.new) }
        ensures takes { takes ≡ true → (view_of self.new).takes ≡ true }
        ensures none { takes ≡ true → IfOk result (λ there. there ≡ false
            → FoundNone (stand_of self.old) (stand_of self.new)) }
        ensures closed { IfErr result (λ why. IfClosed why (IsBehind self.new)) }
        ensures still { IsBehind self.old → result ≡ Err Closed }
        ensures memory { takes ≡ true → IfErr result (λ why. why ≢ NoMemory) }
    {
        if self.inside.is_some() {
            self.leave();
            Ok(true)
        } else {
            self.come(takes, adds)
        }
    }
}
