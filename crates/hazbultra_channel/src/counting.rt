//! The call that tells how many values wait.
ghost use Rattle.std.specs.Prelude.{◌≡◌, ◌≢◌, ◌↔◌, ◌⊎◌, IfNone, IfSome};
ghost use Rattle.hazbultra_channel.specs.Ends.{EndMade, EndWent, IsEnd, ToldLength};
ghost use Rattle.hazbultra_channel.specs.declared.codes.TheConstants.{AGAIN, BAD_HANDLE, DONE};

use crate::codes::{AGAIN, BAD_HANDLE, DONE};
use crate::handle::End;
use crate::thing::Thing;
use mb_channel::Held;

/// How many values wait in the channel of a sender or a receiver. The call returns `DONE` if it wrote that. It returns
/// `AGAIN` if it is not known now: another end has the lock, others receive, or the end goes, or is a receiver that sleeps
/// or owes something. It returns `BAD_HANDLE` if the handle leads to no end.
#[unsafe(no_mangle)]
pub extern "C" fn hz_channel_len(end: &mut End, len: &mut u64) -> u32
    ensures told { result ≡ DONE
        → EndWent (ToldLength len.new) end.old.block.thing end.new.block.thing }
    ensures same { result ≢ DONE → end.new.block.thing ≡ end.old.block.thing }
    ensures bad { (result ≡ BAD_HANDLE) ↔ (EndMade IsEnd end.old.block.thing → ⊥) }
    ensures kept { result ≢ DONE → len.new ≡ len.old }
    ensures codes { (result ≡ DONE) ⊎ (result ≡ AGAIN) ⊎ (result ≡ BAD_HANDLE) }
{
    let Some(opened) = end.lend() else {
        return BAD_HANDLE;
    };
    match opened {
        Thing::OfEnd(stored) => match count(&mut stored.held) {
            Some(waiting) => {
                *len = waiting;
                DONE
            }
            None => AGAIN,
        },
        Thing::OfNothing => BAD_HANDLE,
    }
}

#[tactic(auto, using(crate::proofs::Told::sender_told, crate::proofs::Told::sender_same, crate::proofs::Told::receiver_told, crate::proofs::Told::receiver_same))]
fn count(held: &mut Held<u64>) -> Option<u64>
    ensures told { IfSome result (λ n. ToldLength n held.old held.new) }
    ensures same { IfNone result (held.new ≡ held.old) }
{
    match held {
        Held::OfSender(kept) => kept.try_len(),
        Held::OfReceiver(receiver) => receiver.try_len(),
        _ => None,
    }
}
