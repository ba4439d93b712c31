//! The end of a channel.
ghost use Rattle.std.specs.Prelude.{List as Seq, ◌≡◌, ◌<◌, ◌∷◌, false, map, IfSome};
ghost use Rattle.mb_channel.specs.declared.home.Home.{Home};
ghost use Rattle.mb_channel.specs.declared.view.Knows.{Knows};
ghost use Rattle.mb_channel.specs.Homes.{IsReady, IsWhole, Stands, past_of, view_in};
ghost use Rattle.mb_channel.specs.Inside.{log_of_past};
ghost use Rattle.mb_channel.specs.Rests.{IsEnding};
ghost use Rattle.mb_channel.specs.Ends.{given_to, log_of};

use crate::end::Receiver;
use crate::home::Homes;
use crate::list::Chair;
use crate::rest::Ending;
use std::sync::{Arc, Wait};

impl<T: Drop> Receiver<T> {
    /// Ends the channel by its last end, to which all others were given back. It is `None` if an end was not given back,
    /// whether it is still there or was dropped: then the receiver is gone too, and the channel never ends.
    /// `Ending::finish` then gives out what is left: with what the ends did, that is one channel's life.
    pub fn end<R: Wait>(self, rt: &R) -> Option<Ending<T>>
        ensures whole { IfSome result (λ e. (v : Knows T) × (hs : Seq (Home T)) × IsEnding hs e
            × IsWhole v hs × (v.inside ≡ false)
            × (map log_of_past (past_of v ∷ v.ended)
            ≡ log_of self.end ∷ given_to self.end)) }
    {
        let Receiver { end } = self;
        let (list, chair, rights) = end.outside(rt);
        let list = Arc::try_unwrap(list).ok()?;
        let alloc = list.alloc;
        let homes = list.end(chair, rights)?;
        Some(Ending::new(homes, alloc))
    }
}
