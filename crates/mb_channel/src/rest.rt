//! The segments of a list that has ended, and what they had left.
ghost use Rattle.std.specs.Prelude.{List, None, Some, [], length, true, IfErr, IfOk, ◌<◌, ◌∷◌, ◌≡◌};
ghost use Rattle.mb_channel.specs.declared.home.Home.{Home};
ghost use Rattle.mb_channel.specs.declared.view.Knows.{Knows};
ghost use Rattle.mb_channel.specs.Homes.{IsWhole, Stands};
ghost use Rattle.mb_channel.specs.Rests.{HasRest, IsEnding, RestOfLife};

use crate::home::{Home, Homes};
use mb_segment::Left;
use std::alloc::Global;
use std::collections::VecDeque;

/// A list whose segments are being ended: what the first of them had left, and the others.
#[derive(Drop)]
pub struct Ending<T: Drop> {
    pub(crate) lefts: VecDeque<Left<T>, Global>,
    pub(crate) list: VecDeque<Home<T>, Global>,
}

/// The values that the list had left, in order. What is not taken is dropped with it.
#[derive(Drop)]
pub struct Rest<T: Drop> {
    pub(crate) lefts: VecDeque<Left<T>, Global>,
}

impl<T: Drop> Ending<T> {
    /// Of a list that has ended. It takes no memory.
    pub fn new(homes: Homes<T>, alloc: Global) -> Ending<T>
        ensures { (hs : List (Home T)) → Stands hs homes → IsEnding hs result }
    {
        let Homes {
            first: _,
            list,
            audited: _,
        } = homes;
        Ending {
            lefts: VecDeque::new(alloc),
            list,
        }
    }

    /// Ends the oldest segment, if no pass is out, no end has a share, and there is memory for what it had left.
    fn end_first(&mut self) -> bool
        ensures ending { (hs : List (Home T)) → IsEnding hs self.old → IsEnding hs self.new }
        ensures fewer { result ≡ true → length self.new.list.items < length self.old.list.items }
    {
        if self.lefts.reserve(1).is_err() {
            return false;
        }
        let Some(home) = self.list.pop_front() else {
            return false;
        };
        if home.out != 0 {
            self.list.push_front_reserved(home);
            return false;
        }
        match home.end() {
            Ok(left) => {
                self.lefts.push_back_reserved(left);
                true
            }
            Err(home) => {
                self.list.push_front_reserved(home);
                false
            }
        }
    }

    /// Ends all segments. What they had left and what the ends did are one channel's life. It comes back, and can be
    /// called again, if an end is inside a segment or has a share of one, or if memory is refused.
    pub fn finish(self) -> Result<Rest<T>, Ending<T>>
        ensures whole { IfOk result (λ r. (v : Knows T) (hs : List (Home T))
            → IsEnding hs self → IsWhole v hs → RestOfLife v hs r) }
        ensures kept { IfErr result (λ e. (hs : List (Home T)) → IsEnding hs self → IsEnding hs e) }
    {
        let mut ending = self;
        while ending.end_first() {}
        if ending.list.is_empty() {
            let Ending { lefts, list } = ending;
            drop(list);
            Ok(Rest { lefts })
        } else {
            Err(ending)
        }
    }
}

impl<T: Drop> Rest<T> {
    /// The next of the values left.
    pub fn next(&mut self) -> Option<T>
        ensures some { (x : T) (xs : List T) → HasRest self.old (x ∷ xs)
            → (result ≡ Some x) × HasRest self.new xs }
        ensures none { HasRest self.old [] → (result ≡ None) × HasRest self.new [] }
    {
        while let Some(mut left) = self.lefts.pop_front() {
            if let Some(value) = left.next() {
                self.lefts.push_front_reserved(left);
                return Some(value);
            }
        }
        None
    }
}
