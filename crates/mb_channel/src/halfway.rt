//! An end that is between the two halves of a send, or of a receive.
ghost use Rattle.std.specs.Prelude.{◌≡◌, ◌<◌, [], Some, true, false};
ghost use Rattle.std.specs.Arc.{arc_value};
ghost use Rattle.mb_channel.specs.Homes.{IsReady, view_in};

use crate::begun::{Begun, Miss};
use crate::debtor::Debtor;
use crate::end::End;
use crate::list::{Chair, SharedList};
use crate::place::Place;

/// An end that has to mark a position of its segment, or to read it. It cannot be dropped.
pub struct Halfway<T: Drop> {
    pub(crate) list: SharedList<T>,
    pub(crate) chair: Chair<T>,
    pub(crate) at: usize,
    pub(crate) rights: u64,
    pub(crate) name: u32,
    pub(crate) begun: Begun<T>,
    pub(crate) over: bool,
    ghost same: { chair.table_id ≡ (arc_value list).table.shared.table_id },
    ghost ready: { IsReady chair.me },
    ghost here: { (view_in chair).at ≡ at },
    ghost counts: { 0 < (view_in chair).rights },
    ghost counted: { rights < 18446744073709551615 → (view_in chair).rights ≡ rights },
    ghost called: { (view_in chair).name ≡ name },
    ghost short: { name < 4294967295 },
    ghost named: { begun.pass.seat.me.0.account.name ≡ name },
    ghost inside: { (view_in chair).inside ≡ true },
    ghost place: { (view_in chair).place ≡ Some begun.segment },
    ghost orderly: { (view_in chair).orderly ≡ true },
    ghost poor: { (view_in chair).takes ≡ false → begun.pass.seat.me.0.account.got ≡ [] },
    ghost told: { over ≡ begun.pass.seat.me.0.over },
    ghost room: { at < 18446744073709551615 },
}

impl<T: Drop> End<T> {
    ghost use Rattle.std.specs.Prelude.{Err, IfErr, IfOk, is_some};
    ghost use Rattle.mb_channel.specs.declared.begun.Miss.TheVariants.{Over};
    ghost use Rattle.mb_channel.specs.Ends.{IsOver, SawOver, stand_of, view_of};
    ghost use Rattle.mb_channel.specs.Halves.{ClaimsOne, DrawsOne, OfMiss, wakes_half};
    ghost use Rattle.mb_channel.specs.Receives.{SawEmpty};
    ghost use Rattle.mb_channel.specs.Standing.{NoMore};
    ghost use Rattle.mb_channel.specs.Wakes.{Tells, wakes_of};

    /// Draws a position for a value in the segment where the end is.
    pub(crate) fn draw(self, value: &T) -> Result<Halfway<T>, (End<T>, Miss)>
        ensures drawn { IfOk result (λ h. DrawsOne value.now (stand_of self) h
            × (h.chair ≡ self.chair)) }
        ensures missed { IfErr result (λ e. NoMore (stand_of self) (stand_of e.0)
            × (e.0.chair ≡ self.chair) × OfMiss e.1 (Unit {0}) ⊥ (SawOver e.0)) }
        ensures outside { is_some self.inside ≡ false → result ≡ Err (self, Over) }
        ensures wakes { IfOk result (λ h. Tells 0 (wakes_of self) (wakes_half h)) }
        ensures told { IfErr result (λ e. Tells 0 (wakes_of self) (wakes_of e.0)) }
    {
        if self.inside.is_none() {
            return Err((self, Miss::Over));
        }
        let (at, rights, name, over) = (self.at, self.rights, self.name, self.over);
        let End {
            list,
            chair,
            inside,
            ..
        } = self;
        let Some(inside) = inside else { unreachable!() };
        match inside.draw(value) {
            Ok(begun) => Ok(Halfway {
                list,
                chair,
                at,
                rights,
                name,
                begun,
                over,
            }),
            Err((inside, why)) => {
                let end = End {
                    list,
                    chair,
                    at,
                    rights,
                    name,
                    inside: Some(inside),
                    over,
                    behind: false,
                };
                Err((end, why))
            }
        }
    }

    /// Claims the next value in the segment where the end is.
    pub(crate) fn claim(self) -> Result<Halfway<T>, (End<T>, Miss)>
        requires takes { (view_of self).takes ≡ true }
        ensures claimed { IfOk result (λ h. (x : T) × ClaimsOne x (stand_of self) h
            × (h.chair ≡ self.chair)) }
        ensures missed { IfErr result (λ e. NoMore (stand_of self) (stand_of e.0)
            × (e.0.chair ≡ self.chair)
            × OfMiss e.1 (Unit {0}) (SawEmpty (stand_of self) (stand_of e.0)) (IsOver e.0)) }
        ensures outside { is_some self.inside ≡ false → result ≡ Err (self, Over) }
        ensures wakes { IfOk result (λ h. Tells 0 (wakes_of self) (wakes_half h)) }
        ensures told { IfErr result (λ e. Tells 0 (wakes_of self) (wakes_of e.0)) }
    {
        if self.inside.is_none() {
            return Err((self, Miss::Over));
        }
        let (at, rights, name, over) = (self.at, self.rights, self.name, self.over);
        let End {
            list,
            chair,
            inside,
            ..
        } = self;
        let Some(inside) = inside else { unreachable!() };
        match inside.claim() {
            Ok(begun) => Ok(Halfway {
                list,
                chair,
                at,
                rights,
                name,
                begun,
                over,
            }),
            Err((inside, why)) => {
                let over = over || matches!(why, Miss::Over);
                let end = End {
                    list,
                    chair,
                    at,
                    rights,
                    name,
                    inside: Some(inside),
                    over,
                    behind: false,
                };
                Err((end, why))
            }
        }
    }
}

impl<T: Drop> Halfway<T> {
    ghost use Rattle.mb_channel.specs.Ends.{stand_of};
    ghost use Rattle.mb_channel.specs.Halves.{EndsWith, IsReader, IsWriter, place_in, stand_half, wakes_half};
    ghost use Rattle.mb_channel.specs.Standing.{NoMore, got_in, sent_in, stand_with};
    ghost use Rattle.mb_channel.specs.Wakes.{Tells, wakes_of, wakes_with};

    /// The position.
    pub(crate) fn place(&self) -> Place
        ensures { result ≡ place_in self.now }
    {
        Place {
            segment: self.at,
            number: self.begun.position,
        }
    }

    /// Marks the position, and tries to give the token that is owed.
    #[inline(always)]
    pub(crate) fn mark(self, value: T) -> Debtor<T>
        requires writer { IsWriter self }
        requires same { EndsWith (place_in self) value (sent_in (stand_half self)) }
        ensures still { NoMore (stand_half self) (stand_with result) }
        ensures chair { result.chair ≡ self.chair }
        ensures wakes { Tells 0 (wakes_half self) (wakes_with result) }
    {
        let Halfway {
            list,
            chair,
            at,
            rights,
            name,
            begun,
            over,
        } = self;
        Debtor {
            list,
            chair,
            at,
            rights,
            name,
            busy: begun.mark(value, name),
            over,
        }
    }

    /// Reads the value of the position.
    #[inline(always)]
    pub(crate) fn read(self) -> (T, End<T>)
        requires reader { IsReader self }
        ensures value { EndsWith (place_in self) result.0 (got_in (stand_half self)) }
        ensures still { NoMore (stand_half self) (stand_of result.1) }
        ensures chair { result.1.chair ≡ self.chair }
        ensures wakes { Tells 0 (wakes_half self) (wakes_of result.1) }
    {
        let Halfway {
            list,
            chair,
            at,
            rights,
            name,
            begun,
            over,
        } = self;
        let (value, inside) = begun.read(name);
        (
            value,
            End {
                list,
                chair,
                at,
                rights,
                name,
                inside: Some(inside),
                over,
                behind: false,
            },
        )
    }
}
