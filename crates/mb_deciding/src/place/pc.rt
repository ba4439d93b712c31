//! Places in objects of any kind, and what an access leads to.
use super::conciliator::ConciliatorPlace;
use super::last::LastPlace;
use super::ratifier::RatifierPlace;
use crate::object::Out;

/// The place of one process in a deciding object, between two of its accesses: where the process is, and what it has to
/// remember.
#[derive(Clone, Copy, PartialEq, Eq, Debug)]
pub enum Pc {
    /// The process is in a conciliator.
    InConciliator(ConciliatorPlace),
    /// The process is in a ratifier.
    InRatifier(RatifierPlace),
    /// The process is in a last object.
    InLast(LastPlace),
}

/// What an access leads to.
#[derive(Clone, Copy, PartialEq, Eq, Debug)]
pub enum Next {
    /// The process goes on from this place.
    Go(Pc),
    /// The access was the process's last, and this is its output.
    Out(Out),
}

impl Next {
    ghost use Rattle.std.specs.Prelude.{◌≡◌};
    ghost use Rattle.mb_deciding.specs.{next_from, come_to, out_of};

    /// The output, if there is one, and else the place.
    #[inline(always)]
    pub(crate) fn from_place(place: Pc, out: Option<Out>) -> Next
        ensures { result ≡ next_from out place }
    {
        match out {
            None => Next::Go(place),
            Some(out) => Next::Out(out),
        }
    }

    /// Sets this to the output, if there is one, and else leaves it as it is.
    #[inline(always)]
    pub(crate) fn end(&mut self, out: Option<Out>)
        ensures { self.new ≡ come_to out self.old }
    {
        if let Some(out) = out {
            *self = Next::Out(out);
        }
    }

    /// The output, if the process has it.
    #[inline(always)]
    pub(crate) fn out(self) -> Option<Out>
        ensures { result ≡ out_of self }
    {
        match self {
            Next::Go(_) => None,
            Next::Out(out) => Some(out),
        }
    }
}
