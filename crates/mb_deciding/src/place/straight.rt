//! What one process does in a whole object, from its first access to its output. Its budget has room for all of that.
//! No place is kept between the accesses.
ghost use Rattle.std.specs.Prelude.{◌≡◌, ◌<◌, ◌≤◌, ◌+◌, ℕ, true, false};
ghost use Rattle.mb_deciding.specs.{Op, Pc, Conciliator, Ratifier, LastObject, InRatifier, Announce, IsOpAt, AreSteps};
ghost use Rattle.mb_deciding.specs.{DrawsAndMakes, first_place, most_turns, answer, checks_of};
ghost use Rattle.mb_deciding.specs.declared.place.pc.Next.TheVariants as leads;

use super::last::LastPlace;
use super::mask::{least, without};
use crate::access::{Op, Reg};
use crate::memory::{Drawing, Site};
use crate::object::Out;
use mb_quorum::Quorums;

/// Goes through a conciliator whose last attempt is `s`, with this input. Returns the value of the output. It makes at
/// most `s + 3` accesses, which `left` must have room for, and takes those made off `left`. It needs an `s` of at most
/// 63, an input below the table's number of values, and a memory that can make each access.
#[inline(always)]
pub fn through_conciliator<Q: Quorums, M: Drawing>(
    q: &Q,
    memory: &mut M,
    site: Site,
    s: u32,
    input: u32,
    left: &mut u64,
) -> u32
    requires input { input < (Q.table q.now).values }
    requires s { s ≤ 63 }
    requires room { most_turns (Q.table q.now) (Conciliator s) ≤ left.old }

    // At each place that the process reaches, its next access may be made.
    requires may { (n word : ℕ) (at : Pc) (before mid : M) (op : Op)
        → AreSteps (Q.table q.now) (DrawsAndMakes M.draws M.makes site.object)
        (first_place (Q.table q.now) (Conciliator s) input) memory.old n (leads.Go at) before
        → M.draws before word mid → IsOpAt (Q.table q.now) at op → M.can_make_at mid site op }
    ensures value { result < (Q.table q.now).values }
    ensures steps { (n : ℕ) × (n + left.new ≡ left.old)
        × AreSteps (Q.table q.now) (DrawsAndMakes M.draws M.makes site.object)
        (first_place (Q.table q.now) (Conciliator s) input) memory.old n
        (leads.Out (answer false result)) memory.new }
    ensures few { left.old ≤ left.new + most_turns (Q.table q.now) (Conciliator s) }
{
    let values = q.values();
    let modulus = 1 << s;
    let mut limit = 1;
    'draws: loop {
        *left -= 1;
        let word = memory.draw();
        let seen = memory.perform_at(site, Op::Load(Reg::Value));
        if seen != 0 {
            return met(values, input, seen);
        }
        if word & (modulus - 1) < limit {
            break;
        }
        limit *= 2;
    }
    *left -= 2;
    memory.draw();
    memory.perform_at(site, Op::Store(Reg::Value, u64::from(input) + 1));
    memory.draw();
    let seen = memory.perform_at(site, Op::Load(Reg::Value));
    met(values, input, seen)
}

/// The value `seen - 1` if it is one of `values`, and else this input.
#[inline(always)]
fn met(values: u32, input: u32, seen: u64) -> u32
    requires { input < values }
    ensures fits { result < values }
    ensures met { 0 < seen → seen ≤ values → seen ≡ result + 1 }
{
    if 0 < seen && seen <= u64::from(values) {
        (seen - 1) as u32
    } else {
        input
    }
}

/// Goes through a ratifier with this input. Returns the output. With r registers it makes at most `2r + 2` accesses,
/// and `left` must have room for those that a whole path can have (`most_turns`). Apart from that it is like
/// [`through_conciliator`].
#[inline(always)]
pub fn through_ratifier<Q: Quorums, M: Drawing>(
    q: &Q,
    memory: &mut M,
    site: Site,
    input: u32,
    left: &mut u64,
) -> Out
    requires input { input < (Q.table q.now).values }
    requires room { most_turns (Q.table q.now) Ratifier ≤ left.old }

    // At each place that the process reaches, its next access may be made.
    requires may { (n word : ℕ) (at : Pc) (before mid : M) (op : Op)
        → AreSteps (Q.table q.now) (DrawsAndMakes M.draws M.makes site.object)
        (first_place (Q.table q.now) Ratifier input) memory.old n (leads.Go at) before
        → M.draws before word mid → IsOpAt (Q.table q.now) at op → M.can_make_at mid site op }
    ensures value { result.value < (Q.table q.now).values }
    ensures steps { (n : ℕ) × (n + left.new ≡ left.old)
        × AreSteps (Q.table q.now) (DrawsAndMakes M.draws M.makes site.object)
        (first_place (Q.table q.now) Ratifier input) memory.old n (leads.Out result) memory.new }
    ensures few { left.old ≤ left.new + most_turns (Q.table q.now) Ratifier }
{
    let mut mask = q.write_quorum(input);
    'announces: while mask != 0 {
        *left -= 1;
        memory.draw();
        let register = least(mask);
        memory.perform_at(site, Op::Store(Reg::Quorum(register), 1));
        mask = without(mask, register);
    }
    let preference = prefer(q, memory, site, input, left);
    let mut mask = q.read_quorum(preference);
    'checks: while mask != 0 {
        *left -= 1;
        memory.draw();
        let register = least(mask);
        if memory.perform_at(site, Op::Load(Reg::Quorum(register))) != 0 {
            return Out::undecided(preference);
        }
        mask = without(mask, register);
    }
    Out::decided(preference)
}

/// Loads the proposal of a ratifier, after the announcement of this input, and stores the input there if it finds no
/// value of the table. Returns the preference.
#[inline(always)]
fn prefer<Q: Quorums, M: Drawing>(
    q: &Q,
    memory: &mut M,
    site: Site,
    input: u32,
    left: &mut u64,
) -> u32
    requires input { input < (Q.table q.now).values }
    requires room { 2 ≤ left.old }
    requires may { (n word : ℕ) (at : Pc) (before mid : M) (op : Op)
        → AreSteps (Q.table q.now) (DrawsAndMakes M.draws M.makes site.object)
        (InRatifier (Announce input 0)) memory.old n (leads.Go at) before
        → M.draws before word mid → IsOpAt (Q.table q.now) at op → M.can_make_at mid site op }
    ensures value { result < (Q.table q.now).values }
    ensures steps { (n : ℕ) × (n ≤ 2) × (n + left.new ≡ left.old)
        × AreSteps (Q.table q.now) (DrawsAndMakes M.draws M.makes site.object)
        (InRatifier (Announce input 0)) memory.old n
        (checks_of result ((Q.table q.now).read result)) memory.new }
{
    *left -= 1;
    memory.draw();
    let seen = memory.perform_at(site, Op::Load(Reg::Proposal));
    if 0 < seen && seen <= u64::from(q.values()) {
        return (seen - 1) as u32;
    }
    *left -= 1;
    memory.draw();
    memory.perform_at(site, Op::Store(Reg::Proposal, u64::from(input) + 1));
    input
}

/// Goes through a last object with this input. Returns the value of the output. It makes one access, which `left` must
/// have room for. Apart from that it is like [`through_conciliator`].
#[inline(always)]
pub fn through_last<Q: Quorums, M: Drawing>(
    q: &Q,
    memory: &mut M,
    site: Site,
    input: u32,
    left: &mut u64,
) -> u32
    requires input { input < (Q.table q.now).values }
    requires room { 1 ≤ left.old }
    requires may { (n word : ℕ) (at : Pc) (before mid : M) (op : Op)
        → AreSteps (Q.table q.now) (DrawsAndMakes M.draws M.makes site.object)
        (first_place (Q.table q.now) LastObject input) memory.old n (leads.Go at) before
        → M.draws before word mid → IsOpAt (Q.table q.now) at op → M.can_make_at mid site op }
    ensures value { result < (Q.table q.now).values }
    ensures steps { (n : ℕ) × (n + left.new ≡ left.old)
        × AreSteps (Q.table q.now) (DrawsAndMakes M.draws M.makes site.object)
        (first_place (Q.table q.now) LastObject input) memory.old n
        (leads.Out (answer true result)) memory.new }
{
    let place = LastPlace { input };
    *left -= 1;
    memory.draw();
    let seen = memory.perform_at(site, place.next());
    place.after(q.values(), seen).value
}
