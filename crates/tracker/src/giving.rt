// The sorts of call that can give: how each is planned, how its plan is made, and what else it changes. Apart, so that the compiler keeps what
// each needs.
ghost use Rattle.std.specs.Prelude.{◌≡◌, true};
ghost use Rattle.flow.specs.Calls.{Call as Asked, map_both, fork};
ghost use Rattle.terms.specs.Calls.{asked};
ghost use Rattle.tracker.specs.View.{view};
ghost use Rattle.tracker.specs.Rows.{Passes};
ghost use Rattle.tracker.specs.Plans.{plan_for, GivesOnce};
ghost use Rattle.tracker.specs.Worked.{finished, Gives, Makes};

use crate::Tracker;
use crate::plan::{copy_of, exchange_of, gift_of};
use crate::release::{held_by, release_each};
use crate::tables::{fork, raise_both, raise_read};
use store::Plan;
use store::cells::{make_items, replace_items};
use store::limits::DEVICES;
use store::numbers::Container;
use terms::call::KnownCall;

// That a call passes is asked at each step: it is of the call and of the tracker that it meets, which steps change, so no type carries it.
pub trait Giving {
    // The calls of this sort.
    ghost takes: { Asked → Type 0 };

    fn plan(t: &Tracker, q: KnownCall) -> Plan
        requires { Passes (view t.now) (asked q) × takes (asked q) }
        ensures { result ≡ plan_for (view t.now) (asked q) };

    // Makes the plan. Answers the containers that gained.
    fn make(t: &mut Tracker, q: KnownCall, plan: Plan) -> u64
        requires { Passes (view t.old) (asked q) × takes (asked q) × (plan ≡ plan_for (view t.old) (asked q)) }
        ensures { Makes (view t.old) plan (view t.new) result };

    // Makes the rest of the call.
    fn finish(t: &mut Tracker, q: KnownCall)
        requires { Passes (view t.old) (asked q) × takes (asked q) }
        ensures { view t.new ≡ finished (view t.old) (asked q) };
}

// Calls that give once: a read, a write, a map read, a label.
pub struct Once;

impl Giving for Once {
    ghost takes = { GivesOnce };

    fn plan(t: &Tracker, q: KnownCall) -> Plan {
        gift_of(t, q)
    }

    fn make(t: &mut Tracker, q: KnownCall, plan: Plan) -> u64 {
        make_items(&mut t.words, plan)
    }

    fn finish(t: &mut Tracker, q: KnownCall) {
        raise_read(t, q);
    }
}

// A map both, which gives twice.
pub struct Exchange;

impl Giving for Exchange {
    ghost takes = { λ q. q.kind ≡ map_both };

    fn plan(t: &Tracker, q: KnownCall) -> Plan {
        exchange_of(t, q)
    }

    fn make(t: &mut Tracker, q: KnownCall, plan: Plan) -> u64 {
        make_items(&mut t.words, plan)
    }

    fn finish(t: &mut Tracker, q: KnownCall) {
        raise_both(t, q);
    }
}

// A fork, which gives to a container that it empties.
pub struct Copying;

impl Giving for Copying {
    ghost takes = { λ q. q.kind ≡ fork };

    fn plan(t: &Tracker, q: KnownCall) -> Plan {
        copy_of(t, q)
    }

    fn make(t: &mut Tracker, q: KnownCall, plan: Plan) -> u64 {
        replace_items(&mut t.words, Container(DEVICES + q.a), plan.given)
    }

    fn finish(t: &mut Tracker, q: KnownCall) {
        let held = held_by(t, q.a);
        fork(t, q.process, q.a);
        release_each(t, held);
    }
}
