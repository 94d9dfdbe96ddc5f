// What a call gives, as a plan, worked out before anything is stored.
ghost use Rattle.std.specs.Prelude.{ℕ, ◌<◌, ◌≡◌, List};
ghost use Rattle.flow.specs.Box.{container_count};
ghost use Rattle.flow.specs.Calls.{exchange, map_both, fork};
ghost use Rattle.flow.specs.Records.{kind_of};
ghost use Rattle.store.specs.Maps.{view as maps_of};
ghost use Rattle.terms.specs.Calls.{asked};
ghost use Rattle.terms.specs.Kinds.{kind_in};
ghost use Rattle.tracker.specs.View.{view};
ghost use Rattle.tracker.specs.Rows.{Passes};
ghost use Rattle.tracker.specs.Plans.{plan_of, plan_for, giving as giving_to, gives_by, gives_at, GivesOnce};

use crate::Tracker;
use store::Plan;
use store::limits::DEVICES;
use store::lookups::{descriptor, items};
use store::numbers::{Container, Descriptor, Process};
use store::spread::reach;
use terms::call::KnownCall;
use terms::kind::Kind;

// Whether calls of this kind can give an item to a container.
#[tactic(auto, unfolding(crate::specs::Plans::gives_by))]
pub fn can_give(kind: Kind) -> bool
    ensures { result ≡ gives_by (kind_in kind) }
{
    matches!(
        kind,
        Kind::Read | Kind::Write | Kind::MapRead | Kind::MapBoth | Kind::Fork | Kind::Label
    )
}

// The same of any number: one that is no kind's gives nothing.
#[tactic(auto, unfolding(crate::specs::Plans::gives_at))]
pub fn gives(kind: u8) -> bool
    ensures { result ≡ gives_at (kind_of kind) }
{
    match Kind::try_from(kind) {
        Ok(known) => can_give(known),
        Err(_) => false,
    }
}

// The items x given to the set r.
pub fn giving(x: u64, r: u64) -> Plan
    ensures { result ≡ giving_to x r }
{
    Plan {
        empty: 0,
        given: x,
        to: r,
        given2: 0,
        to2: 0,
    }
}

// The second is given what the first holds, then the first what the second then holds (map both; document 02, Paper 3).
fn exchanging(words: &[u64; 353], first: Container, second: Container) -> Plan
    requires { (first.0 < container_count) × (second.0 < container_count) }
    ensures { (d n : List ℕ) → result ≡ plan_of (maps_of words.now d n) (exchange first.0 second.0) }
{
    let given = items(words, first);
    Plan {
        empty: 0,
        given: given,
        to: reach(words, second),
        given2: items(words, second) | given,
        to2: reach(words, first),
    }
}

// What field a leads to is looked up where it is due: a function of call and tracker would be no shorter.
// The plan of a call that gives once and is not refused: a read, a write, a map read or a label. Each sort of plan has a function of its own, so
// that the compiler keeps what that sort needs.
pub fn gift_of(t: &Tracker, q: KnownCall) -> Plan
    requires { Passes (view t.now) (asked q) × GivesOnce (asked q) }
    ensures { result ≡ plan_for (view t.now) (asked q) }
{
    let words = &t.words;
    match q.kind {
        Kind::Read | Kind::MapRead => {
            let to = descriptor(&t.descriptors, Process(q.process), Descriptor(q.a));
            let own = DEVICES + q.process;
            giving(items(words, Container(to)), reach(words, Container(own)))
        }
        Kind::Write => {
            let to = descriptor(&t.descriptors, Process(q.process), Descriptor(q.a));
            let own = DEVICES + q.process;
            giving(items(words, Container(own)), reach(words, Container(to)))
        }
        Kind::Label => giving(sets::with(0, q.b), reach(words, Container(q.a))),
        _ => giving(0, 0),
    }
}

// The plan of a map both that is not refused.
pub fn exchange_of(t: &Tracker, q: KnownCall) -> Plan
    requires { Passes (view t.now) (asked q) × (kind_in q.kind ≡ map_both) }
    ensures { result ≡ plan_for (view t.now) (asked q) }
{
    let to = descriptor(&t.descriptors, Process(q.process), Descriptor(q.a));
    let own = DEVICES + q.process;
    exchanging(&t.words, Container(to), Container(own))
}

// The plan of a fork that is not refused.
pub fn copy_of(t: &Tracker, q: KnownCall) -> Plan
    requires { Passes (view t.now) (asked q) × (kind_in q.kind ≡ fork) }
    ensures { result ≡ plan_for (view t.now) (asked q) }
{
    let child = sets::with(0, DEVICES + q.a);
    let own = DEVICES + q.process;
    Plan {
        empty: child,
        given: items(&t.words, Container(own)),
        to: child,
        given2: 0,
        to2: 0,
    }
}
