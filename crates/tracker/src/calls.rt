// A call: refused, or made.
ghost use Rattle.std.specs.Prelude.{◌≡◌, true, OnErr};
ghost use Rattle.terms.specs.Calls.{call_in, asked};
ghost use Rattle.terms.specs.Kinds.{kind_in};
ghost use Rattle.terms.specs.Refusals.{refused};
ghost use Rattle.tracker.specs.View.{view};
ghost use Rattle.tracker.specs.Calling.{gained_by};
ghost use Rattle.tracker.specs.Rows.{Passes};
ghost use Rattle.tracker.specs.Worked.{done, worked, Gives, finished};
ghost use Rattle.tracker.specs.Plans.{gives_by};

use crate::Tracker;
use crate::giving::{Copying, Exchange, Giving, Once};
use crate::plan::can_give;
use crate::release::{emptied_by, empty, lost_by, release};
use crate::rows::admit;
use crate::tables::change_tables;
use terms::call::{Call, KnownCall};
use terms::kind::Kind;
use terms::refusal::Refusal;

// Makes the rest of a call that is not refused: what it empties, its tables, what it ends the use of. So it promises of every kind; calls that
// give have theirs in `giving`.
pub fn finish(t: &mut Tracker, q: KnownCall)
    requires { Passes (view t.old) (asked q) }
    ensures { view t.new ≡ finished (view t.old) (asked q) }
{
    let lost = lost_by(t, q);
    let emptied = emptied_by(t, q);
    empty(t, emptied);
    change_tables(t, q);
    release(t, lost);
}

// Makes a call of a sort that can give and is not refused. Answers the containers that gained.
fn give_by<G: Giving>(t: &mut Tracker, q: KnownCall) -> u64
    requires { Passes (view t.old) (asked q) × G.takes (asked q) }
    ensures { Gives (view t.old) (asked q) (view t.new) result }
{
    let plan = G::plan(t, q);
    let gained = G::make(t, q, plan);
    G::finish(t, q);
    gained
}

// The same of any call that can give.
fn give(t: &mut Tracker, q: KnownCall) -> u64
    requires { Passes (view t.old) (asked q) × (gives_by (kind_in q.kind) ≡ true) }
    ensures { Gives (view t.old) (asked q) (view t.new) result }
{
    match q.kind {
        Kind::MapBoth => give_by::<Exchange>(t, q),
        Kind::Fork => give_by::<Copying>(t, q),
        _ => give_by::<Once>(t, q),
    }
}

// A call: refused, or its change is made. Answers the containers that gained.
pub fn work(t: &mut Tracker, q: Call) -> Result<u64, Refusal>
    ensures worked { done (refused result) (view t.new) (gained_by result) ≡ worked (view t.old) (call_in q) }
    ensures kept { OnErr result (t.new ≡ t.old) }
{
    let known = admit(t, q)?;
    if can_give(known.kind) {
        return Ok(give(t, known));
    }
    finish(t, known);
    Ok(0)
}
