// 7: what the call is to make is there already.
ghost use Rattle.std.specs.Prelude.{◌≡◌};
ghost use Rattle.flow.specs.Refusals.{taken};
ghost use Rattle.terms.specs.Kinds.{kind_in};
ghost use Rattle.terms.specs.Calls.{asked};
ghost use Rattle.tracker.specs.View.{view};

use crate::Tracker;
use store::lookups::{in_use, is_bound, is_live, is_open};
use store::numbers::{Container, Descriptor, Name, Process};
use terms::call::KnownCall;
use terms::kind::Kind;

#[tactic(auto, unfolding(flow::specs::Refusals::taken, flow::specs::Box::is_live, flow::specs::Box::is_open, flow::specs::Box::is_bound, flow::specs::Box::descriptor, flow::specs::Box::name, store::specs::Maps::view))]
#[inline(always)]
pub fn holds(t: &Tracker, q: KnownCall) -> bool
    ensures { result ≡ taken (view t.now).tables q.process q.a q.b q.c (kind_in q.kind) }
{
    let p = Process(q.process);
    let used = |c: u8| in_use(&t.words, &t.descriptors, &t.names, Container(c));
    let open = |d: u8| is_open(&t.descriptors, p, Descriptor(d));
    match q.kind {
        Kind::Start => is_live(&t.words, p),
        Kind::OpenName | Kind::Dup => open(q.b),
        Kind::Create => is_bound(&t.names, Name(q.a)) | open(q.b) | used(q.c),
        Kind::Pipe => open(q.a) | open(q.b) | used(q.c),
        Kind::Device => open(q.a),
        Kind::Link => is_bound(&t.names, Name(q.b)),
        Kind::Fork => is_live(&t.words, Process(q.a)),
        _ => false,
    }
}
