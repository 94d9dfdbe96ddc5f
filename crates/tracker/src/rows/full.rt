// 17: the count that would rise is at 255 (document 02, Paper 4).
ghost use Rattle.std.specs.Prelude.{◌≡◌};
ghost use Rattle.flow.specs.Refusals.{full};
ghost use Rattle.terms.specs.Calls.{asked};
ghost use Rattle.tracker.specs.View.{view};

use crate::Tracker;
use store::counts::is_full;
use store::lookups::descriptor;
use store::numbers::{Container, Descriptor, Process, Sort};
use terms::call::KnownCall;
use terms::kind::Kind;

#[tactic(auto, unfolding(flow::specs::Refusals::full, flow::specs::Calls::is_kind, flow::specs::Calls::kind_number, flow::specs::Box::descriptor, store::specs::Maps::view))]
#[inline(always)]
pub fn holds(t: &Tracker, q: KnownCall) -> bool
    ensures { result ≡ full (view t.now).tables (asked q) }
{
    let sort = match q.kind {
        Kind::MapRead => Sort::ToRead,
        Kind::MapBoth => Sort::BothWays,
        _ => return false,
    };
    let to = descriptor(&t.descriptors, Process(q.process), Descriptor(q.a));
    is_full(&t.words, sort, Process(q.process), Container(to))
}
