// 10: a device cannot be truncated.
ghost use Rattle.std.specs.Prelude.{◌≡◌};
ghost use Rattle.flow.specs.Refusals.{no_file};
ghost use Rattle.terms.specs.Calls.{asked};
ghost use Rattle.tracker.specs.View.{view};

use crate::Tracker;
use store::limits::DEVICES;
use store::lookups::descriptor;
use store::numbers::{Descriptor, Process};
use terms::call::KnownCall;
use terms::kind::Kind;

#[tactic(auto, unfolding(flow::specs::Refusals::no_file, flow::specs::Calls::is_kind, flow::specs::Calls::kind_number, flow::specs::Box::is_device, flow::specs::Box::descriptor, store::specs::Maps::view))]
#[inline(always)]
pub fn holds(t: &Tracker, q: KnownCall) -> bool
    ensures { result ≡ no_file (view t.now).tables (asked q) }
{
    q.kind == Kind::Truncate
        && descriptor(&t.descriptors, Process(q.process), Descriptor(q.a)) < DEVICES
}
