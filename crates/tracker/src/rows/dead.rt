// 6: the calling process is not live.
ghost use Rattle.std.specs.Prelude.{◌≡◌};
ghost use Rattle.flow.specs.Refusals.{dead};
ghost use Rattle.terms.specs.Calls.{asked};
ghost use Rattle.tracker.specs.View.{view};

use crate::Tracker;
use store::lookups::is_live;
use store::numbers::Process;
use terms::call::KnownCall;
use terms::kind::Kind;

#[tactic(auto, unfolding(flow::specs::Refusals::dead, flow::specs::Calls::is_kind, flow::specs::Calls::kind_number, flow::specs::Box::is_live, store::specs::Maps::view))]
#[inline(always)]
pub fn holds(t: &Tracker, q: KnownCall) -> bool
    ensures { result ≡ dead (view t.now).tables (asked q) }
{
    match q.kind {
        Kind::Start | Kind::Label => false,
        _ => !is_live(&t.words, Process(q.process)),
    }
}
