// 9: the two descriptors are one.
ghost use Rattle.std.specs.Prelude.{◌≡◌};
ghost use Rattle.flow.specs.Refusals.{same_descriptors};
ghost use Rattle.terms.specs.Calls.{asked};

use terms::call::KnownCall;
use terms::kind::Kind;

#[tactic(auto, unfolding(flow::specs::Refusals::same_descriptors, flow::specs::Calls::is_kind, flow::specs::Calls::kind_number))]
#[inline(always)]
pub fn holds(q: KnownCall) -> bool
    ensures { result ≡ same_descriptors (asked q) }
{
    q.kind == Kind::Pipe && q.a == q.b
}
