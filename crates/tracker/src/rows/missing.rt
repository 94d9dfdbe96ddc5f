// What the call needs is not there (document 02, Papers 2 and 4): 14 descriptor closed, 15 name unbound, 16 no mapping of the named sort to
// unmap, 8 container to label not in use.
ghost use Rattle.std.specs.Prelude.{◌≡◌};
ghost use Rattle.flow.specs.Refusals.{need_of, missing};
ghost use Rattle.terms.specs.Kinds.{kind_in};
ghost use Rattle.terms.specs.Refusals.{refused};
ghost use Rattle.tracker.specs.View.{view};
ghost use Rattle.tracker.specs.Rows.{refused_unless};

use crate::Tracker;
use store::counts::maps;
use store::lookups::{in_use, is_bound, is_open};
use store::numbers::{Container, Descriptor, Name, Process, Sort};
use terms::call::KnownCall;
use terms::kind::Kind;
use terms::refusal::Refusal;

// The refusal, where the thing is not there.
#[tactic(auto, unfolding(crate::specs::Rows::refused_unless))]
fn unless(there: bool, refusal: Refusal) -> Result<(), Refusal>
    ensures { refused result ≡ refused_unless there refusal }
{
    if there {
        return Ok(());
    }
    Err(refusal)
}

// Which of these holds.
#[tactic(auto, using(crate::proofs::Tests::unless_test), unfolding(flow::specs::Refusals::missing, flow::specs::Refusals::need_of, flow::specs::Box::is_open, flow::specs::Box::is_bound, flow::specs::Box::descriptor, flow::specs::Box::name, store::specs::Maps::view))]
#[inline(always)]
pub fn test(t: &Tracker, q: KnownCall) -> Result<(), Refusal>
    ensures { refused result ≡ missing (view t.now).tables q.process q.a q.b (need_of (kind_in q.kind)) }
{
    let p = Process(q.process);
    match q.kind {
        Kind::OpenName | Kind::Unlink | Kind::Rename | Kind::Link => unless(
            is_bound(&t.names, Name(q.a)),
            Refusal::NameUnbound,
        ),
        Kind::Dup
        | Kind::Close
        | Kind::Read
        | Kind::Write
        | Kind::Truncate
        | Kind::MapRead
        | Kind::MapBoth => unless(
            is_open(&t.descriptors, p, Descriptor(q.a)),
            Refusal::DescriptorClosed,
        ),
        Kind::Unmap => unless(
            maps(&t.words, Sort::from(q.b), p, Container(q.a)),
            Refusal::NoLink,
        ),
        Kind::Label => unless(
            in_use(&t.words, &t.descriptors, &t.names, Container(q.a)),
            Refusal::Missing,
        ),
        _ => Ok(()),
    }
}
