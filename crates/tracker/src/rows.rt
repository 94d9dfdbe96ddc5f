// The table of refusals (document 01, What a record gets; document 02, Papers 2 and 4): the tests 4 to 10 of a call, with 14 to 16 in 8's
// place, and 17, each place by a row of its own. The rows are compiled into each place that asks them, so that of each the compiler keeps what a
// call's kind is asked.
mod dead;
mod full;
mod missing;
mod no_file;
mod same;
mod taken;

ghost use Rattle.std.specs.Prelude.{◌≡◌, IfOk};
ghost use Rattle.std.proofs.Math.Option.{some};
ghost use Rattle.flow.specs.Lists.{first_that};
ghost use Rattle.flow.specs.Refusals.{call_tests, ranges, fields_fit};
ghost use Rattle.terms.specs.Calls.{call_in, asked};
ghost use Rattle.terms.specs.Kinds.{kind_in};
ghost use Rattle.terms.specs.Refusals.{refused};
ghost use Rattle.tracker.specs.View.{view};
ghost use Rattle.tracker.specs.Rows.{asked_as};

use crate::Tracker;
use store::limits::{CONTAINERS, DESCRIPTORS, DEVICES, FIRST_FILE, ITEMS, NAMES, PROCESSES, SORTS};
use terms::call::{Call, KnownCall};
use terms::kind::Kind;
use terms::refusal::Refusal;

// 5: whether the fields are in their ranges: by comparisons joined by &, so that none of them is a branch.
#[tactic(auto, unfolding(flow::specs::Refusals::fields_fit, flow::specs::Refusals::ranges, flow::specs::Refusals::in_range, flow::specs::Box::is_file))]
#[inline(always)]
fn fits(q: KnownCall) -> bool
    ensures { result ≡ fields_fit (ranges (kind_in q.kind)) (asked q) }
{
    let p = q.process;
    let a = q.a;
    let b = q.b;
    let c = q.c;
    match q.kind {
        Kind::Start | Kind::Exit => (p < PROCESSES) & (a == 0) & (b == 0) & (c == 0),
        Kind::OpenName => (p < PROCESSES) & (a < NAMES) & (b < DESCRIPTORS) & (c == 0),
        Kind::Create => (p < PROCESSES)
            & (a < NAMES)
            & (b < DESCRIPTORS)
            & ((FIRST_FILE <= c) & (c < CONTAINERS)),
        Kind::Pipe => (p < PROCESSES)
            & (a < DESCRIPTORS)
            & (b < DESCRIPTORS)
            & ((FIRST_FILE <= c) & (c < CONTAINERS)),
        Kind::Device => (p < PROCESSES) & (a < DESCRIPTORS) & (b < DEVICES) & (c == 0),
        Kind::Dup => (p < PROCESSES) & (a < DESCRIPTORS) & (b < DESCRIPTORS) & (c == 0),
        Kind::Close | Kind::Read | Kind::Write | Kind::Truncate | Kind::MapRead | Kind::MapBoth =>
            (p < PROCESSES) & (a < DESCRIPTORS) & (b == 0) & (c == 0),
        Kind::Unmap => (p < PROCESSES) & (a < CONTAINERS) & (b < SORTS) & (c == 0),
        Kind::Unlink => (p < PROCESSES) & (a < NAMES) & (b == 0) & (c == 0),
        // In this order, so that the compiler keeps what it knows of either name.
        Kind::Rename | Kind::Link => (p < PROCESSES) & (a < NAMES) & (c == 0) & (b < NAMES),
        Kind::Fork => (p < PROCESSES) & (a < PROCESSES) & (b == 0) & (c == 0),
        Kind::Label => (p == 0) & (a < CONTAINERS) & (b < ITEMS) & (c == 0),
    }
}

// The first of these tests that holds of a call, were it of this kind.
#[tactic(auto, using(crate::proofs::Tests::five_first, crate::proofs::Tests::six_first, crate::proofs::Tests::seven_first, crate::proofs::Tests::missing_first, crate::proofs::Tests::nine_first, crate::proofs::Tests::ten_first, crate::proofs::Tests::seventeen_first, crate::proofs::Tests::none_first))]
#[inline(always)]
fn test_as(t: &Tracker, kind: Kind, q: KnownCall) -> Result<(), Refusal>
    ensures { refused result ≡ first_that (call_tests (view t.now).tables (some (asked_as kind q))) }
{
    let q = KnownCall { kind, ..q };
    if !fits(q) {
        return Err(Refusal::OutOfRange);
    }
    if dead::holds(t, q) {
        return Err(Refusal::DeadProcess);
    }
    if taken::holds(t, q) {
        return Err(Refusal::Taken);
    }
    missing::test(t, q)?;
    if same::holds(q) {
        return Err(Refusal::SameTwice);
    }
    if no_file::holds(t, q) {
        return Err(Refusal::NoFile);
    }
    if full::holds(t, q) {
        return Err(Refusal::CountFull);
    }
    Ok(())
}

// The same of its own kind. Each arm names it, a constant: to test by q.kind alone costs calls 10 to 50 instructions more.
fn test(t: &Tracker, q: KnownCall) -> Result<(), Refusal>
    ensures { refused result ≡ first_that (call_tests (view t.now).tables (some (asked q))) }
{
    match q.kind {
        Kind::Start => test_as(t, Kind::Start, q),
        Kind::OpenName => test_as(t, Kind::OpenName, q),
        Kind::Create => test_as(t, Kind::Create, q),
        Kind::Pipe => test_as(t, Kind::Pipe, q),
        Kind::Device => test_as(t, Kind::Device, q),
        Kind::Dup => test_as(t, Kind::Dup, q),
        Kind::Close => test_as(t, Kind::Close, q),
        Kind::Read => test_as(t, Kind::Read, q),
        Kind::Write => test_as(t, Kind::Write, q),
        Kind::Truncate => test_as(t, Kind::Truncate, q),
        Kind::MapRead => test_as(t, Kind::MapRead, q),
        Kind::MapBoth => test_as(t, Kind::MapBoth, q),
        Kind::Unmap => test_as(t, Kind::Unmap, q),
        Kind::Unlink => test_as(t, Kind::Unlink, q),
        Kind::Rename => test_as(t, Kind::Rename, q),
        Kind::Link => test_as(t, Kind::Link, q),
        Kind::Fork => test_as(t, Kind::Fork, q),
        Kind::Exit => test_as(t, Kind::Exit, q),
        Kind::Label => test_as(t, Kind::Label, q),
    }
}

// The call, its kind known, where none of the tests holds.
pub fn admit(t: &Tracker, q: Call) -> Result<KnownCall, Refusal>
    ensures tested { refused result ≡ first_that (call_tests (view t.now).tables (call_in q)) }
    ensures known { IfOk result (λ k. call_in q ≡ some (asked k)) }
{
    let known = KnownCall::try_from(q)?;
    test(t, known)?;
    Ok(known)
}
