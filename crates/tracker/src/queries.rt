// The two queries (document 01, What a record gets): the items of a container as a 64-bit set, and the holders of an item, whose numbers go
// into a lent slice (document 02, Paper 1: in rising order).
ghost use Rattle.std.specs.Prelude.{ℕ, ◌%◌, ◌≤◌, ◌≡◌, List, ◌++◌, length, drop};
ghost use Rattle.sets.specs.Sets.{those, members, count};
ghost use Rattle.flow.specs.Box.{Rule, holds};
ghost use Rattle.flow.specs.Queries.{items_query};
ghost use Rattle.store.specs.Maps.{view};
ghost use Rattle.tracker.specs.View.{state};
ghost use Rattle.tracker.specs.Replies.{reply_of, with_holder, AnswersHolders};

use store::limits::{CONTAINERS, ITEMS};
use store::lookups::items;
use store::numbers::Container;
use terms::refusal::Refusal;

// The result, or why there is none.
pub type Reply = Result<u64, Refusal>;

// The items of container c.
#[tactic(auto, unfolding(crate::specs::Replies::reply_of, flow::specs::Queries::items_query, store::specs::Maps::view, flow::specs::Box::items_of))]
pub fn items_in(words: &[u64; 353], c: u8) -> Reply
    ensures { (d n : List ℕ) (rules : List Rule) → reply_of result ≡ items_query (state (view words.now d n) rules) c }
{
    if c < CONTAINERS {
        return Ok(items(words, Container(c)));
    }
    Err(Refusal::OutOfRange)
}

// x, with container c where its items have item i.
#[tactic(auto, unfolding(crate::specs::Replies::with_holder))]
fn with_holder(x: u64, held: u64, i: u8, c: u8) -> u64
    ensures { result ≡ with_holder x held (i % 64) (c % 64) }
{
    if sets::member(held, i) {
        sets::with(x, c)
    } else {
        x
    }
}

// The containers that hold item i. By a loop: a fold would carry the same set through a closure.
fn holder_set(words: &[u64; 353], i: u8) -> u64
    ensures { (d n : List ℕ) (rules : List Rule) → result ≡ those (λ c. holds (state (view words.now d n) rules) c (i % 64)) }
{
    let mut x = 0;
    for c in 0u8..CONTAINERS {
        let held = items(words, Container(c));
        x = with_holder(x, held, i, c);
    }
    x
}

// The members of x, in rising order, at the front of `out`, which has room for them.
fn fill(x: u64, out: &mut [u16])
    requires { count x ≤ length out.old }
    ensures { out.new ≡ members x ++ drop (count x) out.old }
{
    for (n, c) in sets::each(x).enumerate() {
        out[n] = u16::from(c);
    }
}

// The containers that hold item i, in rising number, at the front of `out`, and how many they are. A refusal leaves `out` as it was.
pub fn holders_in(words: &[u64; 353], i: u8, out: &mut [u16]) -> Reply
    ensures { (d n : List ℕ) (rules : List Rule) → AnswersHolders (state (view words.now d n) rules) i out.old result out.new }
{
    if ITEMS <= i {
        return Err(Refusal::OutOfRange);
    }
    let x = holder_set(words, i);
    let n = sets::count(x) as u64;
    if (out.len() as u64) < n {
        return Err(Refusal::SliceShort);
    }
    fill(x, out);
    Ok(n)
}
