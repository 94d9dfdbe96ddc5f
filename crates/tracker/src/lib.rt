// The tracker (the information point): which items lie in which container, how often each process maps which containers, which names and
// descriptors lead where. It makes the changes of document 01's calls, refuses what the table of refusals refuses, and answers the two queries.
// No rule is judged here.
#![tactic(auto)]

pub mod calls;
pub mod giving;
pub mod plan;
pub mod queries;
mod release;
pub mod rows;
mod tables;

ghost use Rattle.std.specs.Prelude.{◌≡◌, List, [], OnErr};
ghost use Rattle.flow.specs.Box.{Rule, fresh};
ghost use Rattle.flow.specs.Queries.{items_query};
ghost use Rattle.terms.specs.Calls.{call_in};
ghost use Rattle.terms.specs.Refusals.{refused};
ghost use Rattle.tracker.specs.View.{view, state};
ghost use Rattle.tracker.specs.Replies.{reply_of, AnswersHolders};
ghost use Rattle.tracker.specs.Calling.{AnswersCall, gained_by};
ghost use Rattle.tracker.specs.Worked.{done, worked};

use queries::Reply;
use store::limits;
pub use terms::call::Call;
use terms::refusal::Refusal;

// The maps. The rules are kept by the layer above. Its layout is C's, for callers that keep it in their own memory.
#[repr(C)]
#[derive(Clone, Copy)]
pub struct Tracker {
    pub words: [u64; 353],
    pub descriptors: [u8; 512],
    pub names: [u8; 128],
}

// What a call gets here: its change is made, with the containers that gained (document 02, Paper 5), or it is refused.
#[derive(Clone, Copy)]
pub struct Called {
    pub work: Result<u64, Refusal>,
    pub tracker: Tracker,
}

// By value, as document 01 has it (The form for each place), but for `work`. What the methods do is done in place.
impl Tracker {
    pub const CONTAINERS: u8 = limits::CONTAINERS;

    pub const PROCESSES: u8 = limits::PROCESSES;

    // Of all processes.
    pub const DESCRIPTORS: usize = 512;

    pub const NAMES: u8 = limits::NAMES;

    pub const CLOSED: u8 = limits::CLOSED;

    // A fresh tracker: every descriptor closed, every name unbound, nothing else.
    pub fn new() -> Tracker
        ensures { state (view result) [] ≡ fresh }
    {
        Tracker {
            words: [0u64; 353],
            descriptors: [Tracker::CLOSED; 512],
            names: [Tracker::CLOSED; 128],
        }
    }

    // The items of container c.
    pub fn items(self, c: u8) -> Reply
        ensures { (rules : List Rule) → reply_of result ≡ items_query (state (view self) rules) c }
    {
        queries::items_in(&self.words, c)
    }

    // The containers that hold item i, in rising number, at the front of `out`, and how many they are. A refusal leaves `out` as it was.
    pub fn holders(self, i: u8, out: &mut [u16]) -> Reply
        ensures { (rules : List Rule) → AnswersHolders (state (view self) rules) i out.old result out.new }
    {
        queries::holders_in(&self.words, i, out)
    }

    // A call of any five bytes, in place: refused, or its change is made. Answers the containers that gained.
    pub fn work(&mut self, q: Call) -> Result<u64, Refusal>
        ensures worked { done (refused result) (view self.new) (gained_by result) ≡ worked (view self.old) (call_in q) }
        ensures kept { OnErr result (self.new ≡ self.old) }
    {
        calls::work(self, q)
    }

    // The same by value.
    pub fn call(self, q: Call) -> Called
        ensures { AnswersCall self (call_in q) result }
    {
        let mut tracker = self;
        let work = tracker.work(q);
        Called { work, tracker }
    }
}
