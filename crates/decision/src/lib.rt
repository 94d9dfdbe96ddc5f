// The decision point: the rules above the tracker, verdicts, and what a record gets (document 01, What a record gets).
#![tactic(auto)]

pub mod inplace;
pub mod logs;

ghost use Rattle.tracker.specs.Replies.{AnswersHolders};
ghost use Rattle.decision.specs.View.{view};
ghost use Rattle.decision.specs.Logs.{AnswersLog};
ghost use Rattle.decision.specs.Answers.{IsFresh, AnswersRecord, AnswersCall, AnswersItems};

use inplace::{answer_in, call_in, run_in};
use rules::Rules;
use terms::refusal::Refusal;
use tracker::queries::Reply;
use tracker::{Call, Tracker};

// A tracker with its rules: what document 01 calls a tracker. Its layout is C's, for callers that keep it in their own memory.
#[repr(C)]
#[derive(Clone, Copy)]
pub struct Monitor {
    pub tracker: Tracker,
    pub rules: Rules,
}

// What a record gets. Allow and modify end with the set of the containers that gained an item (document 02, Paper 5).
#[derive(Clone, Copy)]
pub enum Answer {
    Refused(Refusal),
    Loaded(u8),
    Allow(u64),
    Inhibit(u8),
    Modify(u8, u8, u64),
}

#[derive(Clone, Copy)]
pub struct Answered {
    pub answer: Answer,
    pub monitor: Monitor,
}

// What a log gets: the number of its answers, or 13 where the lent slice is shorter; and the monitor after it.
#[derive(Clone, Copy)]
pub struct RunResult {
    pub reply: Reply,
    pub monitor: Monitor,
}

// By value, as document 01 has it (The form for each place). What the methods do is done in place.
impl Monitor {
    pub const RULES: u8 = rules::stored::RULE_COUNT;

    // A fresh tracker and no rules.
    pub fn new() -> Monitor
        ensures { IsFresh result }
    {
        Monitor {
            tracker: Tracker::new(),
            rules: Rules::new(),
        }
    }

    // The items of container c.
    pub fn items(self, c: u8) -> Reply
        ensures { AnswersItems self c result }
    {
        self.tracker.items(c)
    }

    // The containers that hold item i, in rising number, at the front of `out`, and how many they are. A refusal leaves `out` as it was.
    pub fn holders(self, i: u8, out: &mut [u16]) -> Reply
        ensures { AnswersHolders (view self) i out.old result out.new }
    {
        self.tracker.holders(i, out)
    }

    // What a call of any five bytes gets.
    pub fn call(self, q: Call) -> Answered
        ensures { AnswersCall self q.kind q.process q.a q.b q.c result }
    {
        let mut monitor = self;
        let answer = call_in(&mut monitor, q);
        Answered { answer, monitor }
    }

    // What the record at the front of the bytes gets.
    pub fn answer(self, bytes: &[u8]) -> Answered
        ensures { AnswersRecord self bytes.now result }
    {
        let mut monitor = self;
        let answer = answer_in(&mut monitor, bytes);
        Answered { answer, monitor }
    }

    // Answers the records of a log in order. Each answer goes to the front of `codes` as a number.
    pub fn run(self, log: &[u8], codes: &mut [u32]) -> RunResult
        ensures { AnswersLog self log.now codes.old result codes.new }
    {
        let mut monitor = self;
        let reply = run_in(&mut monitor, log, codes);
        RunResult { reply, monitor }
    }
}
