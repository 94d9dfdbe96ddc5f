// What a kernel links: functions on a `struct pomtvia_monitor` of the caller's (embed/pomtvia.h), which `hook_c` exports to C. They work on it
// where it lies and copy nothing. Beside them the hook of document 01 (The form for each place): the kernel keeps one monitor and lends it for
// each call; the covered step's result is stored back into it. An answer is its code.
#![tactic(auto)]

ghost use Rattle.logreader.specs.Log.{end_after};
ghost use Rattle.std.specs.Prelude.{◌≡◌};
ghost use Rattle.tracker.specs.Replies.{reply_of};
ghost use Rattle.decision.specs.Answers.{IsFresh, AnswersRecord, AnswersCall};
ghost use Rattle.decision.specs.Logs.{Coded};
ghost use Rattle.hook.specs.Codes.{Given, AnswersLogGiven, ItemsGiven, HoldersGiven};

use decision::Monitor;
use decision::inplace::{answer_code, call_code, renew, run_in};
use logreader::end_after;
use tracker::Call;
use tracker::queries::{Reply, holders_in, items_in};

// A reply in two numbers, for C: 0 with the result in `out`, or the refusal's number, with `out` as it was.
fn give(reply: Reply, out: &mut u64) -> u8
    ensures { Given (reply_of reply) out.old result out.new }
{
    match reply {
        Ok(x) => {
            *out = x;
            0
        }
        Err(refusal) => refusal.number(),
    }
}

// Makes a fresh monitor without rules.
pub fn pomtvia_new(m: &mut Monitor)
    ensures { IsFresh m.new }
{
    renew(m)
}

// What a call of any five bytes gets.
pub fn pomtvia_call(m: &mut Monitor, kind: u8, p: u8, a: u8, b: u8, c: u8) -> u32
    ensures { Coded (AnswersCall m.old kind p a b c) result m.new }
{
    call_code(
        m,
        Call {
            kind,
            process: p,
            a,
            b,
            c,
        },
    )
}

// What the record at the front of the bytes gets.
pub fn pomtvia_answer_in(m: &mut Monitor, bytes: &[u8]) -> u32
    ensures { Coded (AnswersRecord m.old bytes.now) result m.new }
{
    answer_code(m, bytes)
}

// Answers the records of a log in order: the codes at the front of `codes`, their number in `count`. 13 where `codes` is too short.
pub fn pomtvia_run_in(m: &mut Monitor, log: &[u8], codes: &mut [u32], count: &mut u64) -> u8
    ensures { AnswersLogGiven m.old log.now codes.old count.old result m.new codes.new count.new }
{
    give(run_in(m, log, codes), count)
}

// The items of container c, as a set.
pub fn pomtvia_items(m: &Monitor, c: u8, set: &mut u64) -> u8
    ensures { ItemsGiven m.now c set.old result set.new }
{
    give(items_in(&m.tracker.words, c), set)
}

// The containers that hold item i, in rising number, at the front of `out`, and in `count` how many they are. 13 where `out` is too short.
pub fn pomtvia_holders_in(m: &Monitor, i: u8, out: &mut [u16], count: &mut u64) -> u8
    ensures { HoldersGiven m.now i out.old count.old result out.new count.new }
{
    give(holders_in(&m.tracker.words, i, out), count)
}

// The place after the record at a place of a log, and that place itself at the log's end.
pub fn pomtvia_next(log: &[u8], at: usize) -> usize
    ensures { result ≡ end_after log.now at }
{
    end_after(log, at)
}

// What a call gets, as its code. A refused or inhibited call leaves the monitor as it was. By value: the covered step's result is stored back.
pub fn pomtvia_on_call(m: &mut Monitor, kind: u8, p: u8, a: u8, b: u8, c: u8) -> u32
    ensures { Coded (AnswersCall m.old kind p a b c) result m.new }
{
    let mut monitor = *m;
    let code = pomtvia_call(&mut monitor, kind, p, a, b, c);
    *m = monitor;
    code
}
