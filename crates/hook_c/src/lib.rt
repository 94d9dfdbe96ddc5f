// The functions of `hook` under the names that C calls them by (embed/pomtvia.h), for the archive libhook.a. Each promises what it promises there.
#![tactic(auto)]

ghost use Rattle.std.specs.Prelude.{◌≡◌};
ghost use Rattle.logreader.specs.Log.{end_after};
ghost use Rattle.decision.specs.Answers.{IsFresh, AnswersRecord, AnswersCall};
ghost use Rattle.decision.specs.Logs.{Coded};
ghost use Rattle.hook.specs.Codes.{AnswersLogGiven, ItemsGiven, HoldersGiven};

use decision::Monitor;

// Makes a fresh monitor without rules.
#[unsafe(no_mangle)]
pub extern "C" fn pomtvia_new(m: &mut Monitor)
    ensures { IsFresh m.new }
{
    hook::pomtvia_new(m)
}

// What a call of any five bytes gets.
#[unsafe(no_mangle)]
pub extern "C" fn pomtvia_call(m: &mut Monitor, kind: u8, p: u8, a: u8, b: u8, c: u8) -> u32
    ensures { Coded (AnswersCall m.old kind p a b c) result m.new }
{
    hook::pomtvia_call(m, kind, p, a, b, c)
}

// What the record at the front of the bytes gets.
#[unsafe(no_mangle)]
pub extern "C" fn pomtvia_answer_in(m: &mut Monitor, bytes: &[u8]) -> u32
    ensures { Coded (AnswersRecord m.old bytes.now) result m.new }
{
    hook::pomtvia_answer_in(m, bytes)
}

// Answers the records of a log in order: the codes at the front of `codes`, their number in `count`. 13 where `codes` is too short.
#[unsafe(no_mangle)]
pub extern "C" fn pomtvia_run_in(
    m: &mut Monitor,
    log: &[u8],
    codes: &mut [u32],
    count: &mut u64,
) -> u8
    ensures { AnswersLogGiven m.old log.now codes.old count.old result m.new codes.new count.new }
{
    hook::pomtvia_run_in(m, log, codes, count)
}

// The items of container c, as a set.
#[unsafe(no_mangle)]
pub extern "C" fn pomtvia_items(m: &Monitor, c: u8, set: &mut u64) -> u8
    ensures { ItemsGiven m.now c set.old result set.new }
{
    hook::pomtvia_items(m, c, set)
}

// The containers that hold item i, in rising number, at the front of `out`, and in `count` how many they are. 13 where `out` is too short.
#[unsafe(no_mangle)]
pub extern "C" fn pomtvia_holders_in(m: &Monitor, i: u8, out: &mut [u16], count: &mut u64) -> u8
    ensures { HoldersGiven m.now i out.old count.old result out.new count.new }
{
    hook::pomtvia_holders_in(m, i, out, count)
}

// The place after the record at a place of a log, and that place itself at the log's end.
#[unsafe(no_mangle)]
pub extern "C" fn pomtvia_next(log: &[u8], at: usize) -> usize
    ensures { result ≡ end_after log.now at }
{
    hook::pomtvia_next(log, at)
}

// What a call gets, as its code. A refused or inhibited call leaves the monitor as it was.
#[unsafe(no_mangle)]
pub extern "C" fn pomtvia_on_call(m: &mut Monitor, kind: u8, p: u8, a: u8, b: u8, c: u8) -> u32
    ensures { Coded (AnswersCall m.old kind p a b c) result m.new }
{
    hook::pomtvia_on_call(m, kind, p, a, b, c)
}
