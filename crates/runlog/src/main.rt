// Runs a log (document 01, Runs to check, B). Standard input is the log, at most 65,536 bytes; above that only `log too long` is written. A
// line is written for each record: the word of its answer, then the numbers. Lines that cannot be written are said to be lost.
#![tactic(auto)]

mod words;

ghost use Rattle.std.specs.Prelude.{◌≡◌, ℕ, ◌≤◌, length, take};
ghost use Rattle.flow.specs.Box.{log_limit, fresh};
ghost use Rattle.flow.specs.Verdicts.{run_log};
ghost use Rattle.flow.specs.Queries.{result as result_word};
ghost use Rattle.tracker.specs.Replies.{reply_of};
ghost use Rattle.decision.specs.Logs.{codes_of};
ghost use Rattle.runlog.specs.Limits.{record_limit};

use console::{Line, read_full};
use decision::Monitor;
use std::io::{Read, Result};
use tracker::queries::Reply;
use words::Told;

// Writes a line for each answer.
fn print_answers(rt: &impl Print, codes: &[u32]) -> Result<()> {
    let mut lines = Line::<4096>::new();
    for code in codes {
        Told::from(*code).add_to(&mut lines);
        if 4000 < lines.bytes.len() {
            rt.write_all(lines.bytes.as_slice())?;
            lines.bytes.clear();
        }
    }
    rt.write_all(lines.bytes.as_slice())
}

// The number of answers.
fn number(reply: Reply) -> usize
    ensures { (n : ℕ) → reply_of reply ≡ result_word n → result ≡ n }
{
    reply.unwrap_or(0) as usize
}

// The answers to the records of a log on a fresh monitor, at the front of `codes`, and how many they are.
fn answers(log: &[u8], codes: &mut [u32]) -> usize
    ensures { length log.now ≤ log_limit → record_limit ≤ length codes.old → take result codes.new ≡ codes_of (run_log fresh log.now).answers }
{
    let m = Monitor::new();
    let ran = m.run(log, codes);
    let reply = ran.reply;
    number(reply)
}

// Whether the input goes on after the 65,536 bytes that were read.
fn goes_on<R: Read>(input: &mut R, n: usize) -> bool {
    if n < 65536 {
        return false;
    }
    let mut more = [0u8; 1];
    read_full(input, &mut more) != 0
}

// Reads the log and writes what it gets.
fn run<R: Read>(rt: &impl Print, input: &mut R) -> Result<()> {
    let mut log = [0u8; 65536];
    let n = read_full(input, &mut log);
    if goes_on(input, n) {
        return rt.write_all(b"log too long\n");
    }
    // A log of 65,536 bytes has at most 21,846 records.
    let mut codes = [0u32; 21846];
    let k = answers(&log[..n], &mut codes);
    if k <= 21846 {
        print_answers(rt, &codes[..k])?;
    }
    Ok(())
}

fn main(rt: HostRuntime) {
    // The exit status stays 0.
    if run(&rt, &mut rt.stdin()).is_err() {
        let _ = rt.eprintln("runlog: standard output was not written whole: answers are lost");
    }
}
