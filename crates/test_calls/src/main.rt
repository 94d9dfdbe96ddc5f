// Runs calls on a fresh tracker. Standard input, at most 65,536 bytes of it, is calls of five bytes each: kind, process, a, b, c; what is
// left over is ignored. It writes a line for each call: 0 and the set of the containers that gained, as a number, or the refusal's number. Then
// come each container's items as a number, and for each item how many containers hold it, and which.
#![tactic(auto)]

ghost use Rattle.std.specs.Prelude.{◌≡◌, ◌/◌, length};
ghost use Rattle.tracker.specs.View.{view};
ghost use Rattle.test_calls.specs.Calls.{after_calls};

use console::{Line, read_full};
use terms::refusal::Refusal;
use tracker::queries::Reply;
use tracker::{Call, Tracker};

// Ends the line and writes it.
fn write_line<const N: usize>(rt: &impl Print, mut line: Line<N>) {
    line.push("\n");
    let _ = rt.write_all(line.bytes.as_slice());
}

// Writes a number on a line of its own.
fn print_number(rt: &impl Print, n: u64) {
    let mut line = Line::<21>::new();
    line.push_number(n);
    write_line(rt, line);
}

// Writes what a call got: 0 and the set of those that gained once its change is made, or the refusal's number.
fn print_work(rt: &impl Print, work: Result<u64, Refusal>) {
    match work {
        Ok(gained) => {
            let mut line = Line::<24>::new();
            line.push("0 ");
            line.push_number(gained);
            write_line(rt, line);
        }
        Err(refusal) => print_number(rt, u64::from(refusal.number())),
    }
}

// A query's answer as a number, as its line has it: a refusal's number where there is none.
fn answer(reply: Reply) -> u64 {
    reply.unwrap_or_else(|refusal| u64::from(refusal.number()))
}

// Runs the calls, with a line for each, and answers the tracker after them.
fn run(rt: &impl Print, calls: &[u8]) -> Tracker
    ensures { view result ≡ after_calls (length calls.now / 5) calls.now }
{
    let mut t = Tracker::new();
    let (fives, _rest) = calls.as_chunks::<5>();
    for &[kind, process, a, b, c] in fives {
        let called = t.call(Call {
            kind,
            process,
            a,
            b,
            c,
        });
        t = called.tracker;
        print_work(rt, called.work);
    }
    t
}

// Writes the items of each container.
fn print_items(rt: &impl Print, t: Tracker) {
    for c in 0u8..64 {
        print_number(rt, answer(t.items(c)));
    }
}

// Writes how many containers hold item i, and which.
fn print_holders_of(rt: &impl Print, t: Tracker, i: u8) {
    let mut found = [0u16; 64];
    let n = answer(t.holders(i, &mut found));
    let mut line = Line::<256>::new();
    line.push_number(n);
    for holder in found.iter().take(n as usize) {
        line.push(" ");
        line.push_number(u64::from(*holder));
    }
    write_line(rt, line);
}

// Writes the holders of each item.
fn print_holders(rt: &impl Print, t: Tracker) {
    for i in 0u8..64 {
        print_holders_of(rt, t, i);
    }
}

fn main(rt: HostRuntime) {
    let mut calls = [0u8; 65536];
    let n = read_full(&mut rt.stdin(), &mut calls);
    let t = run(&rt, &calls[..n]);
    print_items(&rt, t);
    print_holders(&rt, t);
}
