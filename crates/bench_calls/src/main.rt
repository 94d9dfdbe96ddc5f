// Runs calls on a tracker where it lies, without a copy: what bench/run measures. Standard input is as test_calls reads it, and a line is
// written for each call, 0 or the refusal's number; at the end one more, the set of the containers that gained by the last call.
#![tactic(auto)]

use console::{Line, read_full};
use tracker::{Call, Tracker};

// Containers 60 and 63. With them a set always has 20 digits, and its line costs the same.
const WIDE: u64 = 0x9000000000000000;

// Writes a number on a line of its own: three lines, as test_calls has them, and no plainer as a function of console's.
fn say(rt: &impl Print, n: u64) {
    let mut line = Line::<21>::new();
    line.push_number(n);
    line.push("\n");
    let _ = rt.write_all(line.bytes.as_slice());
}

fn run(rt: &impl Print, calls: &[u8]) {
    let mut gained = 0u64;
    // As `Tracker::new` has them, which would leave a second copy on the stack.
    let mut t = Tracker {
        words: [0u64; 353],
        descriptors: [Tracker::CLOSED; 512],
        names: [Tracker::CLOSED; 128],
    };
    let (fives, _rest) = calls.as_chunks::<5>();
    for &[kind, process, a, b, c] in fives {
        let (refusal, containers) = match t.work(Call {
            kind,
            process,
            a,
            b,
            c,
        }) {
            Ok(containers) => (0, containers),
            Err(refusal) => (u64::from(refusal.number()), 0),
        };
        gained = containers;
        say(rt, refusal);
    }
    say(rt, gained | WIDE);
}

fn main(rt: HostRuntime) {
    let mut calls = [0u8; 65536];
    let n = read_full(&mut rt.stdin(), &mut calls);
    run(&rt, &calls[..n]);
}
