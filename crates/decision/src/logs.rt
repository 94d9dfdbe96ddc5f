// A whole log: how many records it has, and answers as numbers.
ghost use Rattle.std.specs.Prelude.{◌≤◌, ◌≡◌, leb, length};
ghost use Rattle.sets.specs.Sets.{members};
ghost use Rattle.flow.specs.Box.{container_count};
ghost use Rattle.flow.specs.Records.{records_of};
ghost use Rattle.flow.specs.Verdicts.{refused};
ghost use Rattle.decision.specs.Answers.{word_of};
ghost use Rattle.decision.specs.Logs.{code_of};

use crate::Answer;
use logreader::LogReader;

// The number of records in a log.
fn records_in(log: &[u8]) -> usize
    ensures { result ≡ length (records_of log.now) }
{
    LogReader::new(log).count()
}

// Whether there is room for one code a record. A record is at least three bytes long, but for the last; where that is not enough to know,
// they are counted.
pub fn has_room(log: &[u8], room: usize) -> bool
    ensures { result ≡ leb (length (records_of log.now)) room }
{
    if log.len() / 3 < room {
        return true;
    }
    records_in(log) <= room
}

// How many members a set has: most often none or one, which is found sooner than by counting.
fn size(x: u64) -> u32
    ensures { (result ≡ length (members x)) × (result ≤ container_count) }
{
    if x == 0 {
        return 0;
    }
    let more = sets::rest(x);
    if more == 0 {
        return 1;
    }
    1 + sets::count(more)
}

// The code of a refusal by its number, whichever number it is.
#[tactic(auto, unfolding(crate::specs::Logs::code_of))]
pub fn refused_code(n: u8) -> u32
    ensures { result ≡ code_of (refused n) }
{
    4 + 256 * (n as u32)
}

// An answer as a number, since C has no such enum. The sums are those of `code_of`.
pub fn code(answer: Answer) -> u32
    ensures { result ≡ code_of (word_of answer) }
{
    match answer {
        Answer::Allow(g) => 16777216 * size(g),
        Answer::Inhibit(n) => 1 + 256 * (n as u32),
        Answer::Modify(n, c, g) => 2 + 256 * (n as u32) + 65536 * (c as u32) + 16777216 * size(g),
        Answer::Loaded(n) => 3 + 256 * (n as u32),
        Answer::Refused(refusal) => refused_code(refusal.number()),
    }
}

impl From<Answer> for u32 {
    ghost from_gives = { λ answer n. n ≡ code_of (word_of answer) };

    fn from(answer: Answer) -> u32 {
        code(answer)
    }
}
