// A log reader (document 01, The form for each place): a reference to its log and a place in it.
#![tactic(auto)]

ghost use Rattle.std.specs.Prelude.{◌≡◌};
ghost use Rattle.std.specs.Iterator.{YieldsFirstRef, item_count};
ghost use Rattle.logreader.specs.Log.{record_at, end_after};
ghost use Rattle.logreader.specs.Rest.{rest};

use records::extent;

/// A log, and how far it is read. It gives the records from its place on, one after the other.
#[derive(Clone, Copy)]
pub struct LogReader<'a> {
    pub log: &'a [u8],
    pub at: usize,
}

/// Where the record at a place of a log ends, none at the log's end.
pub fn record_at(log: &[u8], at: usize) -> Option<usize>
    ensures { result ≡ record_at log.now at }
{
    if log.len() <= at {
        return None;
    }
    Some(at + extent(&log[at..]))
}

impl<'a> LogReader<'a> {
    /// A reader at the log's start.
    pub fn new(log: &'a [u8]) -> LogReader<'a>
        ensures { (result.log ≡ log.entry) × (result.at ≡ 0) }
    {
        LogReader { log, at: 0 }
    }

    /// The reader with its place moved.
    pub fn moved(self, at: usize) -> LogReader<'a>
        ensures { (result.log ≡ self.entry.log) × (result.at ≡ at) }
    {
        LogReader { log: self.log, at }
    }

    /// Where the record at its place ends, none at the log's end.
    pub fn next_end(self) -> Option<usize>
        ensures { result ≡ record_at self.entry.log.now self.entry.at }
    {
        record_at(self.log, self.at)
    }
}

impl<'a> Iterator for LogReader<'a> {
    type Item = &'a [u8];

    ghost next_gives = { YieldsFirstRef rest };

    ghost remaining = { item_count rest };

    fn next(&mut self) -> Option<&'a [u8]> {
        let LogReader { log, at } = *self;
        let end = record_at(log, at)?;
        self.at = end;
        Some(&log[at..end])
    }
}

/// Where the record at a place of a log ends: as record_at, through a reader, the form that document 01 asks for.
pub fn next_at(log: &[u8], at: usize) -> Option<usize>
    ensures { result ≡ record_at log.now at }
{
    LogReader::new(log).moved(at).next_end()
}

/// Where the record at a place of a log ends, and that place itself at the log's end.
pub fn end_after(log: &[u8], at: usize) -> usize
    ensures { result ≡ end_after log.now at }
{
    next_at(log, at).unwrap_or(at)
}
