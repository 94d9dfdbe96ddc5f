// The record at the front of a byte slice (document 01, The records), and how far it goes.
#![tactic(auto)]

ghost use Rattle.std.specs.Prelude.{◌≡◌, ◌+◌, ◌<◌, ◌≤◌, length, IfOk};
ghost use Rattle.flow.specs.Lists.{table_from, first_that};
ghost use Rattle.flow.specs.Records.{byte_at, tag_of, stated_length, cut_short, tag_length, call_from, number_from, rule_with, frame_tests, reading};
ghost use Rattle.terms.specs.Refusals.{refused};
ghost use Rattle.terms.specs.Calls.{call_in};
ghost use Rattle.terms.specs.Rules.{condition_in, rule_in};
ghost use Rattle.records.specs.Tags.{tag_number, end_of, IsTagOf};
ghost use Rattle.records.specs.Reading.{extent_of, header_tests, reading_of};

use terms::call::Call;
use terms::refusal::Refusal;
use terms::rule::{Condition, Rule};

const CALL_TAG: u8 = Tag::Call as u8;

/// What a record's tag says that it has.
#[derive(Clone, Copy, Debug, PartialEq, Eq)]
enum Tag {
    Call = 0x10,
    Forbid = 0x11,
    Separate = 0x12,
    Confine = 0x13,
}

impl TryFrom<u8> for Tag {
    type Error = Refusal;

    ghost try_from_gives = { IsTagOf };

    fn try_from(number: u8) -> Result<Self, Refusal> {
        match number {
            0x10 => Ok(Tag::Call),
            0x11 => Ok(Tag::Forbid),
            0x12 => Ok(Tag::Separate),
            0x13 => Ok(Tag::Confine),
            _ => Err(Refusal::UnknownTag),
        }
    }
}

impl Tag {
    // The length of its value.
    fn length(self) -> u16
        ensures { result ≡ tag_length (tag_number self) }
    {
        match self {
            Tag::Call => 5,
            Tag::Separate => 4,
            Tag::Forbid | Tag::Confine => 11,
        }
    }
}

/// A record that can be read.
#[derive(Clone, Copy, Debug, PartialEq, Eq)]
pub enum Record {
    Call(Call),
    Rule(Rule),
}

// The byte at i, 0 past the end.
fn at(bytes: &[u8], i: usize) -> u8
    ensures { result ≡ byte_at bytes.now i }
{
    bytes.get(i).copied().unwrap_or(0)
}

// The length that the header states.
fn stated_length(bytes: &[u8]) -> u16
    ensures { result ≡ stated_length bytes.now }
{
    u16::from_be_bytes([at(bytes, 1), at(bytes, 2)])
}

// Whether header or value runs past the end.
fn cut_short(bytes: &[u8]) -> bool
    ensures { result ≡ cut_short bytes.now }
{
    bytes.len() < 3 + usize::from(stated_length(bytes))
}

// The tag of this number, if it is one and its length is the one stated.
fn header(number: u8, stated: u16) -> Result<Tag, Refusal>
    ensures refusal { refused result ≡ first_that (header_tests number stated) }
    ensures tag { IfOk result (λ t. tag_number t ≡ number) }
{
    let tag = Tag::try_from(number)?;
    if stated != tag.length() {
        return Err(Refusal::WrongLength);
    }
    Ok(tag)
}

// The tag of a record that none of the three tests refuses: all its bytes are there.
fn frame(bytes: &[u8]) -> Result<Tag, Refusal>
    ensures refusal { refused result ≡ first_that (frame_tests bytes.now) }
    ensures tag { IfOk result (λ t. tag_number t ≡ tag_of bytes.now) }
    ensures whole { IfOk result (λ t. end_of t ≤ length bytes.now) }
{
    if cut_short(bytes) {
        return Err(Refusal::CutShort);
    }
    let number = at(bytes, 0);
    let stated = stated_length(bytes);
    // A call's tag is asked apart, so that the compiler knows its length.
    if number == CALL_TAG {
        return header(CALL_TAG, stated);
    }
    header(number, stated)
}

// The call of a record's five bytes.
fn call(bytes: &[u8]) -> Call
    requires { 8 ≤ length bytes.now }
    ensures { call_in result ≡ call_from (byte_at bytes.now 3) (byte_at bytes.now 4) (byte_at bytes.now 5)
        (byte_at bytes.now 6) (byte_at bytes.now 7) }
{
    Call {
        kind: bytes[3],
        process: bytes[4],
        a: bytes[5],
        b: bytes[6],
        c: bytes[7],
    }
}

// The set of a rule: eight bytes, after header and item.
fn set_of(bytes: &[u8]) -> u64
    requires { 12 ≤ length bytes.now }
    ensures { result ≡ number_from 0 (table_from 8 4 (byte_at bytes.now)) }
{
    // Byte by byte: an array made of a slice is a Result, of which a proof would have to say that it is no error.
    u64::from_be_bytes([
        bytes[4], bytes[5], bytes[6], bytes[7], bytes[8], bytes[9], bytes[10], bytes[11],
    ])
}

// The rule of a condition, whose action and substitute stand at n.
fn rule_with(condition: Condition, bytes: &[u8], n: usize) -> Rule
    requires { n + 1 < length bytes.now }
    ensures { rule_in result ≡ rule_with (condition_in condition) bytes.now n }
{
    Rule {
        condition,
        action: bytes[n],
        substitute: bytes[n + 1],
    }
}

/// The record at the front of the bytes, or why it cannot be read.
pub fn read(bytes: &[u8]) -> Result<Record, Refusal>
    ensures { reading_of result ≡ reading bytes.now }
{
    // In full, so that each tag's bytes stand beside it.
    match frame(bytes)? {
        Tag::Call => Ok(Record::Call(call(bytes))),
        Tag::Forbid => {
            let item = bytes[3];
            let set = set_of(bytes);
            Ok(Record::Rule(rule_with(Condition::Forbid { item, set }, bytes, 12)))
        }
        Tag::Separate => {
            let item = bytes[3];
            let other = u64::from(bytes[4]);
            Ok(Record::Rule(rule_with(Condition::Separate { item, other }, bytes, 5)))
        }
        Tag::Confine => {
            let item = bytes[3];
            let set = set_of(bytes);
            Ok(Record::Rule(rule_with(Condition::Confine { item, set }, bytes, 12)))
        }
    }
}

/// The number of bytes of the record at the front.
pub fn extent(bytes: &[u8]) -> usize
    ensures { result ≡ extent_of bytes.now }
{
    if cut_short(bytes) {
        bytes.len()
    } else {
        3 + usize::from(stated_length(bytes))
    }
}
