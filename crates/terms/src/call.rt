ghost use Rattle.terms.specs.Calls.{IsKnownOf};

use crate::kind::Kind;
use crate::refusal::Refusal;

/// The five bytes of a call. Whoever makes one names them: of an array of five they would be taken by their order.
#[derive(Clone, Copy, Debug, PartialEq, Eq)]
pub struct Call {
    pub kind: u8,
    pub process: u8,
    pub a: u8,
    pub b: u8,
    pub c: u8,
}

/// A call whose kind is known; what its other fields may be goes by the kind.
#[derive(Clone, Copy, Debug, PartialEq, Eq)]
pub struct KnownCall {
    pub kind: Kind,
    pub process: u8,
    pub a: u8,
    pub b: u8,
    pub c: u8,
}

impl TryFrom<Call> for KnownCall {
    type Error = Refusal;

    ghost try_from_gives = { IsKnownOf };

    // Into its callers, as `Kind::try_from`.
    #[inline(always)]
    fn try_from(q: Call) -> Result<Self, Refusal> {
        Ok(KnownCall {
            kind: Kind::try_from(q.kind)?,
            process: q.process,
            a: q.a,
            b: q.b,
            c: q.c,
        })
    }
}
