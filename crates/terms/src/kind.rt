ghost use Rattle.terms.specs.Kinds.{IsKindOf};

use crate::refusal::Refusal;

/// What a call asks for, by the number of its kind (document 01, The records).
#[derive(Clone, Copy, Debug, PartialEq, Eq)]
pub enum Kind {
    Start = 1,
    OpenName = 2,
    Create = 3,
    Pipe = 4,
    Device = 5,
    Dup = 6,
    Close = 7,
    Read = 8,
    Write = 9,
    Truncate = 10,
    MapRead = 11,
    MapBoth = 12,
    Unmap = 13,
    Unlink = 14,
    Rename = 15,
    Link = 16,
    Fork = 17,
    Exit = 18,
    Label = 19,
}

impl TryFrom<u8> for Kind {
    type Error = Refusal;

    ghost try_from_gives = { IsKindOf };

    // Into its callers, so that the compiler knows the kind there.
    #[inline(always)]
    fn try_from(number: u8) -> Result<Self, Refusal> {
        match number {
            1 => Ok(Kind::Start),
            2 => Ok(Kind::OpenName),
            3 => Ok(Kind::Create),
            4 => Ok(Kind::Pipe),
            5 => Ok(Kind::Device),
            6 => Ok(Kind::Dup),
            7 => Ok(Kind::Close),
            8 => Ok(Kind::Read),
            9 => Ok(Kind::Write),
            10 => Ok(Kind::Truncate),
            11 => Ok(Kind::MapRead),
            12 => Ok(Kind::MapBoth),
            13 => Ok(Kind::Unmap),
            14 => Ok(Kind::Unlink),
            15 => Ok(Kind::Rename),
            16 => Ok(Kind::Link),
            17 => Ok(Kind::Fork),
            18 => Ok(Kind::Exit),
            19 => Ok(Kind::Label),
            _ => Err(Refusal::UnknownKind),
        }
    }
}
