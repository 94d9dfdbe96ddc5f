ghost use Rattle.rules.specs.Actions.{IsActionOf};

use terms::refusal::Refusal;

/// What becomes of a call that breaks a rule (document 01, The records).
#[derive(Clone, Copy, Debug, PartialEq, Eq)]
pub enum Action {
    Inhibit = 0,
    Divert = 1,
}

impl TryFrom<u8> for Action {
    type Error = Refusal;

    ghost try_from_gives = { IsActionOf };

    fn try_from(number: u8) -> Result<Self, Refusal> {
        match number {
            0 => Ok(Action::Inhibit),
            1 => Ok(Action::Divert),
            _ => Err(Refusal::UnknownKind),
        }
    }
}
