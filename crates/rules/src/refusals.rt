// Why a step or a message is refused.
ghost use Rattle.std.specs.Prelude.{◌≡◌};
ghost use Rattle.rules.specs.Statements.{Numbers, TellsOffset};
ghost use Rattle.rules.specs.declared.refusals.Refusal.TheVariants as Refusal;

use crate::WrongField;

// The refusals in the order of the table's numbers. What is malformed is so at the offset of its first wrong field.
#[derive(Clone, Copy, PartialEq, Eq)]
pub enum Refusal {
    WrongState,
    Malformed(usize),
    NotAddressedHere,
    WrongView,
    WrongStatus,
    WrongRole,
    NothingToDo,
    Full,
    NoRoom,
}

impl Refusal {
    // Its number in the table.
    pub fn number(self) -> u8
        ensures { Numbers self result }
    {
        match self {
            Refusal::WrongState => 1,
            Refusal::Malformed(_) => 2,
            Refusal::NotAddressedHere => 3,
            Refusal::WrongView => 4,
            Refusal::WrongStatus => 5,
            Refusal::WrongRole => 6,
            Refusal::NothingToDo => 7,
            Refusal::Full => 8,
            Refusal::NoRoom => 9,
        }
    }

    // The offset that goes with it: 0 but for what is malformed.
    pub fn offset(self) -> usize
        ensures { TellsOffset self result }
    {
        match self {
            Refusal::Malformed(at) => at,
            _ => 0,
        }
    }
}

impl From<WrongField> for Refusal {
    ghost from_gives = { λ w r. r ≡ Refusal.Malformed w.at };

    // What has a wrong field is malformed there.
    fn from(wrong: WrongField) -> Refusal {
        Refusal::Malformed(wrong.at)
    }
}
