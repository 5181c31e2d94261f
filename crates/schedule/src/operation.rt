ghost use Rattle.std.specs.Prelude.{◌≡◌};
ghost use Rattle.schedule.specs.Operations.{number as number_of, Names};

use crate::fault::Fault;

/// What a call does. Each operation has a fixed number.
#[derive(Clone, Copy, PartialEq, Eq, Debug)]
pub enum Operation {
    Create = 1,
    AddChild = 2,
    GetChild = 3,
    Make = 4,
    Protect = 5,
    UnProtect = 6,
    Send = 7,
    Receive = 8,
    Begin = 9,
    Step = 10,
    Run = 11,
}

impl Operation {
    /// The operation's number, 1 to 11. No `From`: `operation.number()` says what the number is.
    pub fn number(self) -> u8
        ensures { result ≡ number_of self }
    {
        self as u8
    }
}

/// The operation of a number. Refuses a number that is none of 1 to 11 (22).
impl TryFrom<u8> for Operation {
    type Error = Fault;

    ghost try_from_gives = { Names };

    fn try_from(number: u8) -> Result<Operation, Fault> {
        match number {
            1 => Ok(Operation::Create),
            2 => Ok(Operation::AddChild),
            3 => Ok(Operation::GetChild),
            4 => Ok(Operation::Make),
            5 => Ok(Operation::Protect),
            6 => Ok(Operation::UnProtect),
            7 => Ok(Operation::Send),
            8 => Ok(Operation::Receive),
            9 => Ok(Operation::Begin),
            10 => Ok(Operation::Step),
            11 => Ok(Operation::Run),
            _ => Err(Fault::UnknownOperation),
        }
    }
}
