ghost use Rattle.std.specs.Prelude.{◌≡◌};
ghost use Rattle.rules.specs.Refusals.{number as number_of};

/// Why a call is refused. A refused call alters nothing.
#[derive(Clone, Copy, PartialEq, Eq, Debug)]
pub enum Refusal {
    /// 1: Open: the cells are not 1 to 255, or above what the waiting lists can carry.
    Cells = 1,
    /// 2: Open: the workers are not 1 to 8.
    Workers = 2,
    /// 3: Open: the first round is not 1 to 4,294,967,294.
    FirstRound = 3,
    /// 4: a worker, own or named, is not in the store.
    NoWorker = 4,
    /// 5: the own worker is not idle.
    NotIdle = 5,
    /// 6: the own worker is idle (Step, Run).
    Idle = 6,
    /// 7: Make: the list is not of 1 to 8.
    ListLength = 7,
    /// 8: a named cell is not in the store.
    NoCell = 8,
    /// 9: a cell is outside the worker's reach.
    OutsideReach = 9,
    /// 10: Create, Make: the cell is not white.
    NotWhite = 10,
    /// 11: Protect: the cell is a root already.
    AlreadyRoot = 11,
    /// 12: UnProtect: the cell is not a root.
    NotRoot = 12,
    /// 13: Send: the box holds a cell.
    BoxFull = 13,
    /// 14: Receive: the box holds 0.
    BoxEmpty = 14,
    /// 15: Protect, Send: the source count is 65,535.
    SourcesFull = 15,
    /// 16: Begin: the round number is 4,294,967,294.
    LastRound = 16,
}

impl Refusal {
    /// The refusal's number, 1 to 16. No `From`: `refusal.number()` says what the number is.
    pub fn number(self) -> u8
        ensures { result ≡ number_of self }
    {
        self as u8
    }
}
