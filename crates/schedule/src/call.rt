ghost use Rattle.std.specs.Prelude.{◌≡◌, min, take};
ghost use Rattle.schedule.specs.Calls.{operation as operation_of, worker as worker_of, record_of, children, Says};

use crate::fault::Fault;
use crate::operation::Operation;

/// The three numbers that a schedule opens a store with.
#[derive(Clone, Copy, PartialEq, Eq, Debug)]
pub struct Opening {
    pub cells: u8,
    pub workers: u8,
    pub first_round: u32,
}

/// A list of children: the first `count` of the places in `cells`. The count may say more than the
/// eight that a list can have, or none, and is then refused. No slice or vector of eight: a call is
/// plain data, to be copied and kept without its bytes, and a wrong count has to be sayable.
#[derive(Clone, Copy, PartialEq, Eq, Debug)]
pub struct Children {
    pub count: u8,
    pub cells: [u8; 8],
}

/// One of the eleven calls, with its worker and its own fields. The worker stands in each, so that one
/// pattern names a call whole.
#[derive(Clone, Copy, PartialEq, Eq, Debug)]
pub enum Call {
    Create {
        worker: u8,
        cell: u8,
    },
    AddChild {
        worker: u8,
        cell: u8,
        child: u8,
    },
    GetChild {
        worker: u8,
        cell: u8,
        place: u8,
    },
    Make {
        worker: u8,
        cell: u8,
        list: Children,
    },
    Protect {
        worker: u8,
        cell: u8,
    },
    UnProtect {
        worker: u8,
        cell: u8,
    },
    Send {
        worker: u8,
        cell: u8,
        to: u8,
    },
    Receive {
        worker: u8,
        from: u8,
    },
    Begin {
        worker: u8,
    },
    Step {
        worker: u8,
    },
    Run {
        worker: u8,
        steps: u16,
    },
}

/// A call as a caller says it, by numbers. The operation may be none of the eleven, and the list's
/// count may be wrong; both are refused when it is written. Fields that the operation does not have
/// are not looked at.
#[derive(Clone, Copy, PartialEq, Eq, Debug)]
pub struct CallRecord {
    /// A number and no `Operation`, since one that is none of the eleven has to be sayable.
    pub operation: u8,
    pub worker: u8,
    pub cell: u8,
    pub second: u8,
    pub list: Children,
    pub steps: u16,
}

impl Children {
    /// No child at all.
    pub const NONE: Children = Children {
        count: 0,
        cells: [0; 8],
    };

    /// The list that says `count`, with the first so many of `cells` in its places, eight at most.
    pub fn of(count: u8, cells: &[u8]) -> Children
        ensures { result ≡ children count cells.now }
    {
        let named = usize::from(count).min(cells.len()).min(8);
        let mut places = [0; 8];
        places[..named].copy_from_slice(&cells[..named]);
        Children {
            count,
            cells: places,
        }
    }

    /// The cells that the list names, eight at most.
    pub fn as_slice(&self) -> &[u8]
        ensures { result.now ≡ take (min 8 self.now.count) self.now.cells }
    {
        &self.cells[0..usize::from(self.count).min(8)]
    }
}

impl Call {
    /// What the call does.
    pub fn operation(&self) -> Operation
        ensures { result ≡ operation_of self.now }
    {
        match self {
            Call::Create { .. } => Operation::Create,
            Call::AddChild { .. } => Operation::AddChild,
            Call::GetChild { .. } => Operation::GetChild,
            Call::Make { .. } => Operation::Make,
            Call::Protect { .. } => Operation::Protect,
            Call::UnProtect { .. } => Operation::UnProtect,
            Call::Send { .. } => Operation::Send,
            Call::Receive { .. } => Operation::Receive,
            Call::Begin { .. } => Operation::Begin,
            Call::Step { .. } => Operation::Step,
            Call::Run { .. } => Operation::Run,
        }
    }

    /// The worker that makes the call.
    pub fn worker(&self) -> u8
        ensures { result ≡ worker_of self.now }
    {
        match self {
            Call::Create { worker, .. }
            | Call::AddChild { worker, .. }
            | Call::GetChild { worker, .. }
            | Call::Make { worker, .. }
            | Call::Protect { worker, .. }
            | Call::UnProtect { worker, .. }
            | Call::Send { worker, .. }
            | Call::Receive { worker, .. }
            | Call::Begin { worker }
            | Call::Step { worker }
            | Call::Run { worker, .. } => *worker,
        }
    }
}

/// The call by numbers, as it is written; the fields that it does not have are 0.
impl From<Call> for CallRecord {
    ghost from_gives = { λ c r. r ≡ record_of c };

    fn from(call: Call) -> CallRecord {
        let none = CallRecord {
            operation: call.operation().number(),
            worker: call.worker(),
            cell: 0,
            second: 0,
            list: Children::NONE,
            steps: 0,
        };
        match call {
            Call::Create { cell, .. } | Call::Protect { cell, .. } | Call::UnProtect { cell, .. } =>
                CallRecord { cell, ..none },
            Call::AddChild {
                cell,
                child: second,
                ..
            }
            | Call::GetChild {
                cell,
                place: second,
                ..
            }
            | Call::Send {
                cell,
                to: second,
                ..
            } => CallRecord {
                cell,
                second,
                ..none
            },
            Call::Make { cell, list, .. } => CallRecord { cell, list, ..none },
            Call::Receive { from: second, .. } => CallRecord { second, ..none },
            Call::Begin { .. } | Call::Step { .. } => none,
            Call::Run { steps, .. } => CallRecord { steps, ..none },
        }
    }
}

/// The call that a record says. Refuses an operation that is none of the eleven (22), then a list of
/// no cell or of more than eight (24).
impl TryFrom<CallRecord> for Call {
    type Error = Fault;

    ghost try_from_gives = { Says };

    fn try_from(record: CallRecord) -> Result<Call, Fault> {
        let CallRecord {
            operation,
            worker,
            cell,
            second,
            list,
            steps,
        } = record;
        match Operation::try_from(operation)? {
            Operation::Create => Ok(Call::Create { worker, cell }),
            Operation::AddChild => Ok(Call::AddChild {
                worker,
                cell,
                child: second,
            }),
            Operation::GetChild => Ok(Call::GetChild {
                worker,
                cell,
                place: second,
            }),
            Operation::Make if list.count == 0 || list.count > 8 => Err(Fault::ListCount),
            Operation::Make => Ok(Call::Make {
                worker,
                cell,
                list: Children::of(list.count, &list.cells),
            }),
            Operation::Protect => Ok(Call::Protect { worker, cell }),
            Operation::UnProtect => Ok(Call::UnProtect { worker, cell }),
            Operation::Send => Ok(Call::Send {
                worker,
                cell,
                to: second,
            }),
            Operation::Receive => Ok(Call::Receive {
                worker,
                from: second,
            }),
            Operation::Begin => Ok(Call::Begin { worker }),
            Operation::Step => Ok(Call::Step { worker }),
            Operation::Run => Ok(Call::Run { worker, steps }),
        }
    }
}
