ghost use Rattle.std.specs.Prelude.{◌≡◌, ◌+◌, ◌<◌, true, false, ◌∷◌, length, Some, None, MatchBool, MatchResult};
ghost use Rattle.schedule.specs.Format.{bit, own_fields, map_byte};
ghost use Rattle.schedule.specs.Operations.{number};
ghost use Rattle.schedule.specs.Tests.{FailsFirst};
ghost use Rattle.schedule.specs.Reading.{tests, span, gives_worker, RecordRead};
ghost use Rattle.schedule.specs.Parts.{Takes, Chosen, FieldsRead, WorkerRead};

use crate::bytes::{byte, field_if, list, number};
use crate::call::{Call, CallRecord, Children};
use crate::fault::Fault;
use crate::operation::Operation;

/// Which fields follow a record's operation and worker.
#[derive(Clone, Copy)]
pub(crate) struct Fields {
    pub cell: bool,
    pub second: bool,
    pub list: bool,
    pub steps: bool,
}

impl Fields {
    const NONE: Fields = Fields {
        cell: false,
        second: false,
        list: false,
        steps: false,
    };

    const CELL: Fields = Fields {
        cell: true,
        ..Fields::NONE
    };

    const CELL_AND_SECOND: Fields = Fields {
        second: true,
        ..Fields::CELL
    };

    const CELL_AND_LIST: Fields = Fields {
        list: true,
        ..Fields::CELL
    };

    const SECOND: Fields = Fields {
        second: true,
        ..Fields::NONE
    };

    const STEPS: Fields = Fields {
        steps: true,
        ..Fields::NONE
    };

    /// The fields of an operation. `Lead::fields` has the same table: it matches the map too, of bytes that
    /// may be wrong.
    pub(crate) fn of(operation: Operation) -> Fields
        ensures { result ≡ own_fields (number operation) }
    {
        match operation {
            Operation::Create | Operation::Protect | Operation::UnProtect => Fields::CELL,
            Operation::AddChild | Operation::GetChild | Operation::Send => Fields::CELL_AND_SECOND,
            Operation::Make => Fields::CELL_AND_LIST,
            Operation::Receive => Fields::SECOND,
            Operation::Begin | Operation::Step => Fields::NONE,
            Operation::Run => Fields::STEPS,
        }
    }

    /// The map byte of a record with these fields, its worker given or not.
    pub(crate) fn map(self, given: bool) -> u8
        ensures { result ≡ map_byte self given }
    {
        1 + 2 * u8::from(given)
            + 4 * u8::from(self.cell)
            + 8 * u8::from(self.second)
            + 16 * u8::from(self.list)
            + 32 * u8::from(self.steps)
    }
}

/// The fields that follow the worker, each in its turn.
fn read_fields(
    fields: Fields,
    operation: u8,
    worker: u8,
    bytes: &[u8],
) -> Result<(CallRecord, &[u8]), Fault>
    ensures { Takes bytes.now (span fields bytes.now) (FieldsRead fields operation worker bytes.now) result }
{
    let (cell, rest) = field_if(fields.cell, 0, bytes, byte)?;
    let (second, rest) = field_if(fields.second, 0, rest, byte)?;
    let (list, rest) = field_if(fields.list, Children::NONE, rest, list)?;
    let (steps, rest) = field_if(fields.steps, 0, rest, number)?;
    Ok((
        CallRecord {
            operation,
            worker,
            cell,
            second,
            list,
            steps,
        },
        rest,
    ))
}

/// A record's map byte, and the worker of the record before it.
#[derive(Clone, Copy)]
pub(crate) struct Lead {
    pub map: u8,
    pub before: Option<u8>,
}

impl Lead {
    /// Whether the map gives the worker.
    fn gives_worker(self) -> bool
        ensures { result ≡ gives_worker self.map }
    {
        self.map / 2 % 2 == 1
    }

    /// The fields of the record, by the operation that comes next: its number and the map together, as
    /// the format's table has them, of bytes that may be any.
    fn fields(self, after: &[u8]) -> Result<Fields, Fault>
        ensures { MatchResult result (λ f. Chosen self.before self.map after.now f) (λ e. FailsFirst (tests self.before (self.map ∷ after.now)) e) }
    {
        match (after.first().copied(), self.map) {
            (_, m) if m % 2 == 0 || m >= 64 => Err(Fault::WrongMap),
            (None, _) => Err(Fault::PastEnd),
            (Some(operation), _) if operation == 0 || operation > 11 => Err(
                Fault::UnknownOperation,
            ),
            _ if self.before.is_none() && !self.gives_worker() => Err(Fault::WrongMap),
            (Some(1 | 5 | 6), 5 | 7) => Ok(Fields::CELL),
            (Some(2 | 3 | 7), 13 | 15) => Ok(Fields::CELL_AND_SECOND),
            (Some(4), 21 | 23) => Ok(Fields::CELL_AND_LIST),
            (Some(8), 9 | 11) => Ok(Fields::SECOND),
            (Some(9 | 10), 1 | 3) => Ok(Fields::NONE),
            (Some(11), 33 | 35) => Ok(Fields::STEPS),
            _ => Err(Fault::WrongMap),
        }
    }

    /// The worker's byte where the map gives it, else the worker of the record before.
    fn worker(self, bytes: &[u8]) -> Result<(u8, &[u8]), Fault>
        requires { self.before ≡ None → gives_worker self.map ≡ true }
        ensures { Takes bytes.now (bit (gives_worker self.map)) (WorkerRead self.before self.map bytes.now) result }
    {
        match self.before {
            Some(worker) if !self.gives_worker() => Ok((worker, bytes)),
            _ => byte(bytes),
        }
    }

    /// Whether a worker is given that is that of the record before.
    fn is_needless(self, worker: u8) -> bool
        ensures { MatchBool result ((gives_worker self.map ≡ true) × (self.before ≡ Some worker)) ((gives_worker self.map ≡ true) × (self.before ≡ Some worker) → ⊥) }
    {
        self.gives_worker() && self.before == Some(worker)
    }

    /// The call of the record that goes on with `after`, and the bytes that follow it. Its tests come
    /// in the order of the format; the first that fails gives the fault.
    pub(crate) fn call(self, after: &[u8]) -> Result<(Call, &[u8]), Fault>
        ensures { MatchResult result (λ p. RecordRead self.before (self.map ∷ after.now) p.0 p.1.now) (λ f. FailsFirst (tests self.before (self.map ∷ after.now)) f) }
    {
        let fields = self.fields(after)?;
        let (operation, rest) = byte(after)?;
        let (worker, rest) = self.worker(rest)?;
        let (record, rest) = read_fields(fields, operation, worker, rest)?;
        if self.is_needless(worker) {
            return Err(Fault::WrongMap);
        }
        Ok((Call::try_from(record)?, rest))
    }
}
