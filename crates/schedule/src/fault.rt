ghost use Rattle.std.specs.Prelude.{◌≡◌, Some};
ghost use Rattle.schedule.specs.Faults.{number as number_of, placed_words};

use std::fmt;
use thiserror::Error;

/// Why a schedule is not read or not written. Each fault has a fixed number.
#[derive(Clone, Copy, PartialEq, Eq, Debug, Error)]
pub enum Fault {
    /// 19: the strip is shorter than the schedule that is to be written.
    #[error("the strip is shorter than the schedule")]
    ShortStrip = 19,
    /// 20: the schedule has under 6 or over 4,096 bytes.
    #[error("a schedule has 6 to 4096 bytes")]
    Length = 20,
    /// 21: the record runs past the end.
    #[error("the record runs past the end")]
    PastEnd = 21,
    /// 22: the operation is none of 1 to 11.
    #[error("the operation is none of 1 to 11")]
    UnknownOperation = 22,
    /// 23: the map has a wrong bit, or it gives a worker that need not be given.
    #[error("the map does not fit the operation, or gives a worker that need not be given")]
    WrongMap = 23,
    /// 24: the list has no cell or more than eight.
    #[error("a list has 1 to 8 cells")]
    ListCount = 24,
}

impl Fault {
    /// The fault's number, 19 to 24. No `From`: `fault.number()` says what the number is.
    pub fn number(self) -> u8
        ensures { result ≡ number_of self }
    {
        self as u8
    }
}

/// A fault of any layer, whole, with the place where it came up.
#[derive(Clone, Copy, PartialEq, Eq, Debug)]
pub struct Placed<F> {
    /// The fault itself.
    pub fault: F,
    /// The record's number, from 1; 0 where no record was begun.
    pub record: u16,
    /// The place of the record's map byte in the schedule, from 0.
    pub byte: u16,
}

impl fmt::Display for Placed<Fault> {
    ghost output = { λ p. Some (placed_words p) };

    fn fmt<W: fmt::Write>(&self, f: &mut fmt::Formatter<W>) -> fmt::Result {
        let number = self.fault.number();
        let Placed { record, byte, .. } = *self;
        write!(f, "fault {number} record {record} byte {byte}")
    }
}
