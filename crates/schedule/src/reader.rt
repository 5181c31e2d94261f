ghost use Rattle.std.specs.Prelude.{◌≡◌, ◌+◌, ◌*◌, ◌≤◌, length};
ghost use Rattle.schedule.specs.Progress.{Progress};

use crate::call::Opening;
use std::marker::Model;

mod calls;

/// Reads a schedule: its opening numbers, and then its calls one by one.
#[derive(Drop)]
pub struct Reader<'a> {
    /// None where the schedule has too few or too many bytes, and nothing of it is read. No `Result` of a
    /// reader: making one could not fail, so it still cannot.
    opening: Option<Opening>,
    /// The bytes that are still to be read.
    rest: &'a [u8],
    /// The worker of the record before.
    before: Option<u8>,
    /// How many records were read.
    records: u16,
    /// The place of the next record's map byte.
    place: u16,
}

// A contract sees how far reading has come.
impl<'a> Model for Reader<'a> {
    ghost Value = { Progress };

    ghost view = { λ r. record { opening = r.opening; rest = r.rest.now; before = r.before; records = r.records; place = r.place } };

    ghost invariant = { λ r. (r.place + length r.rest.now ≤ 4096) × (2 * r.records + 6 ≤ r.place) };
}

impl<'a> Reader<'a> {
    /// How many records were read.
    pub fn records(&self) -> u16
        ensures value { result ≡ self.now.records }
        ensures within { self.now.place + length self.now.rest ≤ 4096 }
        ensures few { 2 * self.now.records + 6 ≤ self.now.place }
    {
        self.records
    }

    /// The place of the next record's map byte in the schedule, from 0.
    pub fn place(&self) -> u16
        ensures value { result ≡ self.now.place }
        ensures within { self.now.place + length self.now.rest ≤ 4096 }
        ensures few { 2 * self.now.records + 6 ≤ self.now.place }
    {
        self.place
    }
}
