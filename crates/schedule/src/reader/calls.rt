ghost use Rattle.std.specs.Prelude.{◌≡◌, Some, None, MatchOption};
ghost use Rattle.schedule.specs.Progress.{Sized, Opens, Begun, opening_or_fault, Advances};

use crate::call::{Call, Opening};
use crate::fault::{Fault, Placed};
use crate::reader::Reader;
use crate::record::Lead;

/// The opening numbers and the bytes of the records, where the schedule's length is right.
fn read_opening(bytes: &[u8]) -> Option<(Opening, &[u8])>
    ensures { MatchOption result (Sized bytes.now → ⊥) (λ p. Opens bytes.now (Some p.0) p.1.now) }
{
    match bytes {
        [cells, workers, a, b, c, d, rest @ ..] if rest.len() <= 4090 => {
            let first_round = u32::from_be_bytes([*a, *b, *c, *d]);
            Some((
                Opening {
                    cells: *cells,
                    workers: *workers,
                    first_round,
                },
                rest,
            ))
        }
        _ => None,
    }
}

impl<'a> Reader<'a> {
    /// A reader at the start of a schedule.
    pub fn new(bytes: &'a [u8]) -> Reader<'a>
        ensures { Begun bytes.now result }
    {
        let (opening, rest): (Option<Opening>, &[u8]) = match read_opening(bytes) {
            Some((opening, rest)) => (Some(opening), rest),
            None => (None, &[]),
        };
        Reader {
            opening,
            rest,
            before: None,
            records: 0,
            place: 6,
        }
    }

    /// The three numbers that the schedule opens a store with. Refuses a schedule of under 6 or over
    /// 4,096 bytes (20), of which no call is read either.
    pub fn opening(&self) -> Result<Opening, Placed<Fault>>
        ensures { result ≡ opening_or_fault self.now.opening }
    {
        self.opening.ok_or(Placed {
            fault: Fault::Length,
            record: 0,
            byte: 0,
        })
    }

    /// The next call, or none at the schedule's end. A record that cannot be read gives its fault
    /// with its place; the reader then stays where it is.
    pub fn next_call(&mut self) -> Result<Option<Call>, Placed<Fault>>
        ensures { Advances self.old self.new result }
    {
        self.opening()?;
        let [map, after @ ..] = self.rest else {
            return Ok(None);
        };
        let lead = Lead {
            map: *map,
            before: self.before,
        };
        match lead.call(after) {
            Ok((call, rest)) => {
                self.place += (self.rest.len() - rest.len()) as u16;
                self.rest = rest;
                self.before = Some(call.worker());
                self.records += 1;
                Ok(Some(call))
            }
            Err(fault) => Err(Placed {
                fault,
                record: self.records + 1,
                byte: self.place,
            }),
        }
    }
}
