ghost use Rattle.std.specs.Prelude.{◌≡◌};
ghost use Rattle.schedule.specs.declared.whole.ReadError.TheVariants.{Faulty, Memory};
ghost use Rattle.schedule.specs.Whole.{Reads, ReadsBack};
ghost use Rattle.schedule.specs.Writing.{WrittenBack};

use crate::call::{Call, Opening};
use crate::fault::{Fault, Placed};
use crate::reader::Reader;
use std::alloc::{AllocFailed, Global};
use thiserror::Error;

/// A whole schedule.
#[derive(Drop)]
pub struct Schedule {
    pub opening: Opening,
    pub calls: Vec<Call>,
}

/// Why a whole schedule was not read.
#[derive(Drop, Debug, Error)]
pub enum ReadError {
    /// The schedule has a fault.
    #[error("{0}")]
    Faulty(Placed<Fault>),
    /// There was no memory for the calls.
    #[error("no memory for the calls")]
    Memory,
}

// By hand and not by `#[from]`, whose `from` promises nothing: `Reads` has to know the case.
impl From<Placed<Fault>> for ReadError {
    ghost from_gives = { λ p r. r ≡ Faulty p };

    fn from(fault: Placed<Fault>) -> ReadError {
        ReadError::Faulty(fault)
    }
}

// By hand: `Memory` holds nothing, so no `#[from]` can stand at it.
impl<T: Drop> From<AllocFailed<T>> for ReadError {
    ghost from_gives = { λ _ r. r ≡ Memory };

    fn from(_refused: AllocFailed<T>) -> ReadError {
        ReadError::Memory
    }
}

/// Reads a whole schedule: its opening numbers and all its calls, or the first fault with its place.
pub fn read(heap: Global, bytes: &[u8]) -> Result<Schedule, ReadError>
    ensures reads { Reads bytes.now result }
    ensures back { ReadsBack bytes.now result }
    ensures written_back { WrittenBack bytes.now result }
{
    let mut reader = Reader::new(bytes);
    let opening = reader.opening()?;
    let mut calls = Vec::new(heap);
    while let Some(call) = reader.next_call()? {
        calls.push(call)?;
    }
    Ok(Schedule { opening, calls })
}
