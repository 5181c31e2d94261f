ghost use Rattle.std.specs.Prelude.{◌≡◌, ◌+◌, ◌≤◌, min, length, None, MatchResult};
ghost use Rattle.schedule.specs.Calls.{Writable};
ghost use Rattle.schedule.specs.Format.{when, record_bytes, records_bytes};
ghost use Rattle.schedule.specs.Strip.{put};
ghost use Rattle.schedule.specs.Tests.{FailsFirst};
ghost use Rattle.schedule.specs.Whole.{AllWritable};
ghost use Rattle.schedule.specs.Writing.{records_tests, Writes, WrittenReadsBack};

use crate::call::{Call, CallRecord, Opening};
use crate::fault::Fault;
use crate::operation::Operation;
use crate::record::Fields;

/// Writes a row of bytes at a place, and answers the place after it.
fn put_all(strip: &mut [u8], at: usize, bytes: &[u8]) -> usize
    requires { at + length bytes.now ≤ length strip.old }
    ensures next { result ≡ at + length bytes.now }
    ensures after { strip.new ≡ put at bytes.now strip.old }
{
    let end = at + bytes.len();
    strip[at..end].copy_from_slice(bytes);
    end
}

/// Writes a row of bytes if it is wanted, and answers the place after it.
fn put_if(strip: &mut [u8], at: usize, wanted: bool, part: &[u8]) -> usize
    requires { at + length (when wanted part.now) ≤ length strip.old }
    ensures next { result ≡ at + length (when wanted part.now) }
    ensures after { strip.new ≡ put at (when wanted part.now) strip.old }
{
    if wanted { put_all(strip, at, part) } else { at }
}

/// How many bytes a record that can be written takes, after a record of the worker `before`. The sizes of
/// its parts are added up: no byte is made only to be counted.
fn record_length(before: Option<u8>, record: &CallRecord) -> usize
    requires { Writable «record».now }
    ensures value { result ≡ length (record_bytes before «record».now) }
    ensures short { result ≤ 16 }
{
    let operation = Operation::try_from(record.operation).unwrap();
    let fields = Fields::of(operation);
    let given = before != Some(record.worker);
    let list = if fields.list {
        1 + usize::from(record.list.count)
    } else {
        0
    };
    2 + usize::from(given)
        + usize::from(fields.cell)
        + usize::from(fields.second)
        + list
        + 2 * usize::from(fields.steps)
}

/// Writes a record that can be written, after a record of the worker `before`: each part goes straight into
/// the strip, after the part before it.
fn put_record(strip: &mut [u8], at: usize, before: Option<u8>, record: &CallRecord) -> usize
    requires { (Writable «record».now) × (at + length (record_bytes before «record».now) ≤ length strip.old) }
    ensures next { result ≡ at + length (record_bytes before «record».now) }
    ensures after { strip.new ≡ put at (record_bytes before «record».now) strip.old }
{
    let operation = Operation::try_from(record.operation).unwrap();
    let fields = Fields::of(operation);
    let given = before != Some(record.worker);
    let at = put_all(strip, at, &[fields.map(given), record.operation]);
    let at = put_if(strip, at, given, &[record.worker]);
    let at = put_if(strip, at, fields.cell, &[record.cell]);
    let at = put_if(strip, at, fields.second, &[record.second]);
    let at = put_if(strip, at, fields.list, &[record.list.count]);
    let at = put_if(strip, at, fields.list, record.list.as_slice());
    put_if(strip, at, fields.steps, &record.steps.to_be_bytes())
}

/// Tests each record in order, and answers the length of their schedule, or 4,097 where it is longer: a
/// later record's fault comes before that of the length, and so no sum wraps.
fn measure(records: &[CallRecord]) -> Result<usize, Fault>
    ensures { MatchResult result (λ n. AllWritable records.now × (n ≡ min 4097 (6 + length (records_bytes None records.now)))) (λ f. FailsFirst (records_tests records.now) f) }
{
    let mut total = 6;
    let mut before = None;
    for record in records {
        Call::try_from(*record)?;
        total = (total + record_length(before, record)).min(4097);
        before = Some(record.worker);
    }
    Ok(total)
}

/// The records, one after another. The walk of `measure` again: no byte is written before every record
/// is tested.
fn put_records(strip: &mut [u8], at: usize, records: &[CallRecord]) -> usize
    requires { (AllWritable records.now) × (at + length (records_bytes None records.now) ≤ length strip.old) }
    ensures next { result ≡ at + length (records_bytes None records.now) }
    ensures after { strip.new ≡ put at (records_bytes None records.now) strip.old }
{
    let mut place = at;
    let mut before = None;
    for record in records {
        place = put_record(strip, place, before, record);
        before = Some(record.worker);
    }
    place
}

/// Writes a schedule in front of the strip, and answers its length; the bytes after it stay. Tests each
/// record in order, its operation (22) and then the count of its list (24), then the schedule's length
/// (20) and the strip's (19). A refusal leaves the whole strip as it was.
pub fn write(opening: Opening, records: &[CallRecord], strip: &mut [u8]) -> Result<usize, Fault>
    ensures writes { Writes opening records.now strip.old result strip.new }
    ensures back { WrittenReadsBack opening records.now result strip.new }
{
    let length = measure(records)?;
    if length > 4096 {
        return Err(Fault::Length);
    }
    if strip.len() < length {
        return Err(Fault::ShortStrip);
    }
    let at = put_all(strip, 0, &[opening.cells, opening.workers]);
    let at = put_all(strip, at, &opening.first_round.to_be_bytes());
    Ok(put_records(strip, at, records))
}
