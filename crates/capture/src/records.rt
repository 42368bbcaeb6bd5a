// One record: its moment, what is refused of it, and its bytes.
ghost use Rattle.std.specs.Prelude.{◌≡◌, [], ◌++◌, length, is_ok, IfOk, if◌then◌else◌, MatchResult, OnOk};
ghost use Rattle.capture.specs.declared.layout.NoRecord.{NoRecord};
ghost use Rattle.capture.specs.declared.layout.WriteError.{WriteError};
ghost use Rattle.capture.specs.Records.{moment_of, check_of, entry_of, Good, head_written, record_bytes, at_hand, shown, Fronts, ReadsAs, NotWritten};

use crate::layout::{NoRecord, Order, Record, Refusal, WriteError};
use std::alloc::AllocError;

// The largest fraction of a second, in microseconds.
const MOST_FRACTION: u32 = 999_999;

// Microseconds in a second.
const PER_SECOND: u64 = 1_000_000;

// The largest original and captured lengths.
const MOST_ORIGINAL: u32 = 65_535;

const MOST_CAPTURED: usize = 16_384;

// The bytes of a record's header.
pub const HEAD_SIZE: usize = 16;

// What is refused of a record by its numbers, whether it was read or is handed in.
pub fn check_numbers(microseconds: u32, captured: usize, original: u32) -> Result<(), Refusal>
    ensures value { result ≡ check_of microseconds captured original }
{
    if microseconds > MOST_FRACTION {
        return Err(Refusal::BadFraction);
    }
    if original == 0 || original > MOST_ORIGINAL {
        return Err(Refusal::BadLength);
    }
    if captured > original as usize || captured > MOST_CAPTURED {
        return Err(Refusal::BadLength);
    }
    Ok(())
}

impl From<Refusal> for NoRecord {
    ghost from_gives = { λ refusal e. e ≡ NoRecord.Refused refusal };

    fn from(refusal: Refusal) -> NoRecord {
        NoRecord::Refused(refusal)
    }
}

impl From<Refusal> for WriteError {
    ghost from_gives = { λ refusal e. e ≡ WriteError.Refused refusal };

    fn from(refusal: Refusal) -> WriteError {
        WriteError::Refused(refusal)
    }
}

impl From<AllocError> for WriteError {
    ghost from_gives = { λ _ e. e ≡ WriteError.NoMemory };

    fn from(_error: AllocError) -> WriteError {
        WriteError::NoMemory
    }
}

// Adds two parts at the end, or nothing where there is no memory for both.
pub(crate) fn append_both(out: &mut Vec<u8>, front: &[u8], back: &[u8]) -> Result<(), AllocError>
    ensures items { out.new.items ≡ out.old.items ++ (if is_ok result then front.now ++ back.now else []) }
{
    out.reserve(front.len().saturating_add(back.len()))?;
    out.extend_from_slice(front)?;
    out.extend_from_slice(back)
}

impl<'a> Record<'a> {
    // Microseconds since the epoch.
    pub fn moment(&self) -> u64
        ensures value { result ≡ moment_of self.now.seconds self.now.microseconds }
    {
        u64::from(self.seconds) * PER_SECOND + u64::from(self.microseconds)
    }

    // What is refused of the record.
    pub fn check(&self) -> Result<(), Refusal>
        ensures value { result ≡ check_of self.now.microseconds (length self.now.frame.now) self.now.original }
    {
        check_numbers(self.microseconds, self.frame.len(), self.original)
    }

    // The record that some bytes begin with. Its frame is a part of them.
    pub fn first(order: Order, bytes: &'a [u8]) -> Result<Record<'a>, NoRecord>
        ensures value { shown result ≡ at_hand order bytes.now }
        ensures fronts { Fronts order bytes.now (shown result) }
    {
        if bytes.len() < HEAD_SIZE {
            return Err(NoRecord::Wanting(HEAD_SIZE));
        }
        let microseconds = order.number(bytes, 4);
        // `as`: no `From` makes a usize of 32 bits
        let captured: u32 = order.number(bytes, 8);
        let original = order.number(bytes, 12);
        check_numbers(microseconds, captured as usize, original)?;
        let end = HEAD_SIZE + captured as usize;
        if bytes.len() < end {
            return Err(NoRecord::Wanting(end));
        }
        Ok(Record {
            seconds: order.number(bytes, 0),
            microseconds,
            original,
            frame: &bytes[HEAD_SIZE..end],
        })
    }

    // The record's header as it is written before the frame. A record that could not be read again is refused.
    pub fn head(&self, order: Order) -> Result<[u8; HEAD_SIZE], Refusal>
        ensures value { result ≡ head_written order (entry_of self.now) }
        ensures good { OnOk result (Good (entry_of self.now)) }
        ensures again { IfOk result (λ h. ReadsAs order (h ++ self.now.frame.now) (entry_of self.now)) }
    {
        self.check()?;
        let mut bytes = [0; HEAD_SIZE];
        order.put(self.seconds, &mut bytes, 0);
        order.put(self.microseconds, &mut bytes, 4);
        // the check has passed: at most 16,384
        order.put(self.frame.len() as u32, &mut bytes, 8);
        order.put(self.original, &mut bytes, 12);
        Ok(bytes)
    }

    // Writes the record behind what `out` has: its header, then its frame. Where that fails, `out` is as it was.
    pub fn write(&self, order: Order, out: &mut Vec<u8>) -> Result<(), WriteError>
        ensures cases { MatchResult result (λ _. out.new.items ≡ out.old.items ++ record_bytes order (entry_of self.now)) (λ e. (out.new.items ≡ out.old.items) × NotWritten (entry_of self.now) e) }
        ensures again { OnOk result (ReadsAs order (record_bytes order (entry_of self.now)) (entry_of self.now)) }
    {
        let head = self.head(order)?;
        append_both(out, &head, self.frame)?;
        Ok(())
    }
}
