// What comes next in a capture, by the bytes at hand.
ghost use Rattle.std.specs.Prelude.{◌≡◌, ◌^◌, ◌<◌, ◌≤◌, length, Some, None};
ghost use Rattle.capture.specs.Reading.{shown_next, next_of, takes, header_after, GoesOn, Settles};

use crate::headers::FILE_HEAD_SIZE;
use crate::layout::{Fault, FileHeader, Next, NoRecord, Placed, Record, Refusal};
use crate::records::HEAD_SIZE;

// The file's header.
fn opening(closed: bool, unread: &[u8]) -> Next<'_>
    ensures value { shown_next result ≡ next_of None closed 0 unread.now }
    ensures bound { takes (shown_next result) ≤ length unread.now }
{
    if unread.len() < FILE_HEAD_SIZE && !closed {
        return Next::Wanting(FILE_HEAD_SIZE);
    }
    match FileHeader::read(unread) {
        Ok(header) => Next::Header(header),
        Err(refusal) => Next::Stopped(Fault { refusal, place: 0 }),
    }
}

// A record, once the header has told the order.
fn following(header: FileHeader, closed: bool, place: u64, unread: &[u8]) -> Next<'_>
    ensures value { shown_next result ≡ next_of (Some header) closed place unread.now }
    ensures bound { takes (shown_next result) ≤ length unread.now }
{
    match Record::first(header.order, unread) {
        Ok(record) => Next::Handed(Placed { place, record }),
        Err(NoRecord::Refused(refusal)) => Next::Stopped(Fault { refusal, place }),
        Err(NoRecord::Wanting(least)) if !closed => Next::Wanting(least),
        Err(NoRecord::Wanting(_)) if unread.is_empty() => Next::Ended,
        Err(NoRecord::Wanting(_)) => Next::Stopped(Fault {
            refusal: Refusal::Incomplete,
            place,
        }),
    }
}

// What comes next, by the header so far, whether more bytes may come, and the bytes at hand with their place.
// Four values and no struct of them, which `Blocks::look` would make for this one call.
#[inline(always)]
pub fn next_of(header: Option<FileHeader>, closed: bool, place: u64, unread: &[u8]) -> Next<'_>
    ensures value { shown_next result ≡ next_of header closed place unread.now }
    ensures bound { takes (shown_next result) ≤ length unread.now }
    ensures goes_on { GoesOn header place unread.now (shown_next result) }
    ensures settles { Settles header closed place unread.now (shown_next result) }
{
    match header {
        None => opening(closed, unread),
        Some(header) => following(header, closed, place, unread),
    }
}

impl Next<'_> {
    // How many bytes the header or the record takes. A `match` with a default is the plain form.
    pub(crate) fn takes(&self) -> usize
        requires { takes (shown_next self.now) < 2 ^ 64 }
        ensures value { result ≡ takes (shown_next self.now) }
    {
        match self {
            Next::Header(_) => FILE_HEAD_SIZE,
            Next::Handed(placed) => HEAD_SIZE + placed.record.frame.len(),
            _ => 0,
        }
    }

    // The header that is known after this. `header().or(known)` would need the same `match` in a method more.
    pub(crate) fn header_after(&self, known: Option<FileHeader>) -> Option<FileHeader>
        ensures value { result ≡ header_after known (shown_next self.now) }
    {
        match self {
            Next::Header(header) => Some(*header),
            _ => known,
        }
    }
}
