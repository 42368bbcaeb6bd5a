// A capture's bytes come in, and its header and records are handed out.
ghost use Rattle.std.specs.Prelude.{◌≡◌, ◌+◌, ◌≤◌, length, vec_len, MatchResult};
ghost use Rattle.capture.specs.declared.layout.FeedError.TheVariants.{NoMemory};
ghost use Rattle.capture.specs.Reading.{shown_next, takes};
ghost use Rattle.capture.specs.Feeding.{unread_of, comes, Continues, Settled, Fresh, Moved, Shut, Grown, NotTaken};

use crate::blocks::Blocks;
use crate::layout::{FeedError, Next};
use crate::nexts::next_of;
use crate::records::append_both;
use std::alloc::{AllocError, Global};

impl From<AllocError> for FeedError {
    ghost from_gives = { λ _ e. e ≡ NoMemory };

    fn from(_error: AllocError) -> FeedError {
        FeedError::NoMemory
    }
}

impl Blocks {
    // The bytes at hand.
    fn unread(&self) -> &[u8]
        ensures value { result.now ≡ unread_of self.now }
        ensures len { self.now.behind + length result.now ≡ vec_len self.now.held }
    {
        &self.held.as_slice()[self.behind..]
    }

    // Nothing has come in.
    pub fn new(heap: Global) -> Blocks
        ensures fresh { Fresh result }
    {
        Blocks {
            heap,
            held: Vec::new(heap),
            behind: 0,
            place: 0,
            header: None,
            closed: false,
        }
    }

    // Takes in the next bytes of the capture. A refusal changes nothing.
    pub fn feed(&mut self, block: &[u8]) -> Result<(), FeedError>
        ensures cases { MatchResult result (λ _. Grown self.old self.new block.now) (λ e. (self.new ≡ self.old) × NotTaken self.old block.now e) }
    {
        if self.closed {
            return Err(FeedError::Closed);
        }
        let unread = self.unread();
        // `as`: no `From` makes 64 bits of a usize
        let end = self.place + unread.len() as u64;
        if block.len() as u64 > u64::MAX - end {
            return Err(FeedError::TooLong);
        }
        // A new list, so that a refusal leaves the one at hand as it was.
        let mut held = Vec::new(self.heap);
        append_both(&mut held, unread, block)?;
        self.held = held;
        self.behind = 0;
        Ok(())
    }

    // Says that no more bytes come in.
    pub fn close(&mut self)
        ensures shut { Shut self.old self.new }
    {
        self.closed = true;
    }

    // What comes next. A record's frame is a part of the bytes at hand. It is asked twice for each record, here and to
    // pass it, so the two are to be laid into one.
    #[inline(always)]
    pub fn look(&self) -> Next<'_>
        ensures value { shown_next result ≡ comes self.now }
        ensures bound { takes (shown_next result) ≤ length (unread_of self.now) }
        ensures goes_on { Continues self.now (shown_next result) }
        ensures settles { Settled self.now (shown_next result) }
    {
        next_of(self.header, self.closed, self.place, self.unread())
    }

    // Passes the header or the record that comes next. What is not there is not passed.
    pub fn advance(&mut self)
        ensures moved { Moved self.old self.new }
    {
        let next = self.look();
        let used = next.takes();
        let header = next.header_after(self.header);
        self.header = header;
        self.behind += used;
        self.place += used as u64;
    }
}
