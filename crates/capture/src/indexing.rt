// The index of a capture that comes in blocks.
ghost use Rattle.std.specs.Prelude.{◌≡◌, ◌++◌, map, MatchResult, OnOk};
ghost use Rattle.std.specs.List.{flat_map};
ghost use Rattle.capture.specs.Reading.{shown_next, placed_at, records_in};
ghost use Rattle.capture.specs.Records.{entry_of};
ghost use Rattle.capture.specs.Feeding.{comes, Settled, NotTaken};
ghost use Rattle.capture.specs.Indexing.{index_entry_of, ending_in, PassedAll, Took, Indexes, NotIndexed};

use crate::blocks::Blocks;
use crate::layout::{Ending, FeedError, Index, IndexEntry, Next, Placed};
use std::alloc::{AllocError, Global};

impl From<Placed<'_>> for IndexEntry {
    ghost from_gives = { λ placed e. e ≡ index_entry_of (placed_at placed.place (entry_of placed.record)) };

    // The record's place and numbers.
    fn from(placed: Placed<'_>) -> IndexEntry {
        IndexEntry {
            place: placed.place,
            seconds: placed.record.seconds,
            microseconds: placed.record.microseconds,
            captured: placed.record.frame.len(),
            original: placed.record.original,
        }
    }
}

impl Blocks {
    // How the capture ends, where that has come.
    pub(crate) fn ending(&self) -> Option<Ending>
        ensures value { result ≡ ending_in (comes self.now) }
        ensures settles { Settled self.now (comes self.now) }
    {
        match self.look() {
            Next::Ended => Some(Ok(())),
            Next::Stopped(fault) => Some(Err(fault)),
            _ => None,
        }
    }
}

// Lists the record that comes next, where one does.
fn list(entries: &mut Vec<IndexEntry>, next: Next<'_>) -> Result<(), AllocError>
    ensures listed { OnOk result (entries.new.items ≡ entries.old.items ++ map index_entry_of (records_in (shown_next next.entry))) }
{
    if let Next::Handed(placed) = next {
        entries.push(placed.into())?;
    }
    Ok(())
}

// A capture that comes in, and the index of what it has handed out.
#[derive(Drop)]
struct Indexer {
    capture: Blocks,
    entries: Vec<IndexEntry>,
}

impl Indexer {
    // Passes whatever has come in whole, and lists the records.
    fn pass_all(&mut self) -> Result<(), AllocError>
        ensures made { OnOk result (PassedAll self.old self.new) }
    {
        'passing: while let next @ (Next::Header(_) | Next::Handed(_)) = self.capture.look() {
            list(&mut self.entries, next)?;
            self.capture.advance();
        }
        Ok(())
    }

    // Takes in a block, and passes whatever has then come in whole.
    fn take(&mut self, block: &[u8]) -> Result<(), FeedError>
        ensures cases { MatchResult result (λ _. Took self.old self.new block.now) (λ e. NotTaken self.old.capture block.now e) }
    {
        self.capture.feed(block)?;
        self.pass_all()?;
        Ok(())
    }

    // The index of a capture that ends so.
    fn index(self, ending: Ending) -> Index
        ensures value { result ≡ record { header = self.capture.header; entries = self.entries; ending = ending } }
    {
        Index {
            header: self.capture.header,
            entries: self.entries,
            ending,
        }
    }
}

// The index of the capture that the blocks are, one behind another. However it is cut, it is that of the whole.
pub fn index_blocks(heap: Global, blocks: &[&[u8]]) -> Result<Index, FeedError>
    ensures cases { MatchResult result (λ x. Indexes (flat_map (λ x. x.now) blocks.now) x) (λ e. NotIndexed (flat_map (λ x. x.now) blocks.now) e) }
{
    let mut indexer = Indexer {
        capture: Blocks::new(heap),
        entries: Vec::new(heap),
    };
    for block in blocks {
        indexer.take(block)?;
        if let Some(ending) = indexer.capture.ending() {
            return Ok(indexer.index(ending));
        }
    }
    indexer.capture.close();
    indexer.pass_all()?;
    let ending = indexer.capture.ending().unwrap_or(Ok(()));
    Ok(indexer.index(ending))
}
