// The table as a map from keys to meters.
ghost use Rattle.std.specs.Prelude.{◌≡◌, List, length, if◌then◌else◌, MatchResult};
ghost use Rattle.flow.specs.Maps.{Entry, Mapped, lookup, put, fits, placed, reply_to, after_call, Served};
ghost use Rattle.flow.specs.Tables.{rows_of, Same, SameSlice};

use crate::key::Key;
use crate::row::{Call, Reply, Unplaced};
use crate::table::FlowTable;
use std::alloc::{AllocError, Global};

impl<K: Key + Copy, M: Copy> FlowTable<'_, K, M> {
    // The meter that is held for a key. For every map that the table is: no call of it has a premise, so that stands in
    // the clause.
    pub fn get(&self, key: &K) -> Option<M>
        ensures { (es : List (Entry K M)) → Mapped self.now es → result ≡ lookup K.bytes es key.now }
    {
        self.meter(self.find(key)?)
    }

    // Holds the meter for the key from now on; refused, and nothing changed, where no row is free for a new key.
    pub fn put(&mut self, key: K, meter: M) -> Result<(), Unplaced>
        ensures same { SameSlice self.old self.new }
        ensures mapped { (es : List (Entry K M)) → Mapped self.old es → (result ≡ placed (fits K.bytes (length (rows_of self.old)) es key)) × Mapped self.new (if fits K.bytes (length (rows_of self.old)) es key then put K.bytes es key meter else es) }
    {
        match self.find(&key) {
            // A row that was found is in use, so its meter is set.
            Some(row) => self.set(row, meter).ok_or(Unplaced::Full),
            None => self.insert(key, meter).map(|_| ()),
        }
    }

    fn answer(&mut self, call: Call<K, M>) -> Reply<M>
        ensures same { SameSlice self.old self.new }
        ensures mapped { (es : List (Entry K M)) → Mapped self.old es → (result ≡ reply_to K.bytes (length (rows_of self.old)) es call) × Mapped self.new (after_call K.bytes (length (rows_of self.old)) es call) }
    {
        match call {
            Call::Look(key) => Reply::Looked(self.get(&key)),
            Call::Place(key, meter) => Reply::Placed(self.put(key, meter)),
        }
    }

    // Answers a list of calls, one after another; want of memory is found before the first.
    pub fn serve(&mut self, heap: Global, calls: &[Call<K, M>]) -> Result<Vec<Reply<M>>, AllocError>
        ensures same { SameSlice self.old self.new }
        ensures served { MatchResult result (λ v. Served self.old self.new calls.now v.items) (λ _. Same self.old self.new) }
    {
        let mut replies = Vec::with_capacity(heap, calls.len())?;
        // A loop and no chain: of a closure that changes the table a proof knows nothing afterwards.
        for call in calls {
            replies.push_reserved(self.answer(*call));
        }
        Ok(replies)
    }
}
