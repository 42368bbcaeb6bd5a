// The table: rows that the caller lends, 64 chains through them, and how many are in use.
ghost use Rattle.flow.specs.Keys.{chain_of};
ghost use Rattle.flow.specs.Rows.{Sound};

use crate::key::{CHAINS, Key};
use crate::links;
use crate::row::{Refusal, Row, Unplaced};

// The most rows of a table.
pub const MOST_ROWS: usize = 4_096;

// A number past every row: what ends a chain.
const END: u16 = u16::MAX;

// The rows are a slice that the caller lends: so chains go by the numbers of rows, and how many are in use stands
// beside.
#[derive(Drop)]
pub struct FlowTable<'a, K: Key, M> {
    pub(crate) rows: &'a mut [Row<K, M>],
    pub(crate) heads: [u16; CHAINS],
    pub(crate) used: usize,
    // the rows and their chains are sound, as a mere fact
    pub ghost whole: { ∥ Sound (λ k. chain_of (K.bytes k)) rows.now heads used ∥₁ },
}

impl<'a, K: Key + Copy, M: Copy> FlowTable<'a, K, M> {
    ghost use Rattle.std.specs.Prelude.{◌≡◌, [], length, MatchResult, nat_le};
    ghost use Rattle.flow.specs.Maps.{Mapped};
    ghost use Rattle.flow.specs.Tables.{rows_of, BadCount, Fresh, Finds, SameSlice, Places, Read, Replaces};

    // An empty table over the rows, whose contents it leaves alone.
    pub fn new(rows: &'a mut [Row<K, M>]) -> Result<FlowTable<'a, K, M>, Refusal>
        ensures { MatchResult result (λ t. Fresh rows.old t × Mapped t []) (λ _. BadCount (length rows.old)) }
    {
        if rows.is_empty() || rows.len() > MOST_ROWS {
            return Err(Refusal::BadRowCount);
        }
        Ok(FlowTable {
            rows,
            heads: [END; CHAINS],
            used: 0,
        })
    }

    // Whether every row is in use.
    pub fn is_full(&self) -> bool
        ensures { result ≡ nat_le (length (rows_of self.now)) self.now.used }
    {
        self.rows.len() <= self.used
    }

    // The row that has the key.
    pub fn find(&self, key: &K) -> Option<usize>
        ensures { Finds self.now key.now result }
    {
        links::find_row(self.rows, &self.heads, key)
    }

    // Takes a free row for a key that has none, in front of its chain.
    pub fn insert(&mut self, key: K, meter: M) -> Result<usize, Unplaced>
        ensures same { SameSlice self.old self.new }
        ensures places { Places self.old self.new key meter result }
    {
        if self.find(&key).is_some() {
            return Err(Unplaced::Held);
        }
        if self.is_full() {
            return Err(Unplaced::Full);
        }
        let row = self.used;
        // as u16: there are fewer than the most rows
        links::link_row(self.rows, &mut self.heads, row as u16, key, meter);
        self.used = row + 1;
        Ok(row)
    }

    // The meter of a row in use.
    pub fn meter(&self, row: usize) -> Option<M>
        ensures { Read self.now row result }
    {
        let row = self.rows[..self.used].get(row)?;
        Some(row.meter)
    }

    // Replaces the meter of a row in use; none where the row is not.
    pub fn set(&mut self, row: usize, meter: M) -> Option<()>
        ensures same { SameSlice self.old self.new }
        ensures replaces { Replaces self.old self.new row meter result }
    {
        if row >= self.used {
            return None;
        }
        // No `get_mut`: it says nothing of what the slice ends as.
        self.rows[row].meter = meter;
        Some(())
    }
}
