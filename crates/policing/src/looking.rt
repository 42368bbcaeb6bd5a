// A flow's meter looked up, and kept, in one table of any kind of key, and in the table of a key's kind.
ghost use Rattle.flow.specs.Tables.{SameSlice};
ghost use Rattle.policing.specs.Flows.{Looked, Keeps, LookedBy, KeepsBy, SameSlices};

use crate::flows::{FlowRow, Flows};
use flow::key::Key;
use flow::table::FlowTable;
use history::answers::Refusal;
use packet::kinds;

// The row that the key has, and the meter in it; none where one is free for it.
fn look_in<K: Key + Copy, M: Copy>(
    table: &FlowTable<'_, K, M>,
    key: &K,
) -> Result<Option<FlowRow<M>>, Refusal>
    ensures { Looked table.now key.now result }
{
    match table.find(key) {
        Some(row) => Ok(table.meter(row).map(|meter| FlowRow { row, meter })),
        None if table.is_full() => Err(Refusal::TableFull),
        None => Ok(None),
    }
}

// In the row that the key has, or in a new one. Neither call can refuse where the look-up said so, and otherwise
// nothing is promised: so their answers are dropped.
fn keep_in<K: Key + Copy, M: Copy>(
    table: &mut FlowTable<'_, K, M>,
    key: K,
    row: Option<usize>,
    meter: M,
)
    ensures same { SameSlice table.old table.new }
    ensures keeps { Keeps table.old table.new key row meter }
{
    match row {
        Some(row) => {
            let _ = table.set(row, meter);
        }
        None => {
            let _ = table.insert(key, meter);
        }
    }
}

// Two calls, with the judgement between them: one that lends a table would stand around all of it. Each picks the table
// of the key's kind, whose type is another.
impl<'a, M: Copy> Flows<'a, M> {
    // What the table of the key's kind has for it.
    pub fn look(&self, key: kinds::Key) -> Result<Option<FlowRow<M>>, Refusal>
        ensures { LookedBy self.now key result }
    {
        match key {
            kinds::Key::Conversation(key) => look_in(&self.conversations, &key),
            kinds::Key::Station(key) => look_in(&self.stations, &key),
        }
    }

    // Keeps a flow's meter in the table of the key's kind.
    pub fn keep(&mut self, key: kinds::Key, row: Option<usize>, meter: M)
        ensures same { SameSlices self.old self.new }
        ensures keeps { KeepsBy self.old self.new key row meter }
    {
        match key {
            kinds::Key::Conversation(key) => keep_in(&mut self.conversations, key, row, meter),
            kinds::Key::Station(key) => keep_in(&mut self.stations, key, row, meter),
        }
    }
}
