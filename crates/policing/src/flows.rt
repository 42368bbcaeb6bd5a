// The flows of both kinds.
use flow::table::FlowTable;
use packet::kinds::{Conversation, Station};

// Each kind of key has its table.
#[derive(Drop)]
pub struct Flows<'a, M> {
    pub conversations: FlowTable<'a, Conversation, M>,
    pub stations: FlowTable<'a, Station, M>,
}

// The row that a flow has, and the meter in it.
#[derive(Clone, Copy, PartialEq, Eq, Debug)]
pub struct FlowRow<M> {
    pub row: usize,
    pub meter: M,
}
