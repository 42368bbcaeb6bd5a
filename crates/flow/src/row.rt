// The plain types of a table.
ghost use Rattle.std.specs.Prelude.{◌≡◌};
ghost use Rattle.flow.specs.Tables.{number_of};

// One row: a key, its meter, and the row behind it in its chain. Rows are lent with any content.
// The row behind is a number: the rows are a slice that the caller lends, so no row holds another.
#[derive(Clone, Copy)]
pub struct Row<K, M> {
    pub key: K,
    pub meter: M,
    pub next: u16,
}

// Why no table is made.
#[derive(Clone, Copy, PartialEq, Eq, Debug)]
pub enum Refusal {
    // no rows, or more than the most
    BadRowCount,
}

// Why a key gets no row.
#[derive(Clone, Copy, PartialEq, Eq, Debug)]
pub enum Unplaced {
    // it has one
    Held,
    // every row is in use
    Full,
}

// What is asked of a table that is used as a map.
#[derive(Clone, Copy)]
pub enum Call<K, M> {
    Look(K),
    Place(K, M),
}

// What it replies.
#[derive(Clone, Copy, PartialEq, Eq, Debug)]
pub enum Reply<M> {
    // the meter that is held, if there is one
    Looked(Option<M>),
    // or why the key has no row
    Placed(Result<(), Unplaced>),
}

impl Refusal {
    // No discriminants: this function and its definition would stay, and only the numbers move.
    pub fn number(self) -> u8
        ensures { result ≡ number_of self }
    {
        match self {
            Refusal::BadRowCount => 8,
        }
    }
}
