// The rows and their chains, as functions over a slice.
ghost use Rattle.std.specs.Prelude.{◌≡◌, ℕ, ◌<◌, length, slice_index, slice_set};
ghost use Rattle.flow.specs.Keys.{chain_of};
ghost use Rattle.flow.specs.Rows.{Sound, Found};

use crate::key::{CHAINS, Key};
use crate::row::Row;

// The row that has the key. The walk takes no more turns than there are rows, whatever the rows hold.
pub(crate) fn find_row<K: Key, M>(
    rows: &[Row<K, M>],
    heads: &[u16; CHAINS],
    key: &K,
) -> Option<usize>
    ensures { (used : ℕ) → Sound (λ k. chain_of (K.bytes k)) rows.now heads.now used → Found rows.now used key.now result }
{
    let mut at = usize::from(heads[key.chain()]);
    for _ in 0..rows.len() {
        let row = rows.get(at)?;
        if row.key.same(key) {
            return Some(at);
        }
        at = usize::from(row.next);
    }
    None
}

// A free row is written, in front of its key's chain.
pub(crate) fn link_row<K: Key + Copy, M: Copy>(
    rows: &mut [Row<K, M>],
    heads: &mut [u16; CHAINS],
    row: u16,
    key: K,
    meter: M,
)
    requires { row < length rows.old }
    ensures rows { rows.new ≡ slice_set rows.old row (record { key = key; meter = meter; next = slice_index heads.old (chain_of (K.bytes key)) }) }
    ensures heads { heads.new ≡ slice_set heads.old (chain_of (K.bytes key)) row }
{
    let head = &mut heads[key.chain()];
    // no `get_mut`: it says nothing of what the slice ends as
    rows[usize::from(row)] = Row {
        key,
        meter,
        next: *head,
    };
    *head = row;
}
