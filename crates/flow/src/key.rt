// What a table is keyed by: a few bytes, of a number that the kind of key fixes.
ghost use Rattle.std.specs.Prelude.{◌≡◌, ℕ, List, length, Decides, slice_index};
ghost use Rattle.flow.specs.Keys.{chain_of};

// How many chains a table has.
pub const CHAINS: usize = 64;

pub trait Key: Sized {
    // The number of bytes, and the bytes.
    const LEN: usize;

    ghost LEN: { ℕ };

    ghost bytes: { Self → List ℕ };

    // The byte at a place, and 0 past the last.
    fn byte(&self, i: usize) -> u8
        ensures value { result ≡ slice_index (bytes self.now) i }
        ensures whole { length (bytes self.now) ≡ LEN };

    fn same(&self, other: &Self) -> bool
        ensures { Decides result (self.now ≡ other.now) };

    // Which chain the key belongs to: the exclusive or of its bytes, its low six bits.
    fn chain(&self) -> usize
        ensures { result ≡ chain_of (bytes self.now) }
    {
        // A loop and no fold: tried, and a closure that calls `byte` hands no equation on.
        let mut all = self.byte(0);
        for i in 1..Self::LEN {
            all ^= self.byte(i);
        }
        usize::from(all) % CHAINS
    }

    // Keys with equal bytes are equal.
    ghost told: { (j k : Self) → bytes j ≡ bytes k → j ≡ k };
}
