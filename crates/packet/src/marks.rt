// The table of marks: one code point for each class and colour.
ghost use Rattle.std.specs.Prelude.{◌≡◌, true, length};
ghost use Rattle.packet.specs.Codes.{all_below, distinct};

// The code points class by class, each green, yellow, red. They fit six bits and no two are equal; any such table will do.
#[derive(Clone, Copy)]
pub struct Marks {
    pub(crate) codes: [u8; 12],
    ghost twelve: { length codes ≡ 12 },
    ghost small: { all_below 64 codes ≡ true },
    ghost apart: { distinct codes ≡ true },
}
