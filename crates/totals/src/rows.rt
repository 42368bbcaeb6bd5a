// The table of totals.

// Packets, and the bytes of them all. Its own: `colour` is a program's count, which stops where this one saturates.
#[derive(Clone, Copy, PartialEq, Eq, Default, Debug)]
pub struct Count {
    pub packets: u64,
    pub bytes: u64,
}

// What was carried, by colour, and how many refusals there were.
#[derive(Clone, Copy, PartialEq, Eq, Default, Debug)]
pub struct Total {
    pub green: Count,
    pub yellow: Count,
    pub refused: u64,
}

// One row for the line and one for each node that there can be.
pub const ROWS: usize = 33;

// A plain struct, so that the table asks for no memory. Row 0 is the line's; `offered` counts every record that was offered.
#[derive(Clone, Copy, PartialEq, Eq, Debug)]
pub struct Totals {
    pub offered: u64,
    pub rows: [Total; ROWS],
}
