// What a capture is made of, and what is refused in one.

// The order of the bytes of every number in a capture.
#[derive(Clone, Copy, PartialEq, Eq, Debug)]
pub enum Order {
    // the lowest byte first
    Little,
    // the highest byte first
    Big,
}

// What is refused in a capture.
#[derive(Clone, Copy, PartialEq, Eq, Debug)]
pub enum Refusal {
    // a file of under 24 bytes
    ShortFile,
    // the magic number in neither order
    BadMagic,
    // a version other than 2.4
    BadVersion,
    // a link type other than Ethernet
    BadLink,
    // a record's header or frame is not whole
    Incomplete,
    // a fraction of a second that is a second or more
    BadFraction,
    // an original length of 0 or too large, or a captured length above it or too large
    BadLength,
}

// A file's header. Magic, version and link type are the same in every capture; zone, accuracy and snap length are kept
// as they came, and never judged.
#[derive(Clone, Copy, PartialEq, Eq, Debug)]
pub struct FileHeader {
    pub order: Order,
    pub zone: u32,
    pub accuracy: u32,
    pub snap_length: u32,
}

// A packet as it was captured. Its captured length is the frame's.
#[derive(Clone, Copy, PartialEq, Eq, Debug)]
pub struct Record<'a> {
    pub seconds: u32,
    pub microseconds: u32,
    pub original: u32,
    pub frame: &'a [u8],
}

// Why the bytes at hand give no record.
#[derive(Clone, Copy, PartialEq, Eq, Debug)]
pub enum NoRecord {
    // at least so many bytes are wanted
    Wanting(usize),
    // the record that they begin with is refused
    Refused(Refusal),
}

// A record and the place of its first byte in the capture. Its frame begins 16 bytes on.
#[derive(Clone, Copy, PartialEq, Eq, Debug)]
pub struct Placed<'a> {
    pub place: u64,
    pub record: Record<'a>,
}

// What is refused, and the place of its record; 0 for the file's header.
#[derive(Clone, Copy, PartialEq, Eq, Debug)]
pub struct Fault {
    pub refusal: Refusal,
    pub place: u64,
}

// What comes next in a capture.
#[derive(Clone, Copy, PartialEq, Eq, Debug)]
pub enum Next<'a> {
    // the file's header, which comes first
    Header(FileHeader),
    // a record
    Handed(Placed<'a>),
    // nothing, until there are at least so many bytes, or the end has come
    Wanting(usize),
    // the end, after the last record
    Ended,
    // a fault, behind which nothing comes
    Stopped(Fault),
}

// How a capture ends: after its last record, or at a fault.
pub type Ending = Result<(), Fault>;

// Why bytes could not be taken in. The capture itself is not at fault.
#[derive(Clone, Copy, PartialEq, Eq, Debug)]
pub enum FeedError {
    // the input was closed before
    Closed,
    // a place in the capture would be above 64 bits
    TooLong,
    // no memory
    NoMemory,
}

// A record's place in the capture, and its numbers.
#[derive(Clone, Copy, PartialEq, Eq, Debug)]
pub struct IndexEntry {
    pub place: u64,
    pub seconds: u32,
    pub microseconds: u32,
    pub captured: usize,
    pub original: u32,
}

// Where each record of a capture stands, and how the capture ends.
#[derive(PartialEq, Eq, Debug, Drop)]
pub struct Index {
    pub header: Option<FileHeader>,
    pub entries: Vec<IndexEntry>,
    pub ending: Ending,
}

// Why a record was not written.
#[derive(Clone, Copy, PartialEq, Eq, Debug)]
pub enum WriteError {
    // it could not be read again
    Refused(Refusal),
    // no memory
    NoMemory,
}
