// A capture that is read in blocks.
ghost use Rattle.std.specs.Prelude.{◌+◌, ◌-◌, ◌^◌, ◌<◌, ◌≤◌, vec_len};

use crate::layout::FileHeader;
use std::alloc::Global;

// What has come in and is not yet passed, and how far reading has come. Every place up to the last byte fits 64 bits.
#[derive(Drop)]
pub struct Blocks {
    pub(crate) heap: Global,
    // The bytes at hand, of which the first `behind` are passed. To drain each record off the front was tried, and took
    // over ten times as long: it moves all the bytes behind it. `feed` leaves the passed ones out.
    pub(crate) held: Vec<u8>,
    pub(crate) behind: usize,
    // the place in the capture of the first byte that is not passed
    pub(crate) place: u64,
    // the file's header, once it was passed
    pub(crate) header: Option<FileHeader>,
    // no more bytes come in
    pub(crate) closed: bool,
    ghost within: { behind ≤ vec_len held },
    ghost placed: { place + (vec_len held - behind) < 2 ^ 64 },
}
