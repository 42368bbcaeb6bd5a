// The two kinds of key: conversations of nine bytes, stations of six.
ghost use Rattle.flow.specs.Bytes.{conversation_bytes};
ghost use Rattle.std.proofs.Common.{rules};

use crate::key::Key;
use packet::kinds::{Conversation, Station};

impl Key for Conversation {
    const LEN: usize = 9;

    ghost LEN = { 9 };

    ghost bytes = { conversation_bytes };

    ghost told = { Prim.search rules };

    fn byte(&self, i: usize) -> u8 {
        match i {
            0..=3 => self.source.0.to_be_bytes()[i],
            4..=7 => self.destination.0.to_be_bytes()[i - 4],
            8 => self.protocol,
            _ => 0,
        }
    }

    fn same(&self, other: &Self) -> bool {
        self == other
    }
}

impl Key for Station {
    const LEN: usize = 6;

    ghost LEN = { 6 };

    ghost bytes = { λ k. k.source };

    ghost told = { Prim.search rules };

    fn byte(&self, i: usize) -> u8 {
        self.source.get(i).copied().unwrap_or(0)
    }

    fn same(&self, other: &Self) -> bool {
        self.source == other.source
    }
}
