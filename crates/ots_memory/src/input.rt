ghost use Rattle.std.specs.Prelude.{◌≡◌, [], length, take, drop, min};
ghost use Rattle.ots_outside.specs.Dialer.{ReplyTold, ReplyGives};

use std::marker::Model;

/// Bytes that are read once, from their start, as a reply is.
#[derive(Drop)]
pub struct Input {
    bytes: Vec<u8>,
    place: usize,
}

impl Model for Input {
    ghost use Rattle.std.specs.Prelude.{◌≤◌, length, take, drop};
    ghost use Rattle.ots_outside.specs.Dialer.{ReplyTold};

    ghost Value = { ReplyTold };

    ghost view = { λ i. record { left = drop i.place i.bytes.items; given = take i.place i.bytes.items } };

    ghost invariant = { λ i. i.place ≤ length i.bytes.items };
}

impl Input {
    /// All of these bytes are left.
    pub fn new(bytes: Vec<u8>) -> Input
        ensures { result ≡ record { left = bytes.items; given = [] } }
    {
        Input { bytes, place: 0 }
    }

    /// How many bytes are left.
    pub fn left(&self) -> usize
        ensures { result ≡ length self.now.left }
    {
        self.bytes.len() - self.place
    }

    /// The bytes that reads have given.
    pub fn given(&self) -> &[u8]
        ensures { result.now ≡ self.now.given }
    {
        &self.bytes[..self.place]
    }

    /// Puts the next bytes at the start of `buf`, as many as there are and fit, and answers how
    /// many.
    pub fn read(&mut self, buf: &mut [u8]) -> usize
        ensures count { result ≡ min (length self.old.left) (length buf.old) }
        ensures gives { ReplyGives (take result buf.new) self.old self.new }
    {
        let rest = &self.bytes[self.place..];
        let count = rest.len().min(buf.len());
        buf[..count].copy_from_slice(&rest[..count]);
        self.place += count;
        count
    }
}
