//! What a peer has sent before its connection is handed out.
ghost use Rattle.std.specs.Prelude.{◌≡◌, ◌++◌, ◌+◌, ◌≤◌, length};
ghost use Rattle.std.specs.Vec.{vec_capacity, vec_len};
ghost use Rattle.ots_real.specs.Ahead.{heard_bytes};

use libc::net;
use std::alloc::Global;
use std::io;
use std::io::ErrorKind;
use std::os::fd::AsRawFd;

/// How many bytes are taken at once: mostly a request is shorter.
const PIECE: usize = 1_024;

/// The bytes of the longest head that is waited for; who sends more without an end has said enough.
const LONGEST_HEAD: usize = 8_192;

/// The first bytes that a peer has sent, which were taken of its connection.
#[derive(Drop)]
pub struct Heard {
    bytes: Vec<u8>,
    lines: Lines,
}

/// What was seen of the lines of a head.
#[derive(Drop)]
struct Lines {
    /// Whether one that isn't empty has come.
    has_line: bool,
    /// Whether the one that is coming is empty till now.
    is_empty: bool,
}

impl Heard {
    /// Nothing.
    pub fn new(alloc: Global) -> Heard {
        Heard {
            bytes: Vec::new(alloc),
            lines: Lines {
                has_line: false,
                is_empty: true,
            },
        }
    }

    /// All of it.
    pub fn into_bytes(self) -> Vec<u8>
        ensures { result.items ≡ heard_bytes self }
    {
        self.bytes
    }

    /// Takes what has come of a peer, and waits for nothing: whether its connection is to be served. That is
    /// so once a head has come whole, what begins no head, more than a head may have, the peer's end or an
    /// error, and where there is no memory to keep more.
    pub fn hear<S: AsRawFd>(&mut self, stream: &S) -> bool {
        let mut piece = [0; PIECE];
        for _ in 0..=LONGEST_HEAD / PIECE {
            // What is taken is to be kept, so there is to be room for it before.
            if self.bytes.reserve_exact(PIECE).is_err() {
                return true;
            }
            let got = unsafe { net::recv(stream.as_raw_fd(), &mut piece, net::MSG_DONTWAIT) };
            match usize::try_from(got) {
                Ok(count) if count > 0 => {
                    if self.is_enough_with(&piece[..count]) {
                        return true;
                    }
                    if count < PIECE {
                        return false;
                    }
                }
                Ok(_) => return true,
                Err(_) => {
                    let is_over = !would_wait();
                    if self.bytes.is_empty() {
                        self.bytes.shrink_to_fit();
                    }
                    return is_over;
                }
            }
        }
        true
    }

    /// Keeps more bytes, for which there is room: whether there is enough now.
    fn is_enough_with(&mut self, more: &[u8]) -> bool
        requires room { vec_len self.old.bytes + length more.now ≤ vec_capacity self.old.bytes }
        ensures kept { heard_bytes self.new ≡ heard_bytes self.old ++ more.now }
    {
        let begins_no_head = match more.first() {
            Some(first) => self.bytes.is_empty() && !begins_head(*first),
            None => false,
        };
        let _ = self.bytes.extend_from_slice(more);
        begins_no_head || self.lines.end_in(more) || self.bytes.len() > LONGEST_HEAD
    }
}

impl Lines {
    /// Whether a head ends in these bytes, which come next: with an empty line after one that isn't.
    fn end_in(&mut self, more: &[u8]) -> bool {
        for byte in more {
            match *byte {
                b'\n' if self.is_empty && self.has_line => return true,
                b'\n' => self.is_empty = true,
                b'\r' => {}
                _ => {
                    self.is_empty = false;
                    self.has_line = true;
                }
            }
        }
        false
    }
}

/// Whether a byte may begin a head: a method of HTTP begins with a letter, and white space may stand before it.
fn begins_head(byte: u8) -> bool {
    byte.is_ascii_alphabetic() || byte.is_ascii_whitespace()
}

/// Whether the last call failed since nothing has come.
fn would_wait() -> bool {
    matches!(
        io::Error::from_raw_os_error(os::errno()).kind(),
        ErrorKind::WouldBlock | ErrorKind::Interrupted
    )
}
