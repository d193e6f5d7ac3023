//! Timeouts that connections have from the socket that listens.
use crate::conversation::WAIT_SECONDS;
use libc::net;
use std::io;
use std::net::OpenStream;
use std::os::fd::AsRawFd;
use std::time::Duration;

/// Whether connections have both timeouts from the socket that listens. On Linux an accepted socket begins with
/// the options of the one that listens, so that they need not be set on each, which would be two calls of the
/// system. No standard says so, and the first connection shows it.
#[derive(Clone, Copy)]
pub enum Inherited {
    /// They haven't: each connection is given its own.
    No,
    /// The socket that listens has them, and no connection was looked at.
    Unseen,
    /// They have them.
    Yes,
}

impl Inherited {
    /// Gives a socket that listens both timeouts.
    pub fn asked_of<L: AsRawFd>(listener: &L) -> Inherited {
        let fd = listener.as_raw_fd();
        let value = timeval();
        let reads = unsafe { net::setsockopt(fd, net::SOL_SOCKET, net::SO_RCVTIMEO, &value, 16) };
        let writes = unsafe { net::setsockopt(fd, net::SOL_SOCKET, net::SO_SNDTIMEO, &value, 16) };
        if reads == 0 && writes == 0 {
            Inherited::Unseen
        } else {
            Inherited::No
        }
    }

    /// Looks at the first connection.
    pub fn see<S: OpenStream>(&mut self, stream: &S) {
        if let Inherited::Unseen = self {
            *self = if has_both(stream) {
                Inherited::Yes
            } else {
                Inherited::No
            };
        }
    }

    /// The timeout that a connection has already for each way.
    pub fn timeout(self) -> Option<Duration> {
        match self {
            Inherited::Yes => Some(Duration::from_secs(WAIT_SECONDS)),
            Inherited::No | Inherited::Unseen => None,
        }
    }
}

/// Whether a connection has both timeouts.
fn has_both<S: OpenStream>(stream: &S) -> bool {
    is_whole(stream.read_timeout()) && is_whole(stream.write_timeout())
}

/// Whether a timeout is as long as a call waits at most for its peer.
fn is_whole(timeout: io::Result<Option<Duration>>) -> bool {
    match timeout {
        Ok(Some(timeout)) => timeout == Duration::from_secs(WAIT_SECONDS),
        Ok(None) | Err(_) => false,
    }
}

/// The timeout as socket(7) takes it: whole seconds, and no microseconds.
fn timeval() -> [u8; 16] {
    let mut value = [0; 16];
    value[..8].copy_from_slice(&WAIT_SECONDS.to_ne_bytes());
    value
}
