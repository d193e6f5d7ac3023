//! Why the system took no connection.
ghost use Rattle.std.specs.Prelude.{◌≡◌};
ghost use Rattle.std.specs.IoError.{raw_os_error};
ghost use Rattle.ots_real.specs.AcceptError.{cause_of};

use std::io;

// The errors of Linux on x86-64 by their numbers, as errno(3) names them.

/// Firewall rules forbid the connection.
const EPERM: i32 = 1;
/// A signal came before a connection.
const EINTR: i32 = 4;
/// No connection waits.
const EAGAIN: i32 = 11;
/// The system has no memory left.
const ENOMEM: i32 = 12;
/// The system has no file descriptor left.
const ENFILE: i32 = 23;
/// The process has no file descriptor left.
const EMFILE: i32 = 24;
/// The machine isn't on the network.
const ENONET: i32 = 64;
/// A protocol error.
const EPROTO: i32 = 71;
/// The protocol is not available.
const ENOPROTOOPT: i32 = 92;
/// The operation isn't supported on the connection's transport endpoint.
const EOPNOTSUPP: i32 = 95;
/// The network is down.
const ENETDOWN: i32 = 100;
/// The network can't be reached.
const ENETUNREACH: i32 = 101;
/// The connection was aborted.
const ECONNABORTED: i32 = 103;
/// The connection was reset by the peer.
const ECONNRESET: i32 = 104;
/// The system has no buffer left.
const ENOBUFS: i32 = 105;
/// The connection timed out.
const ETIMEDOUT: i32 = 110;
/// The host is down.
const EHOSTDOWN: i32 = 112;
/// The host can't be reached.
const EHOSTUNREACH: i32 = 113;

/// Why the system took no connection.
#[derive(Clone, Copy, PartialEq, Eq, Drop)]
pub enum AcceptError {
    /// Something about the connection that was to be taken, or a call that ended without one. The
    /// next may be taken at once. Linux passes on the errors that already wait on the new connection,
    /// which accept(2) says are to be treated like EAGAIN, by trying again.
    OfOneConnection,
    /// File descriptors, buffers or memory are short, which other connections give back as they end.
    Short,
    /// Anything else, which trying again doesn't mend.
    Other,
}

impl AcceptError {
    /// Sorts an error of accept(2).
    pub fn of(error: &io::Error) -> AcceptError
        ensures { result ≡ cause_of (raw_os_error error.now) }
    {
        match error.raw_os_error() {
            Some(EMFILE | ENFILE | ENOBUFS | ENOMEM) => AcceptError::Short,
            Some(
                EPERM
                | EINTR
                | EAGAIN
                | ENONET
                | EPROTO
                | ENOPROTOOPT
                | EOPNOTSUPP
                | ENETDOWN
                | ENETUNREACH
                | ECONNABORTED
                | ECONNRESET
                | ETIMEDOUT
                | EHOSTDOWN
                | EHOSTUNREACH,
            ) => AcceptError::OfOneConnection,
            _ => AcceptError::Other,
        }
    }
}
