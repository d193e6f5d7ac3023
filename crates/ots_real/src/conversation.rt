//! How long a conversation may last.
ghost use Rattle.std.specs.Duration.{as_nanos};
ghost use Rattle.ots_real.specs.TimeLimit.{IsLeft};

use std::time::Duration;

/// The most seconds that a request takes, from the accept of its connection on. A peer that sends
/// nothing, or a byte now and then, is waited for no longer, so that none holds a worker for long: a
/// request to a calendar is some hundred bytes, and comes within two round trips. The limit is this
/// project's.
pub const REQUEST_SECONDS: u64 = 10;

/// The most seconds that a reply takes, from its first write to the last, so that a peer that takes
/// nothing of it is cut off. The limit is this project's, as long as that of a request.
pub const REPLY_SECONDS: u64 = 10;

/// The most seconds that a conversation lasts with a host that was called, from the connect to its
/// last read or write. A calendar may wait with its reply until it has stored what it was sent, so
/// this is more than a request and a reply take. The limit is this project's.
pub const CONVERSATION_SECONDS: u64 = 60;

/// The most seconds that a gateway's conversation with a calendar lasts. Its clients wait a minute for
/// all of a round, so that two calendars that are silent fit into it. The limit is this project's.
pub const ROUND_CONVERSATION_SECONDS: u64 = 20;

/// The most seconds that one address of a host is given to answer a connect. The limit is this
/// project's.
pub const CONNECT_SECONDS: u64 = 10;

/// The most seconds that a finished link waits for the end of what its peer sends, from its finish on.
/// A peer whose reply has come closes at once, so this is a few round trips. The limit is this
/// project's.
pub const DRAIN_SECONDS: u64 = 1;

/// The most bytes that a finished link reads and drops of what its peer still sends, as the rest of
/// a request that was refused early. The limit is this project's.
pub const DRAIN_BYTES: usize = 8_192;

/// The most seconds that one call waits for its peer. A call that was waited for so long is made again
/// as long as its limit isn't over, so a socket mostly has one timeout from its first call on: setting
/// another is a call of the system.
pub const WAIT_SECONDS: u64 = 1;

/// How many connections may wait in the system's queue of a listening socket, until they are accepted:
/// more than come at once in a burst. The kernel has a cap of its own, `net.core.somaxconn`. The limit
/// is this project's.
pub const LISTEN_QUEUE: i32 = 4_096;

/// The most connections that are held while they have sent no whole head, where the limit on open
/// files allows so many: looking at all of them is to take less than a millisecond. The limit is this
/// project's.
pub const MAX_HELD: usize = 16_384;

/// The least that a call waits, in milliseconds. A time limit of 0 would mean none to the system.
const LEAST_WAIT: u64 = 1;

/// What is left of a limit after this time, at least a millisecond: `None` exactly where it has
/// passed whole.
pub fn time_left(limit: Duration, passed: Duration) -> Option<Duration>
    ensures { IsLeft limit (as_nanos passed) result }
{
    let left = limit.saturating_sub(passed);
    if left.is_zero() {
        None
    } else if left.as_millis() == 0 {
        Some(Duration::from_millis(LEAST_WAIT))
    } else {
        Some(left)
    }
}
