//! The time limit of one way of a conversation, which is its reads or its writes.
ghost use Rattle.std.specs.Prelude.{◌≡◌, ◌≤◌, ◌-◌, ◌/◌, ◌↔◌, ◌<◌, None, Some, IsTrue, IfOk, IfSome, IsSome, OnOk};
ghost use Rattle.std.specs.Prelude.{is_some, max, min};
ghost use Rattle.std.specs.Duration.{as_nanos};
ghost use Rattle.ots_real.specs.TimeLimit.{began_by, limit_began, limit_length, limit_timeout, passed_at, IsLeft, Runs};

use crate::conversation::{WAIT_SECONDS, time_left};
use std::io;
use std::io::ErrorKind;
use std::time::{Clock, Duration, Instant};

/// The part of a limit by which a call may end too late: a tenth.
const LATE_PART: u128 = 10;

/// The most by which a call may end too late, in nanoseconds: a second.
const MOST_LATE: u128 = 1_000_000_000;

/// How long one way of a conversation may take, and when that began. It remembers which timeout the
/// socket has for a call of this way, since each that is set is a call of the system.
#[derive(Clone, Copy, Drop)]
pub struct TimeLimit {
    length: Duration,
    began: Option<Instant>,
    timeout: Option<Duration>,
}

impl TimeLimit {
    /// A limit of this length, which begins with the first call.
    pub fn new(length: Duration) -> TimeLimit
        ensures length { limit_length result ≡ length }
        ensures began { limit_began result ≡ None }
        ensures timeout { limit_timeout result ≡ None }
    {
        TimeLimit {
            length,
            began: None,
            timeout: None,
        }
    }

    /// A limit of this length, which began then.
    pub fn since(began: Instant, length: Duration) -> TimeLimit
        ensures length { limit_length result ≡ length }
        ensures began { limit_began result ≡ Some began }
        ensures timeout { limit_timeout result ≡ None }
    {
        TimeLimit {
            length,
            began: Some(began),
            timeout: None,
        }
    }

    /// A limit that began then and is over.
    pub fn over(began: Instant) -> TimeLimit
        ensures length { as_nanos (limit_length result) ≡ 0 }
        ensures began { limit_began result ≡ Some began }
        ensures timeout { limit_timeout result ≡ None }
    {
        TimeLimit::since(began, Duration::ZERO)
    }

    /// A limit of this length that has not begun, for further calls of the same way.
    pub(crate) fn renewed(&self, length: Duration) -> TimeLimit
        ensures length { limit_length result ≡ length }
        ensures began { limit_began result ≡ None }
        ensures timeout { limit_timeout result ≡ limit_timeout self.now }
    {
        TimeLimit {
            length,
            began: None,
            timeout: self.timeout,
        }
    }

    /// What is left of it at this time, which is where it begins if it has not: at least a
    /// millisecond, and `None` exactly where it has passed whole.
    fn left_at(&mut self, now: Instant) -> Option<Duration>
        ensures runs { Runs self.old self.new }
        ensures timeout { limit_timeout self.new ≡ limit_timeout self.old }
        ensures began { limit_began self.new ≡ Some (began_by self.old now) }
        ensures left { IsLeft (limit_length self.old) (passed_at self.old now) result }
    {
        let began = self.began.unwrap_or(now);
        self.began = Some(began);
        time_left(self.length, now.duration_since(began))
    }

    /// Whether it has begun.
    pub(crate) fn has_begun(&self) -> bool
        ensures { result ≡ is_some (limit_began self.now) }
    {
        self.began.is_some()
    }

    /// Whether the socket has a timeout for a call of this way.
    pub(crate) fn has_timeout(&self) -> bool
        ensures { result ≡ is_some (limit_timeout self.now) }
    {
        self.timeout.is_some()
    }

    /// Begins it now, if it has not begun.
    pub(crate) fn begin(&mut self, clock: &impl Clock) -> io::Result<()>
        ensures runs { Runs self.old self.new }
        ensures timeout { limit_timeout self.new ≡ limit_timeout self.old }
    {
        self.left_at(Instant::now(clock)?);
        Ok(())
    }

    /// What is left of it now. Where nothing is left that is `TimedOut`.
    fn left(&mut self, clock: &impl Clock) -> io::Result<Duration>
        ensures runs { Runs self.old self.new }
        ensures timeout { limit_timeout self.new ≡ limit_timeout self.old }
        ensures began { OnOk result (IsSome (limit_began self.new)) }
        ensures most { IfOk result (λ left. as_nanos left ≤ max (as_nanos (limit_length self.old)) 1_000_000) }
    {
        match self.left_at(Instant::now(clock)?) {
            Some(left) => Ok(left),
            None => Err(io::Error::from(ErrorKind::TimedOut)),
        }
    }

    /// Whether a call with this timeout would end too late, where this time is left: by more than a
    /// tenth of the limit or by more than a second.
    fn is_late(&self, timeout: Duration, left: Duration) -> bool
        ensures { IsTrue result ↔ (min (as_nanos (limit_length self.now) / 10) 1_000_000_000
            < as_nanos timeout - as_nanos left) }
    {
        let late = timeout.saturating_sub(left).as_nanos();
        late > MOST_LATE || late > self.length.as_nanos() / LATE_PART
    }

    /// The timeout that the socket is to get before a call, at most [`WAIT_SECONDS`]: `None` where the
    /// one that it has will do. It begins the limit, and is `TimedOut` where nothing is left.
    pub fn new_timeout(&mut self, clock: &impl Clock) -> io::Result<Option<Duration>>
        ensures runs { Runs self.old self.new }
        ensures timeout { limit_timeout self.new ≡ limit_timeout self.old }
        ensures began { OnOk result (IsSome (limit_began self.new)) }
        ensures first { limit_timeout self.old ≡ None → IfOk result IsSome }
        ensures most { IfOk result (λ found. IfSome found (λ timeout. as_nanos timeout
            ≤ max (as_nanos (limit_length self.old)) 1_000_000)) }
    {
        let left = self.left(clock)?;
        match self.timeout {
            Some(timeout) if !self.is_late(timeout, left) => Ok(None),
            _ => Ok(Some(left.min(Duration::from_secs(WAIT_SECONDS)))),
        }
    }

    /// Remembers that the socket has this timeout.
    pub fn set_timeout(&mut self, timeout: Duration)
        ensures length { limit_length self.new ≡ limit_length self.old }
        ensures began { limit_began self.new ≡ limit_began self.old }
        ensures timeout { limit_timeout self.new ≡ Some timeout }
    {
        self.timeout = Some(timeout);
    }
}
