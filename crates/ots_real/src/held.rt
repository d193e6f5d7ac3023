//! Connections that are held until they have said what they want.
use crate::ahead::Ahead;
use crate::conversation::MAX_HELD;
use crate::heard::Heard;
use libc::net::{POLLIN, poll};
use libc::types::{pollfd, rlimit};
use std::alloc::Global;
use std::collections::VecDeque;
use std::os::fd::AsRawFd;
use std::time::{Duration, Instant};

/// The descriptors that are left to all else than connections: standard streams, a journal and its folder,
/// the listening socket, and a conversation with a calendar.
const OTHER_FILES: usize = 32;

/// How long one that makes place for others is waited for, since it was accepted, in milliseconds: its head
/// comes right after its connection, and a busy machine may be slower than that.
const GRACE: u64 = 4;

/// The timeout of a wait that has none.
const FOREVER: i32 = -1;

/// The part of those that are held that goes where there are too many.
const EVICTED_PART: usize = 16;

/// A connection that has not sent a whole head.
#[derive(Drop)]
struct HeldStream<S> {
    stream: S,
    began: Instant,
    heard: Heard,
}

impl<S: AsRawFd> HeldStream<S> {
    /// Takes what has come: whether it is to be served.
    fn has_spoken(&mut self) -> bool {
        self.heard.hear(&self.stream)
    }

    /// Waits for it to send more, where it is young: whether it is to be served then.
    fn has_spoken_soon(&mut self, now: Instant) -> bool {
        let grace = Duration::from_millis(GRACE);
        if now.duration_since(self.began) < grace {
            let wait = time_left(self.began, grace, now);
            poll(&mut [awaited(&self.stream)], wait);
        }
        self.has_spoken()
    }

    fn spoken(self, is_over: bool) -> Spoken<S> {
        Spoken {
            stream: Ahead::new(self.heard.into_bytes(), self.stream),
            began: self.began,
            is_over,
        }
    }
}

/// A connection that is to be served.
#[derive(Drop)]
pub struct Spoken<S> {
    pub stream: Ahead<S>,
    /// When it was accepted.
    pub began: Instant,
    /// Whether it is to be served as if its time were over, since others want its place.
    pub is_over: bool,
}

/// The connections that have not been handed out. Whatever is to be served is found for all of them at once
/// and handed out one by one, so that no look at all of them is made for each.
#[derive(Drop)]
pub struct Held<S> {
    /// Those that have not spoken, the oldest first.
    silent: VecDeque<HeldStream<S>>,
    /// Those that are to be served, in the order in which that was found.
    ready: VecDeque<Spoken<S>>,
    polled: Vec<pollfd>,
    alloc: Global,
}

impl<S: AsRawFd + Drop> Held<S> {
    /// No connection.
    pub fn new(alloc: Global) -> Held<S> {
        Held {
            silent: VecDeque::new(alloc),
            ready: VecDeque::new(alloc),
            polled: Vec::new(alloc),
            alloc,
        }
    }

    /// Whether there is none that has not spoken.
    pub fn is_empty(&self) -> bool {
        self.silent.is_empty()
    }

    /// Whether so many connections are held, or more.
    pub fn has(&self, most: usize) -> bool {
        self.silent.len().saturating_add(self.ready.len()) >= most
    }

    /// The next connection of those that are known to be to be served.
    pub fn ready(&mut self) -> Option<Spoken<S>> {
        self.ready.pop_front()
    }

    /// Holds a connection that was accepted now, and answers it where it is to be served at once: where it
    /// has spoken already, or there is no memory to hold it.
    pub fn hold(&mut self, stream: S, now: Instant) -> Option<Spoken<S>> {
        let mut held = HeldStream {
            stream,
            began: now,
            heard: Heard::new(self.alloc),
        };
        if held.has_spoken() {
            return Some(held.spoken(false));
        }
        match self.silent.push_back(held) {
            Ok(()) => None,
            Err(refused) => Some(refused.value.spoken(false)),
        }
    }

    /// Puts a connection after those that are to be served, and answers it where there is no memory for
    /// that.
    pub fn put(&mut self, spoken: Spoken<S>) -> Option<Spoken<S>> {
        match self.ready.push_back(spoken) {
            Ok(()) => None,
            Err(refused) => Some(refused.value),
        }
    }

    /// Answers the oldest connection, as if its time were over where it has not spoken by now, and puts a part
    /// of the next ones to those that are to be served, as over too: where one place is wanted more mostly are,
    /// and each time a look at all that are held was made.
    pub fn evict(&mut self, now: Instant) -> Option<Spoken<S>> {
        let mut oldest = self.silent.pop_front()?;
        if oldest.has_spoken_soon(now) {
            return Some(oldest.spoken(false));
        }
        let more = self.silent.len() / EVICTED_PART;
        if self.ready.reserve(more).is_ok() {
            for next in self.silent.drain(..more) {
                // There is room.
                let _ = self.ready.push_back(next.spoken(true));
            }
        }
        Some(oldest.spoken(true))
    }

    /// Waits until a further connection comes or one that is held sends more or ends, and no longer than
    /// till the oldest has been held for the limit. It answers whether one comes.
    pub fn wait<L: AsRawFd>(&mut self, listener: &L, limit: Duration, now: Instant) -> bool {
        self.polled.clear();
        if self
            .polled
            .reserve(self.silent.len().saturating_add(1))
            .is_err()
        {
            return false;
        }
        let _ = self.polled.push(awaited(listener));
        for held in &self.silent {
            let _ = self.polled.push(awaited(&held.stream));
        }
        let wait = match self.silent.front() {
            Some(oldest) => time_left(oldest.began, limit, now),
            None => FOREVER,
        };
        poll(&mut self.polled, wait);
        has_come(&self.polled, 0)
    }

    /// Puts those that are to be served, of those that the last wait found something of and those that were
    /// held for the limit, to the others that are. It answers one for which there is no memory.
    pub fn sort(&mut self, limit: Duration, now: Instant) -> Option<Spoken<S>> {
        for place in 0..self.silent.len() {
            let mut held = self.silent.pop_front()?;
            let is_found = has_come(&self.polled, place.saturating_add(1));
            if now.duration_since(held.began) >= limit || is_found && held.has_spoken() {
                if let Some(spoken) = self.put(held.spoken(false)) {
                    return Some(spoken);
                }
            } else {
                // There is room, since one was just taken from it.
                let _ = self.silent.push_back(held);
            }
        }
        None
    }
}

/// Waits until a connection comes.
pub fn wait_for_one<L: AsRawFd>(listener: &L) {
    poll(&mut [awaited(listener)], FOREVER);
}

/// Whether a wait found at this place something of what it was asked for.
fn has_come(polled: &[pollfd], place: usize) -> bool {
    match polled.get(place) {
        Some(polled) => polled.revents != 0,
        None => false,
    }
}

/// What a wait is to find of a socket.
fn awaited<S: AsRawFd>(socket: &S) -> pollfd {
    pollfd {
        fd: socket.as_raw_fd(),
        events: POLLIN,
        revents: 0,
    }
}

/// What is left of a limit in whole milliseconds, and one more.
fn time_left(began: Instant, limit: Duration, now: Instant) -> i32 {
    let left = limit.saturating_sub(now.duration_since(began));
    i32::try_from(left.as_millis())
        .unwrap_or(i32::MAX - 1)
        .saturating_add(1)
}

/// How many connections may be held beside so many that are served: as many as the limit on open files
/// allows, one at least, and [`MAX_HELD`] at most.
pub fn most_held(served: usize) -> usize {
    let mut limit = rlimit {
        rlim_cur: 0,
        rlim_max: 0,
    };
    libc::getrlimit(libc::RLIMIT_NOFILE, &mut limit);
    let files = usize::try_from(limit.rlim_cur).unwrap_or(usize::MAX);
    files
        .saturating_sub(OTHER_FILES)
        .saturating_sub(served)
        .clamp(1, MAX_HELD)
}
