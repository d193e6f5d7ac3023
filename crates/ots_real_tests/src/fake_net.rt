// A network and a clock in memory. Its first accepts fail with one error of the system, and each
// later one gives a stream without an end.
use std::io;
use std::io::{ErrorKind, Read, Write};
use std::net::{Ipv4Addr, Net, OpenListener, OpenStream, Shutdown, SocketAddr};
use std::os::fd::{AsRawFd, RawFd};
use std::sync::atomic::{AtomicU64, Ordering};
use std::time::{Clock, Duration};

/// What is outside, and what was asked of it. Times are in milliseconds.
#[derive(Drop)]
pub struct Outside {
    /// The number of the error with which accepts fail, and how many are still to fail.
    number: i32,
    failures: AtomicU64,
    /// The time, which a sleep moves on.
    now: AtomicU64,
    /// The most bytes that a read gives, and how long it takes.
    piece: usize,
    pace: u64,
    /// How many reads are still to wait in vain, each as long as the timeout of the reads lets it.
    vain: AtomicU64,
    /// 1 where reads are to wait for nothing.
    hurried: AtomicU64,
    timeout: AtomicU64,
    /// How many timeouts sockets were given, and how many bytes reads gave.
    timeouts: AtomicU64,
    given: AtomicU64,
}

impl Outside {
    /// This many accepts fail, with the error of this number.
    pub fn failing(number: i32, failures: u64) -> Outside {
        Outside {
            number,
            failures: AtomicU64::new(failures),
            now: AtomicU64::new(0),
            piece: 1_000,
            pace: 0,
            vain: AtomicU64::new(0),
            hurried: AtomicU64::new(0),
            timeout: AtomicU64::new(0),
            timeouts: AtomicU64::new(0),
            given: AtomicU64::new(0),
        }
    }

    /// Peers send pieces of this length, each after this time.
    pub fn sending(piece: usize, pace: u64) -> Outside {
        Outside::silent(0, piece, pace)
    }

    /// The same, once this many reads have waited in vain.
    pub fn silent(vain: u64, piece: usize, pace: u64) -> Outside {
        Outside {
            number: 0,
            failures: AtomicU64::new(0),
            now: AtomicU64::new(0),
            piece,
            pace,
            vain: AtomicU64::new(vain),
            hurried: AtomicU64::new(0),
            timeout: AtomicU64::new(0),
            timeouts: AtomicU64::new(0),
            given: AtomicU64::new(0),
        }
    }

    /// Lets this time pass.
    pub fn wait(&self, millis: u64) {
        self.now.fetch_add(millis, Ordering::SeqCst);
    }

    pub fn now(&self) -> u64 {
        self.now.load(Ordering::SeqCst)
    }

    pub fn timeouts(&self) -> u64 {
        self.timeouts.load(Ordering::SeqCst)
    }

    pub fn given(&self) -> u64 {
        self.given.load(Ordering::SeqCst)
    }
}

/// The network and the clock.
#[derive(Clone, Copy)]
pub struct FakeNet<'a> {
    pub outside: &'a Outside,
}

#[derive(Drop)]
pub struct FakeListener<'a> {
    outside: &'a Outside,
}

#[derive(Drop)]
pub struct FakeStream<'a> {
    outside: &'a Outside,
}

impl<'a> Clock for FakeNet<'a> {
    fn monotonic(&self) -> io::Result<Duration> {
        Ok(Duration::from_millis(self.outside.now()))
    }

    fn since_1970(&self) -> io::Result<Duration> {
        Ok(Duration::ZERO)
    }

    fn sleep(&self, duration: Duration) {
        let millis = u64::try_from(duration.as_millis()).unwrap_or(u64::MAX);
        self.outside.wait(millis);
    }
}

impl<'a> Net for FakeNet<'a> {
    type Stream = FakeStream<'a>;

    type Listener = FakeListener<'a>;

    fn bind(&self, _addr: SocketAddr) -> io::Result<FakeListener<'a>> {
        Ok(FakeListener {
            outside: self.outside,
        })
    }

    fn connect(&self, _addr: SocketAddr) -> io::Result<FakeStream<'a>> {
        Ok(FakeStream {
            outside: self.outside,
        })
    }
}

impl<'a> OpenListener for FakeListener<'a> {
    type Stream = FakeStream<'a>;

    fn accept(&self) -> io::Result<(FakeStream<'a>, SocketAddr)> {
        let failures = self.outside.failures.load(Ordering::SeqCst);
        if failures > 0 {
            self.outside.failures.store(failures - 1, Ordering::SeqCst);
            return Err(io::Error::from_raw_os_error(self.outside.number));
        }
        let stream = FakeStream {
            outside: self.outside,
        };
        Ok((stream, SocketAddr::from((Ipv4Addr::LOCALHOST, 1))))
    }
}

impl<'a> AsRawFd for FakeListener<'a> {
    fn as_raw_fd(&self) -> RawFd {
        // No process has so many descriptors: the system refuses it at once.
        RawFd::MAX
    }
}

impl<'a> OpenStream for FakeStream<'a> {
    fn shutdown(&self, _how: Shutdown) -> io::Result<()> {
        Ok(())
    }

    fn set_nonblocking(&self, nonblocking: bool) -> io::Result<()> {
        self.outside
            .hurried
            .store(u64::from(nonblocking), Ordering::SeqCst);
        Ok(())
    }

    fn set_read_timeout(&self, timeout: Option<Duration>) -> io::Result<()> {
        let millis = timeout.map_or(0, |timeout| timeout.as_millis());
        let millis = u64::try_from(millis).unwrap_or(u64::MAX);
        self.outside.timeout.store(millis, Ordering::SeqCst);
        self.outside.timeouts.fetch_add(1, Ordering::SeqCst);
        Ok(())
    }

    fn set_write_timeout(&self, _timeout: Option<Duration>) -> io::Result<()> {
        self.outside.timeouts.fetch_add(1, Ordering::SeqCst);
        Ok(())
    }
}

impl<'a> AsRawFd for FakeStream<'a> {
    fn as_raw_fd(&self) -> RawFd {
        -1
    }
}

impl<'a> Read for FakeStream<'a> {
    fn read(&mut self, buf: &mut [u8]) -> io::Result<usize> {
        let vain = self.outside.vain.load(Ordering::SeqCst);
        let is_hurried = self.outside.hurried.load(Ordering::SeqCst) == 1;
        if is_hurried && (vain > 0 || self.outside.pace > 0) {
            return Err(io::Error::from(ErrorKind::WouldBlock));
        }
        if vain > 0 {
            self.outside.vain.store(vain - 1, Ordering::SeqCst);
            self.outside
                .wait(self.outside.timeout.load(Ordering::SeqCst));
            return Err(io::Error::from(ErrorKind::WouldBlock));
        }
        let count = buf.len().min(self.outside.piece);
        self.outside.wait(self.outside.pace);
        self.outside.given.fetch_add(count as u64, Ordering::SeqCst);
        Ok(count)
    }
}

impl<'a> Write for FakeStream<'a> {
    fn write(&mut self, piece: &[u8]) -> io::Result<usize> {
        Ok(piece.len())
    }

    fn flush(&mut self) -> io::Result<()> {
        Ok(())
    }
}
