use ots_outside::Clock;
use std::time::{Clock as SystemTimes, SystemTime, UNIX_EPOCH};

/// The system's clock. It tells nothing. One that can't be read, or that stands before 1970, gives
/// 0.
#[derive(Drop)]
pub struct SystemClock<R: SystemTimes> {
    rt: R,
}

impl<R: SystemTimes> SystemClock<R> {
    /// The clock that the runtime gives.
    pub fn new(rt: R) -> SystemClock<R> {
        SystemClock { rt }
    }
}

impl<R: SystemTimes> Clock for SystemClock<R> {
    ghost use Rattle.std.specs.Prelude.{None};

    ghost coming = { λ clock. None };

    fn second(&mut self) -> u64 {
        let Ok(now) = SystemTime::now(&self.rt) else {
            return 0;
        };
        match now.duration_since(UNIX_EPOCH) {
            Ok(since) => since.as_secs(),
            Err(_) => 0,
        }
    }
}
