// How long the turns of one task took.
use std::rt::Clock;
use std::time::Instant;
use std::{fmt, io};

#[derive(Clone, Copy, Debug, PartialEq, Eq)]
pub struct Timing {
    turns: u32,
    total: u128,
    fastest: u128,
}

impl Timing {
    pub(crate) fn new() -> Self {
        Timing {
            turns: 0,
            total: 0,
            fastest: u128::MAX,
        }
    }

    // Times a turn of the task and hands on what it answers.
    pub(crate) fn turn<T: Drop, F: FnOnce() -> T>(
        &mut self,
        clock: &impl Clock,
        task: F,
    ) -> io::Result<T>
        requires { F.IsAlwaysCallable task }
    {
        let start = Instant::now(clock)?;
        let answer = task();
        let time = start.elapsed(clock)?.as_nanos();
        self.turns = self.turns.saturating_add(1);
        self.total = self.total.saturating_add(time);
        self.fastest = self.fastest.min(time);
        Ok(answer)
    }

    // Nanoseconds for one of so many parts of the fastest turn.
    pub(crate) fn fastest_part(&self, parts: usize) -> u128 {
        self.fastest / (parts as u128).max(1)
    }

    // Megabytes a second at the fastest turn, for a text of so many bytes.
    pub(crate) fn rate(&self, bytes: usize) -> u128 {
        (bytes as u128).saturating_mul(1000) / self.fastest.max(1)
    }
}

impl fmt::Display for Timing {
    fn fmt<W: fmt::Write>(&self, f: &mut fmt::Formatter<W>) -> fmt::Result {
        let fastest = self.fastest;
        let mean = self.total / self.turns.max(1) as u128;
        write!(f, "fastest {fastest} ns, mean {mean} ns")
    }
}
