//! The progress of a long command, printed on standard error about once a second.
//!
//! It goes to the runtime's standard error and not to the command's writer, because workers print it while the command
//! waits for them. Tests show what is printed; no contract mentions it.

use crate::taped_jobs::{JOBS, TapedJobs};
use rb_run_commands::TapeWatch;
use rb_script::TurnWatch;
use rb_workers::Gate;
use std::io;
use std::io::{Eprint, Read};
use std::sync::atomic::{AtomicU64, Ordering};
use std::time::Clock;

/// The number of turns of a script between two looks at the clock.
const TURNS: u64 = 256;

/// Reports the progress of a command, if that is requested.
pub(crate) struct Progress<'a, T> {
    rt: &'a T,
    is_on: bool,
    // The number of jobs of a run in all, and how many of them have ended, except for the last few of each worker; or
    // how many turns have.
    jobs: u64,
    ended: AtomicU64,
    // The jobs of a run that writes a tape.
    taped: Option<TapedJobs>,
    // The time at which the command began, in seconds of the clock, and the last second in which something was
    // reported, counted from then.
    began: u64,
    told: AtomicU64,
}

impl<'a, T: Clock + Eprint> Progress<'a, T> {
    /// Begins now, for a command with `jobs` jobs. If the command writes a tape, they are counted once their records
    /// are on it. Nothing is reported within the first second, or if `is_on` is false.
    pub(crate) fn new(
        rt: &'a T,
        is_on: bool,
        jobs: u64,
        taped: Option<TapedJobs>,
    ) -> Progress<'a, T> {
        Progress {
            rt,
            is_on,
            jobs,
            ended: AtomicU64::new(0),
            taped,
            began: seconds(rt),
            told: AtomicU64::new(0),
        }
    }

    // Returns whether a second has passed since the last report. If two threads call it at once, it returns true to
    // only one of them.
    fn is_due(&self) -> bool {
        let second = seconds(self.rt).saturating_sub(self.began);
        second > self.told.load(Ordering::SeqCst)
            && second > self.told.swap(second, Ordering::SeqCst)
    }

    // Reports how many bytes were read, in place of the previous report.
    fn tell_bytes(&self, count: u64) {
        if self.is_on && self.is_due() {
            let _ = eprint!(self.rt; "\r{count} bytes read\x1b[K");
        }
    }

    #[cold]
    #[inline(never)]
    // Reports how many of `all` parts have ended, in the same way.
    fn tell_parts(&self, ended: u64, all: u64, what: &'static str) {
        if self.is_due() {
            let _ = eprint!(self.rt; "\r{ended} of {all} {what}\x1b[K");
        }
    }

    // Counts `count` more parts as ended, and returns how many have ended.
    fn add(&self, count: u64) -> u64 {
        let before = self.ended.fetch_add(count, Ordering::SeqCst);
        before.saturating_add(count)
    }

    // Returns how many of the jobs that have ended may be reported: with a tape, those whose records are on it.
    fn reportable(&self, ended: u64) -> u64 {
        match &self.taped {
            Some(taped) => taped.written(),
            None => ended,
        }
    }

    /// Erases the last report.
    pub(crate) fn end(self) {
        let Progress {
            rt,
            is_on: _,
            jobs: _,
            ended: _,
            taped: _,
            began: _,
            told,
        } = self;
        if told.load(Ordering::SeqCst) > 0 {
            let _ = eprint!(rt; "\r\x1b[K");
        }
    }
}

// Returns the seconds of the clock, or 0 if it can't be read.
fn seconds<T: Clock>(rt: &T) -> u64 {
    match rt.monotonic() {
        Ok(time) => time.as_secs(),
        Err(_) => 0,
    }
}

impl<T: Clock + Eprint> Gate for Progress<'_, T> {
    #[inline]
    fn pass(&self, _worker: u32, _call: u64) {}

    #[inline]
    fn after_job(&self, worker: u32, jobs: u64) {
        if !self.is_on {
            return;
        }
        if let Some(taped) = &self.taped {
            taped.count(worker, jobs);
        }
        if jobs % JOBS == 0 {
            let ended = self.add(JOBS);
            self.tell_parts(self.reportable(ended), self.jobs, "jobs");
        }
    }
}

impl<T: Clock + Eprint> TapeWatch for Progress<'_, T> {
    fn written_out(&self, position: u64, size: u64, caught_up: bool) {
        if let Some(taped) = &self.taped {
            taped.written_out(position, size, caught_up);
        }
    }
}

impl<T: Clock + Eprint> TurnWatch for Progress<'_, T> {
    fn turned(&self, all: usize) {
        if self.is_on {
            let ended = self.add(1);
            if ended % TURNS == 0 {
                self.tell_parts(ended, all as u64, "turns");
            }
        }
    }
}

/// A reader that passes on the bytes of another one, and reports how many it has read.
pub(crate) struct Metered<'a, R, T> {
    reader: R,
    progress: &'a Progress<'a, T>,
    count: u64,
}

impl<'a, R, T> Metered<'a, R, T> {
    ghost use Rattle.std.specs.Prelude.{◌≡◌};

    /// Returns a reader over this one.
    pub(crate) fn new(reader: R, progress: &'a Progress<'a, T>) -> Metered<'a, R, T>
        ensures { result.reader ≡ reader }
    {
        Metered {
            reader,
            progress,
            count: 0,
        }
    }
}

impl<R: Drop, T> Drop for Metered<'_, R, T> {
    fn drop(self) {
        let Metered {
            reader: _,
            progress: _,
            count: _,
        } = self;
    }
}

impl<R: Read, T: Clock + Eprint> Read for Metered<'_, R, T> {
    ghost remaining = { λ metered. R.remaining metered.reader };

    fn read(&mut self, buf: &mut [u8]) -> io::Result<usize> {
        let count = self.reader.read(buf)?;
        self.count = self.count.saturating_add(count as u64);
        self.progress.tell_bytes(self.count);
        Ok(count)
    }
}
