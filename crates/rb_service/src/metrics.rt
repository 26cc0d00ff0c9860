//! The metrics of a stream, in the text format of Prometheus, for the textfile collector of node_exporter. Tests show what is written; no contract speaks of it.

use crate::metrics_text::{
    Requests, RunTotals, TAPE_GAUGES, push_contexts, push_end, push_gauge, push_records,
    push_results, push_tape,
};
use crate::options::{MetricsFile, StreamOptions};
use crate::watch::SourceWatch;
use rb_outputs::{OutputTotals, OutputWatch};
use rb_source::ContextCounts;
use rb_stream_worker::LiveCounts;
use std::alloc::{AllocError, Global};
use std::fs::{self, File};
use std::io::{self, Write};
use std::sync::atomic::{AtomicU64, Ordering};
use std::time::Clock;

/// Holds what is known of a running stream, writes it to a file, and prints a line on standard error for each context that was skipped.
#[derive(Drop)]
pub struct StreamMetrics<'a> {
    /// The system, through which the metrics and the outputs are written, also by other threads.
    pub(crate) host: &'a HostRuntime,
    alloc: Global,
    file: Option<MetricsFile<'a>>,
    // The second in which the file was written last, and that of the start.
    written: AtomicU64,
    // The contexts that were given, skipped and cut.
    given: AtomicU64,
    skipped: AtomicU64,
    cut: AtomicU64,
    rings: Vec<RingTotals<'a>>,
    /// Where the reader and the workers publish their counts while the stream runs.
    pub(crate) live: LiveCounts,
}

// The totals of a ring's output.
#[derive(Drop)]
struct RingTotals<'a> {
    name: &'a str,
    consumed: AtomicU64,
    discarded: AtomicU64,
    position: AtomicU64,
    oldest: AtomicU64,
    deleted: AtomicU64,
    unwritten: AtomicU64,
}

impl<'a> RingTotals<'a> {
    fn new(name: &'a str) -> RingTotals<'a> {
        RingTotals {
            name,
            consumed: AtomicU64::new(0),
            discarded: AtomicU64::new(0),
            position: AtomicU64::new(0),
            oldest: AtomicU64::new(0),
            deleted: AtomicU64::new(0),
            unwritten: AtomicU64::new(0),
        }
    }

    fn store(&self, totals: OutputTotals) {
        self.consumed.store(totals.consumed, Ordering::SeqCst);
        self.discarded.store(totals.discarded, Ordering::SeqCst);
        self.position.store(totals.position, Ordering::SeqCst);
        self.oldest.store(totals.oldest, Ordering::SeqCst);
        self.deleted.store(totals.deleted, Ordering::SeqCst);
        self.unwritten.store(totals.unwritten, Ordering::SeqCst);
    }

    fn load(&self) -> OutputTotals {
        OutputTotals {
            consumed: self.consumed.load(Ordering::SeqCst),
            discarded: self.discarded.load(Ordering::SeqCst),
            position: self.position.load(Ordering::SeqCst),
            oldest: self.oldest.load(Ordering::SeqCst),
            deleted: self.deleted.load(Ordering::SeqCst),
            unwritten: self.unwritten.load(Ordering::SeqCst),
        }
    }
}

impl<'a> StreamMetrics<'a> {
    /// Returns the metrics of a stream with these options, which begins now. If there is no file, nothing is written.
    pub fn new(
        host: &'a HostRuntime,
        alloc: Global,
        options: &StreamOptions<'a>,
    ) -> Result<StreamMetrics<'a>, AllocError> {
        let mut totals = Vec::new(alloc);
        for ring in &options.rings {
            totals.push(RingTotals::new(ring.name))?;
        }
        Ok(StreamMetrics {
            host,
            alloc,
            file: options.metrics,
            written: AtomicU64::new(monotonic(host)),
            given: AtomicU64::new(0),
            skipped: AtomicU64::new(0),
            cut: AtomicU64::new(0),
            rings: totals,
            live: live_counts(alloc, options)?,
        })
    }

    /// Writes the metrics at the stream's end. Returns whether that succeeded, or there is no file.
    pub(crate) fn write_end(&self, totals: &RunTotals) -> bool {
        match self.file {
            Some(file) => self.write(file.path, totals).is_ok(),
            None => true,
        }
    }

    // Writes the metrics while the stream runs.
    fn write_live(&self, path: &str) -> io::Result<()> {
        let totals = self.live_totals()?;
        self.write(path, &totals)
    }

    // Returns what the reader and the workers have published.
    fn live_totals(&self) -> Result<RunTotals, AllocError> {
        let run = self.live.run();
        let mut requests = Vec::with_capacity(self.alloc, self.rings.len())?;
        for ring in 0..self.rings.len() {
            let (made, refused) = self.live.requests(ring);
            requests.push(Requests { made, refused })?;
        }
        Ok(RunTotals {
            run,
            dropped: self.live.dropped.load(Ordering::SeqCst),
            unlogged: self.live.unlogged(),
            results: self.live.results(self.alloc)?,
            requests,
        })
    }

    // Writes the file under another name, and renames it: readers see a whole file.
    fn write(&self, path: &str, totals: &RunTotals) -> io::Result<()> {
        let text = self.text(totals)?;
        let new = format!(in self.alloc; "{path}.new")?;
        let mut file = File::create(self.host, new.as_str())?;
        file.write_all(text.as_bytes())?;
        fs::rename(self.host, new.as_str(), path)
    }

    // Returns the metrics, a line each.
    fn text(&self, totals: &RunTotals) -> Result<String, AllocError> {
        let mut text = String::new(self.alloc);
        push_contexts(&mut text, self.contexts(), totals)?;
        push_results(&mut text, &totals.results)?;
        for ring in 0..self.rings.len() {
            push_records(
                &mut text,
                ring == 0,
                self.rings[ring].name,
                self.rings[ring].load(),
                totals.requests.get(ring).copied().unwrap_or_default(),
            )?;
        }
        for kind in TAPE_GAUGES {
            push_gauge(&mut text, kind)?;
            for ring in 0..self.rings.len() {
                push_tape(
                    &mut text,
                    kind,
                    self.rings[ring].name,
                    self.rings[ring].load(),
                )?;
            }
        }
        push_end(&mut text, totals.unlogged, since_1970(self.host))?;
        Ok(text)
    }

    fn contexts(&self) -> ContextCounts {
        ContextCounts {
            given: self.given.load(Ordering::SeqCst),
            skipped: self.skipped.load(Ordering::SeqCst),
            cut: self.cut.load(Ordering::SeqCst),
        }
    }

    // Whether the file is to be written again.
    fn is_due(&self, file: MetricsFile<'a>) -> bool {
        let second = monotonic(self.host);
        if file.every == 0
            || second
                < self
                    .written
                    .load(Ordering::SeqCst)
                    .saturating_add(file.every)
        {
            return false;
        }
        self.written.store(second, Ordering::SeqCst);
        true
    }
}

impl<'a> SourceWatch for StreamMetrics<'a> {
    fn read(&self, counts: ContextCounts) {
        self.given.store(counts.given, Ordering::SeqCst);
        self.cut.store(counts.cut, Ordering::SeqCst);
        let before = self.skipped.swap(counts.skipped, Ordering::SeqCst);
        for number in before..counts.skipped {
            let _ = eprint!(self.host;
                "skipped context of another length, number {number} of these\n"
            );
        }
    }
}

impl<'a> OutputWatch for StreamMetrics<'a> {
    // The consumer of the first ring writes the file.
    fn taken(&self, ring: usize, totals: OutputTotals) {
        if let Some(kept) = self.rings.get(ring) {
            kept.store(totals);
        }
        if ring == 0
            && let Some(file) = self.file
            && self.is_due(file)
        {
            let _ = self.write_live(file.path);
        }
    }
}

// Returns live counts for the workers of a stream with these options, and for none if there is no file.
fn live_counts(alloc: Global, options: &StreamOptions<'_>) -> Result<LiveCounts, AllocError> {
    let workers = match options.metrics {
        Some(_) => options.workers.min(256),
        None => 0,
    };
    let (programs, rings) = (options.programs.len(), options.rings.len());
    LiveCounts::new(alloc, workers, programs, rings, options.results)
}

// The seconds of the clock, and 0 if it cannot be read.
fn monotonic<T: Clock>(rt: &T) -> u64 {
    match rt.monotonic() {
        Ok(time) => time.as_secs(),
        Err(_) => 0,
    }
}

// The seconds since 1970, and 0 if they cannot be read.
fn since_1970<T: Clock>(rt: &T) -> u64 {
    match rt.since_1970() {
        Ok(time) => time.as_secs(),
        Err(_) => 0,
    }
}
