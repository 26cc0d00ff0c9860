//! What the words of the command line request of a stream.

use crate::bounds::SIZES;
use crate::option_values::{Values, byte_count, large_count};
use clap::Error;
use rb_segments::SegmentPlan;
use rb_service::{Full, MetricsFile, NamedRing, RecordForm, SegmentFolder, StreamOptions};
use rb_source::{Fit, Form, Framing};
use rb_stream::Late;
use std::alloc::AllocError;

/// The default for the number of bytes at which a segment is closed.
const SEGMENT: u64 = 256 << 20;

// The values of options of a stream that are given at most once.
#[derive(Clone, Copy)]
struct StreamValues {
    workers: u32,
    framing: Framing,
    form: Form,
    late: Late,
    full: Full,
    results: u32,
}

impl<'a> Values<'_, 'a> {
    /// Returns what is requested of a stream.
    pub(crate) fn stream(&self) -> Result<StreamOptions<'a>, Error> {
        let values = self.stream_values()?;
        let plan = self.plan()?;
        let metrics = self.metrics()?;
        let mut rings = self.rings()?;
        let folder = self.outputs(rings.as_mut_slice(), plan)?;
        let programs = self.programs()?;
        Ok(StreamOptions {
            rings,
            programs,
            workers: values.workers,
            framing: values.framing,
            form: values.form,
            records: self.records(),
            folder,
            metrics,
            from: self.options.get_str("from"),
            late: values.late,
            full: values.full,
            results: values.results,
        })
    }

    // Returns the values of options that are given at most once.
    fn stream_values(&self) -> Result<StreamValues, Error> {
        Ok(StreamValues {
            workers: self.bounded("workers", 1, 256)?,
            framing: self.framing()?,
            form: self.context_form()?,
            late: self.late()?,
            full: self.full()?,
            results: self.results()?,
        })
    }

    // Returns the files of the programs.
    fn programs(&self) -> Result<Vec<&'a str>, AllocError> {
        let mut programs = Vec::new(self.alloc);
        if let Some(texts) = self.options.get_strs("program") {
            programs.extend_from_slice(texts)?;
        }
        Ok(programs)
    }

    // Returns the rings, without their outputs.
    fn rings(&self) -> Result<Vec<NamedRing<'a>>, Error> {
        let mut rings = Vec::new(self.alloc);
        if let Some(texts) = self.options.get_strs("ring") {
            self.add_rings(&mut rings, texts)?;
        }
        Ok(rings)
    }

    // Sets the outputs of rings, and returns the directory of segments. Refuses a directory if records are written as
    // lines.
    fn outputs(
        &self,
        rings: &mut [NamedRing<'a>],
        plan: SegmentPlan,
    ) -> Result<Option<SegmentFolder<'a>>, Error> {
        let Some(texts) = self.options.get_strs("out") else {
            return Ok(None);
        };
        match self.add_outputs(rings, texts)? {
            None => Ok(None),
            Some(path) if self.records() == RecordForm::Lines => {
                let wanted = "NAME=FILE, which --json needs: segments are tapes";
                Err(self.wrong("out", path, wanted))
            }
            Some(path) => Ok(Some(SegmentFolder { path, plan })),
        }
    }

    // Returns when segments are closed and deleted.
    fn plan(&self) -> Result<SegmentPlan, Error> {
        Ok(SegmentPlan {
            segment: self.bytes("segment", SEGMENT)?,
            keep: self.bytes("keep", u64::MAX)?,
        })
    }

    // Returns the number of bytes of an option, which may be several GiB, or `otherwise` if it is not given.
    fn bytes(&self, name: &str, otherwise: u64) -> Result<u64, Error> {
        let Some(text) = self.options.get_str(name) else {
            return Ok(otherwise);
        };
        match large_count(text) {
            Some(count) if count > 0 => Ok(count),
            _ => Err(self.refused(name, "a number of bytes")),
        }
    }

    // Returns the file of metrics, and how often it is written.
    fn metrics(&self) -> Result<Option<MetricsFile<'a>>, Error> {
        let every = match self.options.get_str("every") {
            None => 10,
            Some(_) => self.bounded("every", 0, 86_400)?,
        };
        let Some(path) = self.options.get_str("metrics") else {
            return Ok(None);
        };
        Ok(Some(MetricsFile {
            path,
            every: u64::from(every),
        }))
    }

    // Appends the rings that these texts name.
    fn add_rings(&self, rings: &mut Vec<NamedRing<'a>>, texts: &[&'a str]) -> Result<(), Error> {
        for text in texts {
            self.add_ring(rings, *text)?;
        }
        Ok(())
    }

    // Appends the ring that a text names.
    fn add_ring(&self, rings: &mut Vec<NamedRing<'a>>, text: &'a str) -> Result<(), Error> {
        let Some((name, size)) = text.rsplit_once(':') else {
            return Err(self.wrong("ring", text, "NAME:SIZE"));
        };
        let Some(size) = byte_count(size) else {
            return Err(self.wrong("ring", text, SIZES));
        };
        if !is_plain(name) {
            let wanted = "NAME:SIZE with a name of letters, digits, - and _";
            return Err(self.wrong("ring", text, wanted));
        }
        if rings.len() >= 16 || is_named(rings.as_slice(), name) {
            let wanted = "one of at most 16 rings with names of their own";
            return Err(self.wrong("ring", text, wanted));
        }
        rings.push(NamedRing {
            name,
            size,
            out: None,
        })?;
        Ok(())
    }

    // Sets the outputs that these texts name, and returns the directory that is among them. Refuses an output for an
    // unknown ring, a second output for one ring, a second output to standard output, and a second directory.
    fn add_outputs(
        &self,
        rings: &mut [NamedRing<'a>],
        texts: &[&'a str],
    ) -> Result<Option<&'a str>, Error> {
        let mut printed = false;
        let mut folder = None;
        for text in texts {
            if text.contains('=') {
                printed = self.add_output(rings, *text, printed)?;
            } else if folder.is_some() {
                return Err(self.wrong("out", *text, "the only directory"));
            } else {
                folder = Some(*text);
            }
        }
        Ok(folder)
    }

    // Sets the output that a text names. Returns whether standard output is an output.
    fn add_output(
        &self,
        rings: &mut [NamedRing<'a>],
        text: &'a str,
        printed: bool,
    ) -> Result<bool, Error> {
        let Some((name, path)) = text.split_once('=') else {
            return Err(self.wrong("out", text, "NAME=FILE"));
        };
        if path == "-" && printed || !set_output(rings, name, path) {
            return Err(self.wrong("out", text, "a ring without an output, and a file"));
        }
        Ok(printed || path == "-")
    }

    // Returns how records are written to files.
    fn records(&self) -> RecordForm {
        if self.has("json") {
            RecordForm::Lines
        } else {
            RecordForm::Tape
        }
    }

    // Returns the form of contexts.
    fn context_form(&self) -> Result<Form, Error> {
        Ok(Form {
            len: self.bounded("ctx", 0, 65_536)?,
            fit: self.fit()?,
            with_length: self.has("with-length"),
        })
    }

    fn framing(&self) -> Result<Framing, Error> {
        match self.options.get_str("in") {
            Some("frames") => Ok(Framing::Frames),
            Some("fixed") => Ok(Framing::Fixed),
            Some("lines") => Ok(Framing::Lines),
            _ => Err(self.refused("in", "frames, fixed or lines")),
        }
    }

    fn fit(&self) -> Result<Fit, Error> {
        match self.options.get_str("fit") {
            None | Some("exact") => Ok(Fit::Exact),
            Some("pad") => Ok(Fit::Pad),
            Some("cut") => Ok(Fit::Cut),
            _ => Err(self.refused("fit", "exact, pad or cut")),
        }
    }

    fn late(&self) -> Result<Late, Error> {
        match self.options.get_str("late") {
            None | Some("block") => Ok(Late::Block),
            Some("drop") => Ok(Late::Drop),
            _ => Err(self.refused("late", "block or drop")),
        }
    }

    fn full(&self) -> Result<Full, Error> {
        match self.options.get_str("full") {
            None | Some("refuse") => Ok(Full::Refuse),
            Some("wait") => Ok(Full::Wait),
            _ => Err(self.refused("full", "refuse or wait")),
        }
    }

    fn results(&self) -> Result<u32, Error> {
        if self.options.get_str("results").is_none() {
            return Ok(16);
        }
        self.bounded("results", 0, 65_536)
    }
}

// Returns whether a name can be part of a file's name and of a label of metrics.
fn is_plain(name: &str) -> bool {
    !name.is_empty()
        && name.bytes().all(|byte| byte.is_ascii_alphanumeric() || byte == b'-' || byte == b'_')
}

// Returns whether a ring has this name.
fn is_named(rings: &[NamedRing<'_>], name: &str) -> bool {
    for ring in rings {
        if ring.name == name {
            return true;
        }
    }
    false
}

// Sets the output of the ring with this name, and returns whether there is such a ring that had no output before.
fn set_output<'a>(rings: &mut [NamedRing<'a>], name: &str, path: &'a str) -> bool {
    for at in 0..rings.len() {
        if rings[at].name == name {
            let is_first = rings[at].out.is_none();
            rings[at].out = Some(path);
            return is_first;
        }
    }
    false
}
