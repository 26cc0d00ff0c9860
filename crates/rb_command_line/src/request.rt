//! What the words of the command line request.

use crate::cost_sizes::SizesFor;
use crate::follow_request::FollowRequest;
use crate::option_values::Values;
use crate::options::program;
use crate::terminals::Terminals;
use clap::error::ErrorKind;
use clap::{ArgMatches, Error};
use rb_cost::JobsAtOnce;
use rb_json::LineForm;
use rb_loader::Bounds;
use rb_run_commands::JobsRequest;
use rb_service::StreamOptions;
use std::alloc::{AllocError, Global};
use std::convert::AsStr;

/// A command with its options.
#[derive(Clone, Copy)]
pub enum Subcommand<'a> {
    /// Writes the tape of payloads, of a ring with this size and first position. Failed writes are retried this often
    /// in all, and the end of the tape is printed in this form.
    Feed {
        size: u64,
        start: u64,
        retries: u32,
        form: LineForm,
    },
    /// Prints the records of a tape, of a ring with this size and first position, in this form.
    Tape {
        size: u64,
        start: u64,
        form: LineForm,
    },
    /// Verifies a program within these bounds, runs it once, and prints the outcome in this form; if `portable`, also
    /// where Linux refuses the program.
    Check {
        bounds: Bounds,
        form: LineForm,
        portable: bool,
    },
    /// Explains a program, verified within these bounds, in this form; if `portable`, also prints where Linux refuses
    /// the program.
    Explain {
        bounds: Bounds,
        form: LineForm,
        portable: bool,
    },
    /// Prints the most that a program can cost, verified within these bounds, in this form. If requested, also chooses
    /// the sizes of rings.
    Cost {
        bounds: Bounds,
        form: LineForm,
        sizes: Option<SizesFor>,
    },
    /// Verifies a program and runs it as these jobs on threads. If there is a file name, writes the records that the
    /// ring's consumer takes to that file as a tape.
    Run {
        jobs: JobsRequest,
        tape: Option<&'a str>,
    },
    /// Runs a script of workers and rings in turns, and prints what happens in this form; if `draw`, also draws the
    /// rings after each turn.
    Sim {
        draw: bool,
        form: LineForm,
    },
}

impl Subcommand<'_> {
    ghost use Rattle.std.specs.Prelude.{◌≡◌};
    ghost use Rattle.rb_command_line.specs.inner.Endings.{form_of};

    /// Returns the size that is requested, or 0 if none is.
    pub(crate) fn size(&self) -> u64 {
        match *self {
            Subcommand::Feed { size, .. } | Subcommand::Tape { size, .. } => size,
            Subcommand::Run { jobs, .. } => jobs.size,
            _ => 0,
        }
    }

    /// Returns the first position that is requested, or 0 if none is.
    pub(crate) fn start(&self) -> u64 {
        match *self {
            Subcommand::Feed { start, .. } | Subcommand::Tape { start, .. } => start,
            Subcommand::Run { jobs, .. } => jobs.start,
            _ => 0,
        }
    }

    /// Returns the number of workers that is requested, or 0 if none is.
    pub(crate) fn workers(&self) -> u64 {
        match *self {
            Subcommand::Run { jobs, .. } => jobs.workers,
            _ => 0,
        }
    }

    /// Returns the number of jobs in all, or 0 if none are requested.
    pub(crate) fn jobs(&self) -> u64 {
        match *self {
            Subcommand::Run { jobs, .. } => jobs.workers.saturating_mul(u64::from(jobs.jobs)),
            _ => 0,
        }
    }

    /// Returns the name of the file for a tape, or an empty one if no tape is requested.
    pub(crate) fn tape(&self) -> &str {
        match *self {
            Subcommand::Run {
                tape: Some(path),
                ..
            } => path,
            _ => "",
        }
    }

    /// Returns whether the command may take long, and has the option to report its progress.
    pub(crate) fn is_long(&self) -> bool {
        matches!(
            self,
            Subcommand::Feed { .. }
                | Subcommand::Tape { .. }
                | Subcommand::Run { .. }
                | Subcommand::Sim { .. }
        )
    }

    /// Returns the form of the output.
    pub(crate) fn form(&self) -> LineForm
        ensures form { result ≡ form_of self.now }
    {
        match *self {
            Subcommand::Feed { form, .. }
            | Subcommand::Tape { form, .. }
            | Subcommand::Check { form, .. }
            | Subcommand::Explain { form, .. }
            | Subcommand::Cost { form, .. }
            | Subcommand::Sim { form, .. } => form,
            Subcommand::Run { jobs, .. } => jobs.form,
        }
    }

    /// Returns whether a refusal is also printed as an object: if the output has lines, but not among the bytes of a
    /// tape that `feed` writes.
    pub(crate) fn prints_object(&self) -> bool {
        self.form() == LineForm::Json && !matches!(self, Subcommand::Feed { .. })
    }
}

/// What the command line requests.
#[derive(Clone, Copy)]
pub struct CommandLine<'a> {
    /// The command.
    pub request: Subcommand<'a>,
    /// The file that is read instead of standard input.
    pub file: Option<&'a str>,
    /// Whether the reason of a refusal is printed.
    pub why: bool,
    /// Whether the progress of a long command is reported.
    pub progress: bool,
}

/// Any command.
#[derive(Drop)]
pub enum ParsedCommand<'a> {
    /// A command other than `stream` and `follow`.
    Command(CommandLine<'a>),
    /// A stream.
    Stream(StreamOptions<'a>),
    /// A ring that is followed.
    Follow(FollowRequest<'a>),
}

/// Returns the command that these words name, which follow the program's name on the command line. An error is help or
/// the version that was requested, wrong usage, or a failed allocation.
///
/// The tables of commands and options determine which command that is. It is tested, and no contract describes it.
pub fn parse<'a, S: AsStr>(
    alloc: Global,
    words: &'a [S],
    terminals: Terminals,
) -> Result<ParsedCommand<'a>, Error> {
    let mut program = program(alloc)?;
    match program.try_get_matches_from_mut(words) {
        Ok(matches) => parsed_command(alloc, &matches, terminals),
        Err(error) => Err(error),
    }
}

// Returns the command of a parsed command line.
fn parsed_command<'a>(
    alloc: Global,
    matches: &ArgMatches<'a>,
    terminals: Terminals,
) -> Result<ParsedCommand<'a>, Error> {
    let Some((name, options)) = matches.subcommand() else {
        return Err(missing_command(alloc)?);
    };
    let values = Values {
        alloc,
        command: name,
        options,
    };
    match name {
        "stream" => Ok(ParsedCommand::Stream(values.stream()?)),
        "follow" => Ok(ParsedCommand::Follow(values.follow()?)),
        _ => Ok(ParsedCommand::Command(values.command_line(terminals)?)),
    }
}

// Returns the error for words without a command. The parser has one of its own, since it requires a command.
fn missing_command(alloc: Global) -> Result<Error, AllocError> {
    program(alloc)?.error(ErrorKind::MissingSubcommand, "no command was given")
}

impl<'a> Values<'_, 'a> {
    // Returns what is requested of a command other than `stream` and `follow`.
    fn command_line(&self, terminals: Terminals) -> Result<CommandLine<'a>, Error> {
        let request = self.request()?;
        let is_watched = terminals.err && !terminals.out;
        Ok(CommandLine {
            request,
            file: self.options.get_str("file").filter(|path| *path != "-"),
            why: self.has("why") || (terminals.err && !self.has("no-why")),
            progress: request.is_long() && (is_watched || self.has("progress")),
        })
    }

    // Returns the command with its own options.
    fn request(&self) -> Result<Subcommand<'a>, Error> {
        match self.command {
            "feed" => self.feed(),
            "tape" => self.tape(),
            "check" => self.check(),
            "explain" => self.explain(),
            "cost" => self.cost(),
            "run" => self.run(),
            _ => Ok(Subcommand::Sim {
                draw: self.has("draw"),
                form: self.form(),
            }),
        }
    }

    fn feed(&self) -> Result<Subcommand<'a>, Error> {
        Ok(Subcommand::Feed {
            size: self.size()?,
            start: self.start()?,
            retries: self.bounded("retry", 0, 100)?,
            form: self.form(),
        })
    }

    fn tape(&self) -> Result<Subcommand<'a>, Error> {
        Ok(Subcommand::Tape {
            size: self.size()?,
            start: self.start()?,
            form: self.form(),
        })
    }

    fn check(&self) -> Result<Subcommand<'a>, Error> {
        Ok(Subcommand::Check {
            bounds: self.bounds()?,
            form: self.form(),
            portable: self.has("portable"),
        })
    }

    fn explain(&self) -> Result<Subcommand<'a>, Error> {
        Ok(Subcommand::Explain {
            bounds: self.bounds()?,
            form: self.form(),
            portable: self.has("portable"),
        })
    }

    fn cost(&self) -> Result<Subcommand<'a>, Error> {
        Ok(Subcommand::Cost {
            bounds: self.bounds()?,
            form: self.form(),
            sizes: self.sizes()?,
        })
    }

    fn run(&self) -> Result<Subcommand<'a>, Error> {
        Ok(Subcommand::Run {
            jobs: self.jobs()?,
            tape: self.options.get_str("tape"),
        })
    }

    // Returns the limits for which a program is verified.
    fn bounds(&self) -> Result<Bounds, Error> {
        Ok(Bounds {
            ctx_len: self.bounded("ctx", 0, 65_536)?,
            rings: self.bounded("rings", 0, 16)?,
        })
    }

    // Returns the jobs to run, and the ring to run them over.
    fn jobs(&self) -> Result<JobsRequest, Error> {
        Ok(JobsRequest {
            workers: self.number("workers", "a decimal number from 1 to 256")?,
            jobs: self.bounded("jobs", 1, 1_000_000)?,
            size: self.size()?,
            start: self.start()?,
            form: self.form(),
        })
    }

    // Returns what the sizes of rings are chosen for, if that is requested.
    fn sizes(&self) -> Result<Option<SizesFor>, Error> {
        if self.options.get_str("workers").is_none() {
            return Ok(None);
        }
        let workers = self.bounded("workers", 1, 256)?;
        if self.options.get_str("behind").is_none() {
            return Ok(Some(SizesFor::Turns(workers)));
        }
        let behind = self.bounded("behind", 0, 1_000_000)?;
        Ok(Some(SizesFor::Jobs(JobsAtOnce { workers, behind })))
    }
}
