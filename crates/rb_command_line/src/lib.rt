//! The command line of `rbhost`: the command that its words name, and the status with which it ends.
//!
//! For the program, and for tests of it over readers and writers in memory. Proved: the status is 0 to 2, wrong usage
//! reads nothing from the input and prints nothing to the output, and a command that ends with status 0 has done what
//! the contract of its own call says (`execute`). Which command the words name (`parse`) is not proved.
#![tactic(auto)]

mod bounds;
mod command_table;
mod cost_sizes;
mod dispatch;
mod execution;
mod follow_request;
mod option_values;
mod options;
mod progress;
mod reasons;
mod refusal;
mod request;
mod stream_command;
mod stream_request;
mod stream_table;
mod taped_jobs;
mod terminals;

pub use cost_sizes::SizesFor;
pub use dispatch::{command, execute};
pub use follow_request::FollowRequest;
pub use rb_io::{NotedReader, NotedWriter};
pub use rb_service::Host;
pub use request::{CommandLine, ParsedCommand, Subcommand, parse};
pub use terminals::Terminals;
