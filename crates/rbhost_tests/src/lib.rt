//! Tests of the program by its command line, over readers and writers in memory that fail, of `feed`, `tape` and runs with
//! a tape over such writers, and of what `sim` reports to its watch. Command lines over devices that do not fail are rows
//! of `rb_program_rows`, except for those with JSON lines.
#![tactic(auto)]

#[cfg(test)]
mod check_command;
#[cfg(test)]
mod commands;
#[cfg(test)]
mod endings;
#[cfg(test)]
mod expected;
#[cfg(test)]
mod fakes;
#[cfg(test)]
mod feed_command;
#[cfg(test)]
mod feed_retries;
#[cfg(test)]
mod inputs;
#[cfg(test)]
mod json_lines;
#[cfg(test)]
mod kept_file;
#[cfg(test)]
mod run_command;
#[cfg(test)]
mod sim_command;
#[cfg(test)]
mod sim_progress;
#[cfg(test)]
mod tape_command;
#[cfg(test)]
mod tape_files;
#[cfg(test)]
mod taped_run;
#[cfg(test)]
mod version;
#[cfg(test)]
mod whole_run_retries;
