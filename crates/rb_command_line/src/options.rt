//! The parser of the command line, built from the tables of its commands and their options.

use crate::command_table::{COMMANDS, CommandRow, OptionRow, OptionShape};
use crate::stream_table::STREAM_COMMANDS;
use clap::{Arg, ArgAction, Command};
use rb_version::VERSION;
use std::alloc::{AllocError, Global};

/// Returns the commands with their options.
pub(crate) fn program<'a>(alloc: Global) -> Result<Command<'a>, AllocError> {
    let program = with_first_commands(alloc, bare_program(alloc)?)?;
    with_stream_commands(alloc, program)
}

// Returns the program with the commands other than those of streams.
fn with_first_commands<'a>(
    alloc: Global,
    mut program: Command<'a>,
) -> Result<Command<'a>, AllocError> {
    for row in &COMMANDS {
        program = with_command(alloc, program, row)?;
    }
    Ok(program)
}

// Returns the program with the commands of streams.
fn with_stream_commands<'a>(
    alloc: Global,
    mut program: Command<'a>,
) -> Result<Command<'a>, AllocError> {
    for row in &STREAM_COMMANDS {
        program = with_command(alloc, program, row)?;
    }
    Ok(program)
}

/// Returns the command with this name, or the program without commands if there is none.
pub(crate) fn subcommand<'a>(alloc: Global, name: &str) -> Result<Command<'a>, AllocError> {
    for row in &COMMANDS {
        if row.name == name {
            return named_command(alloc, row);
        }
    }
    stream_subcommand(alloc, name)
}

// Returns the command of streams with this name, or the program without commands if there is none.
fn stream_subcommand<'a>(alloc: Global, name: &str) -> Result<Command<'a>, AllocError> {
    for row in &STREAM_COMMANDS {
        if row.name == name {
            return named_command(alloc, row);
        }
    }
    bare_program(alloc)
}

// Returns the program without its commands.
fn bare_program<'a>(alloc: Global) -> Result<Command<'a>, AllocError> {
    Command::new(alloc, "rbhost")
        .version(VERSION)
        .about("A host for eBPF programs that write into BPF ring buffers")
        .no_binary_name(true)
        .subcommand_required(true)
        .bin_name("rbhost")
}

// Returns the program with one more command.
fn with_command<'a>(
    alloc: Global,
    program: Command<'a>,
    row: &CommandRow,
) -> Result<Command<'a>, AllocError> {
    program.subcommand(command(alloc, row)?)
}

// Returns the command of a row, which is called by the program's name and its own.
fn named_command<'a>(alloc: Global, row: &CommandRow) -> Result<Command<'a>, AllocError> {
    let name = row.name;
    let bin_name = format!(in alloc; "rbhost {name}")?;
    command(alloc, row)?.bin_name(bin_name.as_str())
}

// Returns the command of a row.
fn command<'a>(alloc: Global, row: &CommandRow) -> Result<Command<'a>, AllocError> {
    let mut command = Command::new(alloc, row.name)
        .about(row.about)
        .after_help(row.example);
    for option in row.options {
        command = with_option(alloc, command, option)?;
    }
    Ok(command)
}

// Returns a command with one more option.
fn with_option<'a>(
    alloc: Global,
    command: Command<'a>,
    row: &OptionRow,
) -> Result<Command<'a>, AllocError> {
    command.arg(argument(alloc, row)?)
}

// Returns the option of a row.
fn argument<'a>(alloc: Global, row: &OptionRow) -> Result<Arg<'a>, AllocError> {
    let argument = Arg::new(alloc, row.name).help(row.help);
    match row.shape {
        OptionShape::Flag => Ok(flag(argument, row.name)),
        OptionShape::FlagWithout(other) => flag(argument, row.name).conflicts_with(other),
        OptionShape::Value(value) => Ok(one_value(argument, row.name, value)),
        OptionShape::Default(value, default) => {
            Ok(one_value(argument, row.name, value).default_value(default))
        }
        OptionShape::ValueWith(value, other) => one_value(argument, row.name, value).requires_arg(
            other,
        ),
        OptionShape::Required(value) => Ok(one_value(argument, row.name, value).required(true)),
        OptionShape::Values(value) => Ok(values(argument, row.name, value)),
        OptionShape::RequiredValues(value) => Ok(values(argument, row.name, value).required(true)),
        OptionShape::Operand(value) => Ok(argument.value_name(value)),
        OptionShape::RequiredOperand(value) => Ok(argument.value_name(value).required(true)),
    }
}

// Returns an option without a value.
fn flag<'a>(argument: Arg<'a>, name: &'a str) -> Arg<'a> {
    argument.long(name).action(ArgAction::SetTrue)
}

// Returns an option with a value.
fn one_value<'a>(argument: Arg<'a>, name: &'a str, value: &'a str) -> Arg<'a> {
    argument.long(name).action(ArgAction::Set).value_name(value)
}

// Returns an option with a value that may be given several times.
fn values<'a>(argument: Arg<'a>, name: &'a str, value: &'a str) -> Arg<'a> {
    argument
        .long(name)
        .action(ArgAction::Append)
        .value_name(value)
}
