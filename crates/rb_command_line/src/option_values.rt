//! The values of a command's options.

ghost use Rattle.std.specs.Prelude.{◌<◌, ◌^◌};
ghost use Rattle.std.specs.Option.{SomeIff};
ghost use Rattle.std.specs.Str.Parse.{IsNumeral, digits_value};

use crate::bounds::{SIZES, STARTS};
use crate::options::subcommand;
use clap::error::ErrorKind;
use clap::{ArgMatches, Error};
use rb_json::LineForm;
use std::alloc::{AllocError, Global};

/// The values of a command's options, as they were given.
#[derive(Clone, Copy)]
pub(crate) struct Values<'v, 'a> {
    /// Allocates the errors.
    pub(crate) alloc: Global,
    /// The command's name.
    pub(crate) command: &'v str,
    /// Its options.
    pub(crate) options: &'v ArgMatches<'a>,
}

impl<'a> Values<'_, 'a> {
    ghost use Rattle.std.specs.Prelude.{◌≤◌, IfOk};

    /// Returns the form of the output.
    pub(crate) fn form(&self) -> LineForm {
        if self.has("json") {
            LineForm::Json
        } else {
            LineForm::Words
        }
    }

    /// Returns whether an option without a value is given.
    pub(crate) fn has(&self, name: &str) -> bool {
        self.options.get_flag(name)
    }

    /// Returns the size that the option `size` has.
    pub(crate) fn size(&self) -> Result<u64, Error> {
        match self.options.get_str("size").and_then(byte_count) {
            Some(size) => Ok(size),
            None => Err(self.refused("size", SIZES)),
        }
    }

    /// Returns the first position that the option `start` has.
    pub(crate) fn start(&self) -> Result<u64, Error> {
        self.number("start", STARTS)
    }

    /// Returns the number that an option has, which may be any below 2^64. Other bounds are tested later.
    pub(crate) fn number(&self, name: &str, wanted: &str) -> Result<u64, Error> {
        match self.options.get_str(name).and_then(decimal) {
            Some(number) => Ok(number),
            None => Err(self.refused(name, wanted)),
        }
    }

    /// Returns the number that an option has, if it is within these bounds. The number of `ctx` is a number of bytes.
    pub(crate) fn bounded(&self, name: &str, least: u32, most: u32) -> Result<u32, Error>
        ensures { IfOk result (λ n. (least ≤ n) × (n ≤ most)) }
    {
        let value = self.options.get_str(name);
        let number = match name {
            "ctx" => value.and_then(byte_count),
            _ => value.and_then(decimal),
        };
        match number {
            Some(number) if u64::from(least) <= number && number <= u64::from(most) => {
                Ok(number as u32)
            }
            _ => Err(self.out_of_bounds(name, least, most)),
        }
    }

    // Returns the error for an option whose value is not a number within these bounds.
    fn out_of_bounds(&self, name: &str, least: u32, most: u32) -> Error {
        match format!(in self.alloc; "a decimal number from {least} to {most}") {
            Ok(wanted) => self.refused(name, wanted.as_str()),
            Err(error) => Error::from(error),
        }
    }

    /// Returns the error for an option whose value is not one that it accepts.
    pub(crate) fn refused(&self, name: &str, wanted: &str) -> Error {
        self.wrong(name, self.options.get_str(name).unwrap_or(""), wanted)
    }

    /// Returns the error for this value of an option.
    pub(crate) fn wrong(&self, name: &str, value: &str, wanted: &str) -> Error {
        match self.validation_error(name, value, wanted) {
            Ok(error) => error,
            Err(error) => Error::from(error),
        }
    }

    // Returns the error for this value, or `AllocError` if its message cannot be allocated.
    fn validation_error(&self, name: &str, value: &str, wanted: &str) -> Result<Error, AllocError> {
        let message = format!(in self.alloc; "the value '{value}' of '--{name}' is not {wanted}")?;
        subcommand(self.alloc, self.command)?.error(ErrorKind::ValueValidation, message.as_str())
    }
}

/// Returns the number that decimal digits spell, if it is below 2^64. `parse` alone would accept a leading plus.
pub(crate) fn decimal(text: &str) -> Option<u64>
    ensures { SomeIff result (IsNumeral 10 text.now × (digits_value 10 text.now < 2 ^ 64)) (digits_value 10 text.now) }
{
    if text.as_bytes().first() == Some(&b'+') {
        return None;
    }
    text.parse().ok()
}

/// Returns the number of bytes that a text names, as `byte_count` does, or of GiB if a `G` follows.
pub(crate) fn large_count(text: &str) -> Option<u64> {
    if let Some(gigabytes) = text.strip_suffix('G') {
        return decimal(gigabytes)?.checked_mul(1 << 30);
    }
    byte_count(text)
}

/// Returns the number of bytes that a text names: a decimal number, of KiB if a `K` follows and of MiB if an `M`
/// follows.
pub(crate) fn byte_count(text: &str) -> Option<u64> {
    if let Some(kilobytes) = text.strip_suffix('K') {
        return decimal(kilobytes)?.checked_mul(1 << 10);
    }
    if let Some(megabytes) = text.strip_suffix('M') {
        return decimal(megabytes)?.checked_mul(1 << 20);
    }
    decimal(text)
}
