//! The arguments of a command: rows of a table, in the order of the help.

use clap::builder::ValueParser;
use clap::{Arg, ArgAction, Command};
use std::alloc::{AllocError, Global};

/// An argument of a command.
#[derive(Clone, Copy)]
pub struct Argument {
    /// The name under which it is read; an option has it after `--`.
    pub name: &'static str,
    /// The value that it takes.
    pub takes: Takes,
    /// The rule for when it may be given.
    pub rule: Rule,
    /// The text about it in the help.
    pub help: &'static str,
}

/// The value that an argument takes, if it takes one. The text is the value's name in the help.
#[derive(Clone, Copy)]
pub enum Takes {
    /// An option without a value.
    Nothing,
    /// An option with a value that passes the parser.
    Value(&'static str, ValueParser<'static>),
    /// The same, if the text about it names what it may be.
    Named(&'static str, ValueParser<'static>),
    /// An option with a value, any number of times.
    Values(&'static str),
    /// A word that stands alone.
    Word(&'static str),
    /// Words that stand alone.
    Words(&'static str),
}

/// A rule for when an argument may be given.
#[derive(Clone, Copy)]
pub enum Rule {
    /// It may be left out.
    Optional,
    /// It may be left out, and then has this value.
    Default(&'static str),
    /// It has to be given.
    Required,
    /// It has to be given unless this option is.
    RequiredUnless(&'static str),
    /// It may not be given beside this option.
    Without(&'static str),
    /// Only one of those in this group may be given.
    OneOf(&'static str),
}

/// The parser of any text.
pub const TEXT: ValueParser<'static> = ValueParser::String;

/// The parser of a whole number from 1 on.
pub const FROM_ONE: ValueParser<'static> = ValueParser::Unsigned(1, u64::MAX);

/// The parser of a whole number of 16 bits, from 1 on.
pub const U16: ValueParser<'static> = ValueParser::Signed(1, 65_535);

/// The parser of a whole number of 32 bits, from 1 on.
pub const U32: ValueParser<'static> = ValueParser::Signed(1, 4_294_967_295);

/// The parser of a number of seconds, of up to an hour.
pub const HOUR: ValueParser<'static> = ValueParser::Unsigned(1, 3_600);

/// The option that joins files with their logs.
pub const LOG: Argument = Argument {
    name: "log",
    takes: Takes::Nothing,
    rule: Rule::Optional,
    help: "Joins each file with the logs beside it, FILE.log and FILE.log.old, which a member with --log keeps",
};

/// The value that names a state.
pub const STATE: Takes = Takes::Value("STATE", ValueParser::Names(&["sil", "nfl"]));

/// Adds arguments to a command, in their order.
///
/// # Errors
///
/// Returns [`AllocError`] if memory runs out.
pub fn with_arguments<'a>(
    alloc: Global,
    command: Command<'a>,
    arguments: &[Argument],
) -> Result<Command<'a>, AllocError> {
    let mut command = command;
    for argument in arguments {
        let arg = arg_of(alloc, argument)?;
        command = command.arg(arg)?;
    }
    Ok(command)
}

/// Returns an argument as `clap` has it.
fn arg_of<'a>(alloc: Global, argument: &Argument) -> Result<Arg<'a>, AllocError> {
    let arg = Arg::new(alloc, argument.name).help(argument.help);
    under(taking(arg, argument.name, argument.takes), argument.rule)
}

/// Returns the argument with the value that it takes.
fn taking<'a>(arg: Arg<'a>, name: &'static str, takes: Takes) -> Arg<'a> {
    match takes {
        Takes::Nothing => arg.long(name).action(ArgAction::SetTrue),
        Takes::Value(value, parser) => arg.long(name).value_name(value).value_parser(parser),
        Takes::Named(value, parser) => arg
            .long(name)
            .value_name(value)
            .value_parser(parser)
            .hide_possible_values(true),
        Takes::Values(value) => arg.long(name).value_name(value).action(ArgAction::Append),
        Takes::Word(value) => arg.value_name(value),
        Takes::Words(value) => arg.value_name(value).num_args(1..),
    }
}

/// Returns the argument under its rule.
fn under<'a>(arg: Arg<'a>, rule: Rule) -> Result<Arg<'a>, AllocError> {
    match rule {
        Rule::Optional => Ok(arg),
        Rule::Default(value) => Ok(arg.default_value(value)),
        Rule::Required => Ok(arg.required(true)),
        Rule::RequiredUnless(other) => arg.required_unless_present(other),
        Rule::Without(other) => arg.conflicts_with(other),
        Rule::OneOf(group) => arg.group(group),
    }
}
