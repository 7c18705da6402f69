ghost use Rattle.std.specs.Prelude.{◌≡◌, IfOk, false};
ghost use Rattle.clap.specs.Words.{app_of, rule_of};
ghost use Rattle.flow_words.specs.Command.{flow_app, mode_rule, number_rule};

use clap::builder::ValueParser;
use clap::{Arg, ArgAction, Command};
use flow_model::{GREATEST_SEED, GREATEST_SIZE, MOST_ENTRIES, MOST_WORKERS};
use std::alloc::{AllocError, Global};

/// The command that reads the words of a call.
pub(crate) fn flow_command<'a>(alloc: Global) -> Result<Command<'a>, AllocError>
    ensures { IfOk result (λ command. app_of command ≡ flow_app) }
{
    Command::new(alloc, "flow")
        .version("1")
        .arg(mode_argument(alloc))?
        .arg(number_option(alloc, "steps", 1, MOST_ENTRIES, "65536"))?
        .arg(number_option(alloc, "workers", 1, MOST_WORKERS, "4"))?
        .arg(number_option(alloc, "seed", 0, GREATEST_SEED, "1"))?
        .arg(number_option(alloc, "size", 1, GREATEST_SIZE, "16"))
}

/// The one word that stands for itself.
fn mode_argument<'a>(alloc: Global) -> Arg<'a>
    ensures rule { rule_of result ≡ mode_rule }
    ensures local { result.global ≡ false }
{
    Arg::new(alloc, "mode")
        .required(true)
        .action(ArgAction::Set)
}

/// An option with one number, which is the default where the option is not used.
fn number_option<'a>(
    alloc: Global,
    name: &'a str,
    least: u32,
    greatest: u32,
    default: &'a str,
) -> Arg<'a>
    ensures rule { rule_of result ≡ number_rule name.entry.now least greatest default.entry.now }
    ensures local { result.global ≡ false }
{
    Arg::new(alloc, name)
        .long(name)
        .action(ArgAction::Set)
        .value_parser(ValueParser::signed(i64::from(least), i64::from(greatest)))
        .default_value(default)
}
