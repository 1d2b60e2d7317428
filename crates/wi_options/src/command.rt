//! The options, as `clap` is told of them.

ghost use Rattle.std.specs.Prelude.{◌≡◌, ◌≤◌, IfOk, codes};
ghost use Rattle.clap.specs.Built.{IsParsedFrom};
ghost use Rattle.clap.specs.Words.{app_of, first_value, found_of};
ghost use Rattle.clap.specs.declared.parser.matches.ArgMatches.{ArgMatches};
ghost use Rattle.wi_options.specs.Stated.{keep_option, load_option, most_kept, number_or};
ghost use Rattle.wi_options.specs.Stated.{usual_kept, whatif};
ghost use Rattle.wi_options.specs.Inner.Reads.{IsBare, IsPlainly, ReadsKeep};

use crate::help::{ABOUT, COMMANDS_AND_REFUSALS, USAGE, VERSION};
use clap::{Arg, ArgAction, ArgMatches, Command, value_parser};
use std::alloc::{AllocError, Global};

/// How many values are kept where the words don't say.
const KEEP: u32 = 65_536;

fn load_arg<'a>(alloc: Global) -> Arg<'a>
    ensures { IsPlainly load_option result }
{
    Arg::new(alloc, "load")
        .long("load")
        .value_name("FILE")
        .help("Runs the script FILE first, on the same workbook")
        .action(ArgAction::Set)
}

fn keep_arg<'a>(alloc: Global) -> Arg<'a>
    ensures { IsPlainly keep_option result }
{
    Arg::new(alloc, "keep")
        .long("keep")
        .value_name("N")
        .help("Keeps N values, 1 to 1000000 [default: 65536]")
        .action(ArgAction::Set)
        .value_parser(value_parser!(u32).range(1..=1_000_000))
}

/// The program, without its options.
fn bare_command<'a>(alloc: Global) -> Command<'a>
    ensures { IsBare result }
{
    Command::new(alloc, "whatif")
        .version(VERSION)
        .override_usage(USAGE)
        .about(ABOUT)
        .after_help(COMMANDS_AND_REFUSALS)
}

/// The program's command line.
pub(crate) fn command<'a>(alloc: Global) -> Result<Command<'a>, AllocError>
    ensures app { IfOk result (λ command. app_of command ≡ whatif) }
    ensures keep { IfOk result
        (λ command. (m : ArgMatches) → IsParsedFrom command m → ReadsKeep m) }
{
    bare_command(alloc)
        .arg(load_arg(alloc))?
        .arg(keep_arg(alloc))
}

/// How many values are kept.
pub(crate) fn kept(matches: &ArgMatches<'_>) -> usize
    requires { ReadsKeep matches.now }
    ensures stated { result
        ≡ number_or usual_kept (first_value (found_of matches.now) (codes "keep")) }
    ensures range { (1 ≤ result) × (result ≤ most_kept) }
{
    matches.get_one::<u32>("keep").unwrap_or(KEEP) as usize
}
