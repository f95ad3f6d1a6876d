// What the words of the command line say (docs/grammar.md, "The command line").
ghost use Rattle.std.specs.Prelude.{◌≡◌, All, Any, IfOk, MatchBool, false, map, option_map};
ghost use Rattle.clap.specs.Simple.{app_of};
ghost use Rattle.clap.specs.Walk.{rule_of};
ghost use Rattle.clap.specs.Words.{first_value, found_of};
ghost use Rattle.command_line.specs.Command.{app_with, option_arg};
ghost use Rattle.command_line.specs.Words.{IsOtherText, IsTwoDashes, command_of, line_of, policy_named, said};

use clap::error::ErrorKind;
use clap::{Arg, ArgAction, ArgMatches, Command};
use mt_base::{NoMemory, Policy};
use std::alloc::Global;

/// The options, by their names. Each may be given once, with one value; `line_in` says how that is read.
static OPTIONS: [&str; 2] = ["path", "policy"];

/// What a command line says.
#[derive(Clone, Copy)]
pub struct CommandLine<'a> {
    /// The path of the folder.
    pub folder: &'a str,
    /// Which neighbours are merged first.
    pub policy: Policy,
}

/// The policy of a name.
fn policy_named(name: &str) -> Option<Policy>
    ensures { result ≡ policy_named name.now }
{
    match name {
        "near" => Some(Policy::Near),
        "head" => Some(Policy::Head),
        "tail" => Some(Policy::Tail),
        _ => None,
    }
}

/// What the values of the options say.
fn line_in<'a>(matches: &ArgMatches<'a>) -> Option<CommandLine<'a>>
    ensures { option_map said result ≡ line_of (first_value (found_of matches.now)) }
{
    let folder = matches.get_str("path")?;
    let policy = match matches.get_str("policy") {
        Some(name) => policy_named(name)?,
        None => Policy::Near,
    };
    Some(CommandLine { folder, policy })
}

/// Whether one of the words is two dashes alone, after which `clap` would look for no option.
fn has_two_dashes(words: &[String]) -> bool
    ensures { MatchBool result (Any IsTwoDashes words.now) (All IsOtherText words.now) }
{
    for word in words {
        if word.as_str().as_bytes() == b"--".as_slice() {
            return true;
        }
    }
    false
}

/// The option of a name, which has one value.
fn option_named<'a>(alloc: Global, name: &'a str) -> Arg<'a>
    ensures rule { rule_of result ≡ option_arg name.now }
    ensures plain { result.global ≡ false }
{
    Arg::new(alloc, name).long(name).action(ArgAction::Set)
}

/// The command that has an option of each of these names.
fn command_with<'a>(alloc: Global, names: &[&'a str]) -> Result<Command<'a>, NoMemory>
    ensures { IfOk result
        (λ command. app_of command ≡ app_with (map (λ name. name.now) names.now)) }
{
    let mut command = Command::new(alloc, "mergetree")
        .no_binary_name(true)
        .disable_help_flag(true);
    for name in names {
        command = command.arg(option_named(alloc, name))?;
    }
    Ok(command)
}

/// Reads the words of the command line: the program's name, and the options `--path DIR` and `--policy NAME`, each at most once.
///
/// `None` where the words are no command line.
pub fn read_words<'a>(
    alloc: Global,
    words: &'a [String],
) -> Result<Option<CommandLine<'a>>, NoMemory>
    ensures { IfOk result (λ line. option_map said line ≡ command_of words.now) }
{
    let Some((_name, words)) = words.split_first() else {
        return Ok(None);
    };
    if has_two_dashes(words) {
        return Ok(None);
    }
    let command = command_with(alloc, OPTIONS.as_slice())?;
    match command.try_get_matches_from(words) {
        Ok(matches) => Ok(line_in(&matches)),
        Err(error) if error.kind() == ErrorKind::OutOfMemory => Err(NoMemory),
        Err(_) => Ok(None),
    }
}
