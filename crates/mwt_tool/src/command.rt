// The words, as one simple command.
ghost use Rattle.std.specs.Prelude.{◌≡◌, IfOk, false};
ghost use Rattle.clap.specs.Words.{app_of, rule_of, with_rule};
ghost use Rattle.mwt_tool.specs.Command.{bare_command, command, mode_rule, option_rule};

use clap::{Arg, Command};
use std::alloc::{AllocError, Global};

/// The command: a word for the mode, and options with their values where no word gives one.
pub fn command<'a>(alloc: Global) -> Result<Command<'a>, AllocError>
    ensures { IfOk result (λ c. app_of c ≡ command) }
{
    let words = with(bare_command(alloc), mode(alloc))?;
    let words = with(words, option(alloc, "workers", "4"))?;
    let words = with(words, option(alloc, "diamond", "on"))?;
    let words = with(words, option(alloc, "sweeps", "16"))?;
    let words = with(words, option(alloc, "seed", "1"))?;
    with(words, option(alloc, "points", "100"))
}

// Without help and version, and without a word for the program's name.
fn bare_command<'a>(alloc: Global) -> Command<'a>
    ensures { app_of result ≡ bare_command }
{
    Command::new(alloc, "mwt")
        .no_binary_name(true)
        .disable_help_flag(true)
        .disable_version_flag(true)
}

fn with<'a>(command: Command<'a>, arg: Arg<'a>) -> Result<Command<'a>, AllocError>
    requires { arg.global ≡ false }
    ensures { IfOk result (λ c. app_of c ≡ with_rule (app_of command.entry) (rule_of arg.entry)) }
{
    command.arg(arg)
}

fn mode<'a>(alloc: Global) -> Arg<'a>
    ensures rule { rule_of result ≡ mode_rule }
    ensures own { result.global ≡ false }
{
    Arg::new(alloc, "mode").required(true)
}

fn option<'a>(alloc: Global, name: &'a str, default: &'a str) -> Arg<'a>
    ensures rule { rule_of result ≡ option_rule name.now default.now }
    ensures own { result.global ≡ false }
{
    Arg::new(alloc, name).long(name).default_value(default)
}
