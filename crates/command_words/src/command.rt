//! The command as `clap` has it.

ghost use Rattle.std.specs.Prelude.{◌≡◌, false, IfOk};
ghost use Rattle.clap.specs.Words.{app_of, rule_of};
ghost use Rattle.command_words.specs.Forms.{flagged_command, form_argument, number_argument, side_argument, snoop_argument, tagged_argument, the_command};

use clap::{Arg, ArgAction, Command};
use std::alloc::{AllocError, Global};

/// The word of the form, which must be there.
fn form_argument<'a>(alloc: Global) -> Arg<'a>
    ensures rule { rule_of result ≡ form_argument }
    ensures own { result.global ≡ false }
{
    Arg::new(alloc, "form").required(true)
}

/// The flag `--tagged`.
fn tagged_argument<'a>(alloc: Global) -> Arg<'a>
    ensures rule { rule_of result ≡ tagged_argument }
    ensures own { result.global ≡ false }
{
    Arg::new(alloc, "tagged")
        .long("tagged")
        .action(ArgAction::SetTrue)
}

/// The flag `--snoop`.
fn snoop_argument<'a>(alloc: Global) -> Arg<'a>
    ensures rule { rule_of result ≡ snoop_argument }
    ensures own { result.global ≡ false }
{
    Arg::new(alloc, "snoop")
        .long("snoop")
        .action(ArgAction::SetTrue)
}

/// The option `--side`.
fn side_argument<'a>(alloc: Global) -> Arg<'a>
    ensures rule { rule_of result ≡ side_argument }
    ensures own { result.global ≡ false }
{
    Arg::new(alloc, "side").long("side")
}

/// The option `--number`.
fn number_argument<'a>(alloc: Global) -> Arg<'a>
    ensures rule { rule_of result ≡ number_argument }
    ensures own { result.global ≡ false }
{
    Arg::new(alloc, "number").long("number")
}

/// The command with its required word and the flags `--tagged` and `--snoop`.
fn flagged_command<'a>(alloc: Global) -> Result<Command<'a>, AllocError>
    ensures { IfOk result (λ command. app_of command ≡ flagged_command) }
{
    let bare = Command::new(alloc, "btpush");
    let formed = bare.arg(form_argument(alloc))?;
    let tagged = formed.arg(tagged_argument(alloc))?;
    let command = tagged.arg(snoop_argument(alloc))?;
    Ok(command)
}

/// The command: one required word, the flags `--tagged` and `--snoop`, and the options `--side` and
/// `--number`.
pub(crate) fn the_command<'a>(alloc: Global) -> Result<Command<'a>, AllocError>
    ensures { IfOk result (λ command. app_of command ≡ the_command) }
{
    let flagged = flagged_command(alloc)?;
    let sided = flagged.arg(side_argument(alloc))?;
    let command = sided.arg(number_argument(alloc))?;
    Ok(command)
}
