//! The command of `clap`.
ghost use Rattle.std.specs.Prelude.{◌≡◌, IfOk, false};
ghost use Rattle.clap.specs.Words.{app_of, rule_of};
ghost use Rattle.serve_words.specs.Words.{count_rule, option_rule, serve_app};

use clap::{Arg, ArgAction, Command};
use std::alloc::{AllocError, Global};

/// The most connections that a run serves.
pub const MAX_CONNECTIONS: u32 = 1_000_000;

/// The pull server's command: its four options and no other argument; no argument is the program's name.
pub(crate) fn command<'a>(alloc: Global) -> Result<Command<'a>, AllocError>
    ensures { IfOk result (λ command. app_of command ≡ serve_app) }
{
    let bare = Command::new(alloc, "serve").no_binary_name(true);
    let one = bare.arg(option(alloc, "store"))?;
    let two = one.arg(option(alloc, "shelf"))?;
    let three = two.arg(option(alloc, "listen"))?;
    three.arg(connections(alloc))
}

// An option that must be there, once and with one value.
fn option<'a>(alloc: Global, name: &'a str) -> Arg<'a>
    ensures rule { rule_of result ≡ option_rule name.entry.now }
    ensures local { result.global ≡ false }
{
    Arg::new(alloc, name)
        .long(name)
        .required(true)
        .action(ArgAction::Set)
}

fn connections<'a>(alloc: Global) -> Arg<'a>
    ensures rule { rule_of result ≡ count_rule }
    ensures local { result.global ≡ false }
{
    let numbers = clap::value_parser!(u32).range(1..=MAX_CONNECTIONS as i64);
    option(alloc, "connections").value_parser(numbers)
}
