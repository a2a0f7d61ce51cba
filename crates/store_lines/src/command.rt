//! The command of `clap`.
ghost use Rattle.std.specs.Prelude.{◌≡◌, IfOk, codes, false};
ghost use Rattle.clap.specs.Words.{app_of, rule_of};
ghost use Rattle.store_lines.specs.Words.{fleet_app, flag_rule, looking_app, many_rule, option_rule, printing_app, stores_rule};

use clap::{Arg, ArgAction, Command};
use std::alloc::{AllocError, Global};

/// The program's command: the paths of stores, and its options; no argument is the program's name.
#[tactic(auto, unfolding(crate::specs::Words::fleet_app))]
pub(crate) fn command<'a>(alloc: Global) -> Result<Command<'a>, AllocError>
    ensures { IfOk result (λ command. app_of command ≡ fleet_app) }
{
    let one = printing(alloc)?;
    let two = one.arg(many(alloc, "forget"))?;
    let three = two.arg(option(alloc, "forget-silent"))?;
    three.arg(flag(alloc, "forget-never-reported"))
}

// Without the options by which agents are forgotten.
fn printing<'a>(alloc: Global) -> Result<Command<'a>, AllocError>
    ensures { IfOk result (λ command. app_of command ≡ printing_app) }
{
    let one = looking(alloc)?;
    let two = one.arg(flag(alloc, "reports"))?;
    let three = two.arg(flag(alloc, "table"))?;
    three.arg(flag(alloc, "prometheus"))
}

// Without those of a form, too.
fn looking<'a>(alloc: Global) -> Result<Command<'a>, AllocError>
    ensures { IfOk result (λ command. app_of command ≡ looking_app) }
{
    let bare = Command::new(alloc, "fleet").no_binary_name(true);
    let one = bare.arg(stores(alloc))?;
    let two = one.arg(many(alloc, "class"))?;
    two.arg(option(alloc, "older"))
}

// Paths, of which there is one at least.
fn stores<'a>(alloc: Global) -> Arg<'a>
    ensures rule { rule_of result ≡ stores_rule }
    ensures local { result.global ≡ false }
{
    Arg::new(alloc, "store")
        .required(true)
        .action(ArgAction::Append)
}

// An option with a value, as often as one likes.
fn many<'a>(alloc: Global, name: &'a str) -> Arg<'a>
    ensures rule { rule_of result ≡ many_rule name.now }
    ensures local { result.global ≡ false }
{
    Arg::new(alloc, name).long(name).action(ArgAction::Append)
}

// An option with a value, once.
fn option<'a>(alloc: Global, name: &'a str) -> Arg<'a>
    ensures rule { rule_of result ≡ option_rule name.now }
    ensures local { result.global ≡ false }
{
    Arg::new(alloc, name).long(name).action(ArgAction::Set)
}

// An option without a value, once.
fn flag<'a>(alloc: Global, name: &'a str) -> Arg<'a>
    ensures rule { rule_of result ≡ flag_rule name.now }
    ensures local { result.global ≡ false }
{
    Arg::new(alloc, name).long(name).action(ArgAction::SetTrue)
}
