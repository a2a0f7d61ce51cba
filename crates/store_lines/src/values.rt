//! The values of the options, as a parse found them.
ghost use Rattle.std.specs.Prelude.{◌≡◌, ℕ, IfOk, IfNone, IfSome, IsErrOf, codes, encode_utf8_all, map, option_map};
ghost use Rattle.clap.specs.Words.{first_of, found_of, rows_of};
ghost use Rattle.pull_messages.specs.Targets.{agent_of};
ghost use Rattle.agent_class.specs.declared.class.Class.{Class as ClassTerm};
ghost use Rattle.store_lines.specs.Told.{class_word};
ghost use Rattle.store_lines.specs.Words.{AreIds, AreNoClasses, AreNoIds, AreNoOptions, AreOptions, IsChoice, IsFlag, IsNoChoice, IsNumber, IsUnread, SpellsNumber, texts_of};

use crate::choice::Choice;
use crate::task::FleetOptions;
use crate::words::WordsError;
use agent_class::Class;
use clap::ArgMatches;
use mof_values::{Items, Text};
use std::alloc::{AllocError, Global};
use uuid::fmt::Hyphenated;

/// The values of all options.
pub(crate) fn options_in(
    alloc: Global,
    matches: &ArgMatches<'_>,
) -> Result<FleetOptions, WordsError>
    ensures ok { IfOk result (AreOptions (rows_of (found_of matches.now))) }
    ensures usage { IsErrOf result WordsError.Usage → AreNoOptions (rows_of (found_of matches.now)) }
{
    let stores = texts_in(alloc, matches, "store")?;
    let classes = classes_in(alloc, matches)?;
    let older = number_in(matches, "older")?;
    let choice = choice_in(alloc, matches)?;
    Ok(FleetOptions {
        stores: Items::of(stores),
        classes: Items::of(classes),
        older,
        reports: flag_in(matches, "reports"),
        table: flag_in(matches, "table"),
        prometheus: flag_in(matches, "prometheus"),
        choice,
    })
}

fn choice_in(alloc: Global, matches: &ArgMatches<'_>) -> Result<Choice, WordsError>
    ensures ok { IfOk result (IsChoice (rows_of (found_of matches.now))) }
    ensures usage { IsErrOf result WordsError.Usage → IsNoChoice (rows_of (found_of matches.now)) }
{
    let agents = ids_in(alloc, matches)?;
    let silent_days = number_in(matches, "forget-silent")?;
    Ok(Choice {
        agents: Items::of(agents),
        silent_days,
        never_reported: flag_in(matches, "forget-never-reported"),
    })
}

// The values of the argument with this name.
fn texts_in(alloc: Global, matches: &ArgMatches<'_>, name: &str) -> Result<Vec<Text>, AllocError>
    ensures { IfOk result (λ texts. map encode_utf8_all texts.items
        ≡ texts_of name.now (rows_of (found_of matches.now))) }
{
    match matches.get_strs(name) {
        Some(values) => texts_from(alloc, values),
        None => Ok(Vec::new(alloc)),
    }
}

fn texts_from(alloc: Global, values: &[&str]) -> Result<Vec<Text>, AllocError>
    ensures { IfOk result (λ texts. map encode_utf8_all texts.items ≡ map (λ v. v.now) values.now) }
{
    let mut texts = Vec::new(alloc);
    for value in values {
        texts.push(Text::from_utf8(alloc, value)?)?;
    }
    Ok(texts)
}

fn classes_in(alloc: Global, matches: &ArgMatches<'_>) -> Result<Vec<Class>, WordsError>
    ensures ok { IfOk result (λ classes. map class_word classes.items
        ≡ texts_of (codes "class") (rows_of (found_of matches.now))) }
    ensures usage { IsErrOf result WordsError.Usage
        → AreNoClasses (texts_of (codes "class") (rows_of (found_of matches.now))) }
{
    match matches.get_strs("class") {
        Some(names) => classes_named(alloc, names),
        None => Ok(Vec::new(alloc)),
    }
}

fn classes_named(alloc: Global, names: &[&str]) -> Result<Vec<Class>, WordsError>
    ensures ok { IfOk result (λ classes. map class_word classes.items ≡ map (λ v. v.now) names.now) }
    ensures usage { IsErrOf result WordsError.Usage → AreNoClasses (map (λ v. v.now) names.now) }
{
    let mut classes = Vec::new(alloc);
    for name in names {
        match class_named(name) {
            Some(class) => classes.push(class)?,
            None => return Err(WordsError::Usage),
        }
    }
    Ok(classes)
}

fn class_named(name: &str) -> Option<Class>
    ensures some { IfSome result (λ class. class_word class ≡ name.now) }
    ensures none { IfNone result ((class : ClassTerm) → class_word class ≡ name.now → ⊥) }
{
    match name {
        "Compliant" => Some(Class::Compliant),
        "Failed" => Some(Class::Failed),
        "Silent" => Some(Class::Silent),
        "Other" => Some(Class::Other),
        _ => None,
    }
}

fn ids_in(alloc: Global, matches: &ArgMatches<'_>) -> Result<Vec<u128>, WordsError>
    ensures ok { IfOk result (λ ids. AreIds (texts_of (codes "forget") (rows_of (found_of matches.now))) ids.items) }
    ensures usage { IsErrOf result WordsError.Usage
        → AreNoIds (texts_of (codes "forget") (rows_of (found_of matches.now))) }
{
    match matches.get_strs("forget") {
        Some(texts) => ids_from(alloc, texts),
        None => Ok(Vec::new(alloc)),
    }
}

fn ids_from(alloc: Global, texts: &[&str]) -> Result<Vec<u128>, WordsError>
    ensures ok { IfOk result (λ ids. AreIds (map (λ v. v.now) texts.now) ids.items) }
    ensures usage { IsErrOf result WordsError.Usage → AreNoIds (map (λ v. v.now) texts.now) }
{
    let mut ids = Vec::new(alloc);
    for text in texts {
        match id_from(text) {
            Some(id) => ids.push(id)?,
            None => return Err(WordsError::Usage),
        }
    }
    Ok(ids)
}

#[tactic(auto, unfolding(pull_messages::specs::Targets::agent_of))]
fn id_from(text: &str) -> Option<u128>
    ensures { result ≡ agent_of text.now }
{
    match text.parse::<Hyphenated>() {
        Ok(id) => Some(id.into_uuid().as_u128()),
        Err(_) => None,
    }
}

fn number_in(matches: &ArgMatches<'_>, name: &str) -> Result<Option<u32>, WordsError>
    ensures ok { IfOk result (IsNumber (first_of name.now (rows_of (found_of matches.now)))) }
    ensures usage { IsErrOf result WordsError.Usage
        → IsUnread (first_of name.now (rows_of (found_of matches.now))) }
{
    match text_in(matches, name) {
        Some(text) => match number_from(text) {
            Some(number) => Ok(Some(number)),
            None => Err(WordsError::Usage),
        },
        None => Ok(None),
    }
}

fn number_from(text: &str) -> Option<u32>
    ensures some { IfSome result (SpellsNumber text.now) }
    ensures none { IfNone result ((number : ℕ) → SpellsNumber text.now number → ⊥) }
{
    match text.parse::<u32>() {
        Ok(number) => Some(number),
        Err(_) => None,
    }
}

fn flag_in(matches: &ArgMatches<'_>, name: &str) -> bool
    ensures { IsFlag (first_of name.now (rows_of (found_of matches.now))) result }
{
    match text_in(matches, name) {
        Some("true") => true,
        _ => false,
    }
}

// The first value of the argument with this name.
fn text_in<'a>(matches: &ArgMatches<'a>, name: &str) -> Option<&'a str>
    ensures { option_map (λ s. s.now) result ≡ first_of name.now (rows_of (found_of matches.now)) }
{
    matches.get_str(name)
}
