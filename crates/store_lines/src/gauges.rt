//! The gauges of stores, for Prometheus.
ghost use Rattle.std.specs.Prelude.{◌≡◌, ◌++◌, IfOk, OnOk, encode_utf8_all, string_bytes};
ghost use Rattle.std.specs.List.{flat_map};
ghost use Rattle.store_lines.specs.Gauges.{agents_family, class_label, class_samples, escaped, family, family_head, gauge_name, gauges_text, help_of, label_value, number_of, sample, sample_of, sample_where, samples, stale_family, unread_value, value_of};

use crate::standing::{Standing, StoreStandings, count_of_class, count_of_stale};
use crate::told::{class_word, is_shown};
use agent_class::Class;
use itoa::Buffer;
use mof_values::{Items, Memory, Text};
use pull_store::MAX_ROWS;
use std::alloc::{AllocError, Global};

/// What is measured of a store.
#[derive(Clone, Copy, Debug, PartialEq, Eq)]
pub enum Gauge {
    /// How many agents of a class it has.
    Agents(Class),

    /// How many of them are stale.
    Stale,

    /// How many agents it has.
    Taken,

    /// How many more it takes.
    Free,

    /// Whether it was read.
    Read,
}

/// The gauges of these stores in the text format of Prometheus: agents by class, of these classes where some are given; those that are
/// stale, where that is asked; places that are taken and free; and whether the store was read.
#[tactic(auto, unfolding(crate::specs::Gauges::gauges_text))]
pub fn gauges_text(
    alloc: Global,
    classes: &[Class],
    is_stale_asked: bool,
    stores: &[StoreStandings],
) -> Result<Vec<u8>, Memory>
    ensures { IfOk result (λ text. text.items ≡ gauges_text classes.now is_stale_asked stores.now) }
{
    let mut text = Vec::new(alloc);
    push_agents(&mut text, alloc, classes, stores)?;
    push_stale(&mut text, alloc, is_stale_asked, stores)?;
    push_family(&mut text, alloc, Gauge::Taken, stores)?;
    push_family(&mut text, alloc, Gauge::Free, stores)?;
    push_family(&mut text, alloc, Gauge::Read, stores)?;
    Ok(text)
}

#[tactic(auto, unfolding(crate::specs::Gauges::agents_family))]
fn push_agents(
    text: &mut Vec<u8>,
    alloc: Global,
    classes: &[Class],
    stores: &[StoreStandings],
) -> Result<(), AllocError>
    ensures { OnOk result (text.new.items ≡ text.old.items ++ agents_family classes.now stores.now) }
{
    push_head(text, Gauge::Agents(Class::Compliant))?;
    push_class(text, alloc, classes, Class::Compliant, stores)?;
    push_class(text, alloc, classes, Class::Failed, stores)?;
    push_class(text, alloc, classes, Class::Silent, stores)?;
    push_class(text, alloc, classes, Class::Other, stores)?;
    Ok(())
}

fn push_class(
    text: &mut Vec<u8>,
    alloc: Global,
    classes: &[Class],
    class: Class,
    stores: &[StoreStandings],
) -> Result<(), AllocError>
    ensures { OnOk result (text.new.items ≡ text.old.items ++ class_samples classes.now class stores.now) }
{
    if is_shown(classes, class) {
        push_samples(text, alloc, Gauge::Agents(class), stores)
    } else {
        Ok(())
    }
}

fn push_stale(
    text: &mut Vec<u8>,
    alloc: Global,
    is_asked: bool,
    stores: &[StoreStandings],
) -> Result<(), AllocError>
    ensures { OnOk result (text.new.items ≡ text.old.items ++ stale_family is_asked stores.now) }
{
    if is_asked {
        push_family(text, alloc, Gauge::Stale, stores)
    } else {
        Ok(())
    }
}

#[tactic(auto, unfolding(crate::specs::Gauges::family))]
fn push_family(
    text: &mut Vec<u8>,
    alloc: Global,
    gauge: Gauge,
    stores: &[StoreStandings],
) -> Result<(), AllocError>
    ensures { OnOk result (text.new.items ≡ text.old.items ++ family gauge stores.now) }
{
    push_head(text, gauge)?;
    push_samples(text, alloc, gauge, stores)?;
    Ok(())
}

#[tactic(auto, unfolding(crate::specs::Gauges::family_head))]
fn push_head(text: &mut Vec<u8>, gauge: Gauge) -> Result<(), AllocError>
    ensures { OnOk result (text.new.items ≡ text.old.items ++ family_head gauge) }
{
    text.extend_from_slice(b"# HELP ")?;
    text.extend_from_slice(gauge_name(gauge).as_bytes())?;
    text.extend_from_slice(b" ")?;
    text.extend_from_slice(help_of(gauge).as_bytes())?;
    text.extend_from_slice(b"\n# TYPE ")?;
    text.extend_from_slice(gauge_name(gauge).as_bytes())?;
    text.extend_from_slice(b" gauge\n")
}

fn gauge_name(gauge: Gauge) -> &'static str
    ensures { result.now ≡ gauge_name gauge }
{
    match gauge {
        Gauge::Agents(_) => "nimchout_fleet_agents",
        Gauge::Stale => "nimchout_fleet_stale_agents",
        Gauge::Taken => "nimchout_fleet_places_taken",
        Gauge::Free => "nimchout_fleet_places_free",
        Gauge::Read => "nimchout_fleet_store_read",
    }
}

fn help_of(gauge: Gauge) -> &'static str
    ensures { result.now ≡ help_of gauge }
{
    match gauge {
        Gauge::Agents(_) => "Agents of a store by the class of their last report.",
        Gauge::Stale =>
            "Agents of a store whose last report does not say that it ended within the hours given.",
        Gauge::Taken => "Agents that a store has.",
        Gauge::Free => "Further agents that a store takes.",
        Gauge::Read => "1 where the store was read, 0 where it was not.",
    }
}

#[tactic(auto, using(std::proofs::lemmas::List::flat_map_more))]
fn push_samples(
    text: &mut Vec<u8>,
    alloc: Global,
    gauge: Gauge,
    stores: &[StoreStandings],
) -> Result<(), AllocError>
    ensures { OnOk result (text.new.items ≡ text.old.items ++ samples gauge stores.now) }
{
    for store in stores {
        push_sample_of(text, alloc, gauge, store)?;
    }
    Ok(())
}

fn push_sample_of(
    text: &mut Vec<u8>,
    alloc: Global,
    gauge: Gauge,
    store: &StoreStandings,
) -> Result<(), AllocError>
    ensures { OnOk result (text.new.items ≡ text.old.items ++ sample_of gauge store.now) }
{
    match value_of(gauge, &store.standings) {
        Some(value) => push_sample(text, alloc, gauge, &store.path, value),
        None => Ok(()),
    }
}

#[tactic(auto, unfolding(crate::specs::Gauges::sample))]
fn push_sample(
    text: &mut Vec<u8>,
    alloc: Global,
    gauge: Gauge,
    store: &Text,
    value: usize,
) -> Result<(), AllocError>
    ensures { OnOk result (text.new.items ≡ text.old.items ++ sample gauge store.now value) }
{
    let mut digits = Buffer::new();
    text.extend_from_slice(gauge_name(gauge).as_bytes())?;
    text.extend_from_slice(b"{store=\"")?;
    push_label_value(text, alloc, store)?;
    text.extend_from_slice(b"\"")?;
    push_class_label(text, gauge)?;
    text.extend_from_slice(b"} ")?;
    text.extend_from_slice(digits.format(value as u64).as_bytes())?;
    text.extend_from_slice(b"\n")
}

fn push_class_label(text: &mut Vec<u8>, gauge: Gauge) -> Result<(), AllocError>
    ensures { OnOk result (text.new.items ≡ text.old.items ++ class_label gauge) }
{
    match gauge {
        Gauge::Agents(class) => {
            text.extend_from_slice(b",class=\"")?;
            text.extend_from_slice(class_word(class).as_bytes())?;
            text.extend_from_slice(b"\"")
        }
        Gauge::Stale | Gauge::Taken | Gauge::Free | Gauge::Read => Ok(()),
    }
}

#[tactic(auto, unfolding(crate::specs::Gauges::label_value))]
fn push_label_value(text: &mut Vec<u8>, alloc: Global, label: &Text) -> Result<(), AllocError>
    ensures { OnOk result (text.new.items ≡ text.old.items ++ label_value label.now) }
{
    let written = Text::of(escaped_chars(alloc, label.as_slice())?).to_utf8()?;
    text.extend_from_slice(written.as_bytes())
}

#[tactic(auto, using(std::proofs::lemmas::List::flat_map_more))]
fn escaped_chars(alloc: Global, chars: &[char]) -> Result<Vec<char>, AllocError>
    ensures { IfOk result (λ written. written.items ≡ flat_map escaped chars.now) }
{
    let mut written = Vec::new(alloc);
    for c in chars {
        push_escaped(&mut written, *c)?;
    }
    Ok(written)
}

fn push_escaped(chars: &mut Vec<char>, c: char) -> Result<(), AllocError>
    ensures { OnOk result (chars.new.items ≡ chars.old.items ++ escaped c) }
{
    match c {
        '\\' => chars.extend_from_slice(&['\\', '\\']),
        '"' => chars.extend_from_slice(&['\\', '"']),
        '\n' => chars.extend_from_slice(&['\\', 'n']),
        _ => chars.extend_from_slice(&[c]),
    }
}

// The value of a gauge; none where a store was not read and it is not known.
fn value_of(gauge: Gauge, standings: &Option<Items<Standing>>) -> Option<usize>
    ensures { result ≡ value_of gauge standings.now }
{
    match standings {
        Some(standings) => Some(number_of(gauge, standings.as_slice())),
        None => unread_value(gauge),
    }
}

fn unread_value(gauge: Gauge) -> Option<usize>
    ensures { result ≡ unread_value gauge }
{
    match gauge {
        Gauge::Read => Some(0),
        Gauge::Agents(_) | Gauge::Stale | Gauge::Taken | Gauge::Free => None,
    }
}

fn number_of(gauge: Gauge, standings: &[Standing]) -> usize
    ensures { result ≡ number_of gauge standings.now }
{
    match gauge {
        Gauge::Agents(class) => count_of_class(standings, class),
        Gauge::Stale => count_of_stale(standings),
        Gauge::Taken => standings.len(),
        Gauge::Free => MAX_ROWS.saturating_sub(standings.len()),
        Gauge::Read => 1,
    }
}
