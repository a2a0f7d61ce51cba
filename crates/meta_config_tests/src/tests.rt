//! What texts declare and are refused for, and that memory lasts for each size within the limits.
mod rows;

ghost use Rattle.meta_config.specs.Parts.{IsMeta};

use depend_order::OrderError;
use meta_config::*;
use mof_values::{Text, is_named};
use rows::{
    ACCEPTED, CANONICAL, DOWNLOAD, LIMITS, MODES, NAMED, ORDERS, PARTIAL, REFUSED, SETTING_ROWS,
    SETTINGS, SITES, SIZES, USUAL, WRITTEN,
};
use std::alloc::{AllocError, Global};
use std::test::Fail;

// What was read, in one line.
fn told(alloc: Global, read: &Result<Meta, MetaError>) -> Result<String, AllocError> {
    let mut line = String::new(alloc);
    match read {
        Ok(meta) => push_meta(&mut line, meta)?,
        Err(fault) => push_fault(&mut line, fault)?,
    }
    Ok(line)
}

fn push_meta(line: &mut String, meta: &Meta) -> Result<(), AllocError> {
    push_settings(line, meta)?;
    if let Some(server) = &meta.server {
        push_server(line, server)?;
    }
    line.push_str(if meta.pulls { " pulls" } else { "" })?;
    line.push_str(if meta.reports { " reports" } else { "" })?;
    push_list(line, " names", meta.names.as_slice())?;
    for partial in meta.partials.as_slice() {
        push_partial(line, partial)?;
    }
    Ok(())
}

fn push_pieces(line: &mut String, pieces: &[&str]) -> Result<(), AllocError> {
    for piece in pieces {
        line.push_str(piece)?;
    }
    Ok(())
}

// A switch, after a space.
fn switch(on: bool) -> &'static str {
    if on { " true" } else { " false" }
}

fn push_settings(line: &mut String, meta: &Meta) -> Result<(), AllocError> {
    push_pieces(line, &[meta.mode.name(), " ", meta.refresh.name()])?;
    push_pieces(
        line,
        &[switch(meta.reboot_if_needed), " ", meta.after.name()],
    )?;
    write!(line, " {} {}", meta.mode_mins, meta.refresh_mins)?;
    line.push_str(switch(meta.module_overwrite))
}

fn push_server(line: &mut String, server: &Server) -> Result<(), AllocError> {
    line.push_str(" server ")?;
    push_url(line, server)?;
    line.push_str(" key ")?;
    push_chars(line, server.key.as_slice())
}

fn push_url(line: &mut String, server: &Server) -> Result<(), AllocError> {
    line.push_str(if server.https { "https://" } else { "http://" })?;
    push_chars(line, server.peer.host.as_slice())?;
    write!(line, ":{}", server.peer.port)?;
    push_chars(line, server.prefix.as_slice())
}

fn push_partial(line: &mut String, partial: &Partial) -> Result<(), AllocError> {
    line.push_str(" partial ")?;
    push_chars(line, partial.name.as_slice())?;
    push_list(line, " depends", partial.depends.as_slice())?;
    push_list(line, " exclusive", partial.exclusive.as_slice())?;
    push_refresh(line, partial.refresh)
}

fn push_refresh(line: &mut String, refresh: Option<RefreshMode>) -> Result<(), AllocError> {
    match refresh {
        Some(mode) => push_pieces(line, &[" ", mode.name()]),
        None => Ok(()),
    }
}

fn push_list(line: &mut String, word: &str, texts: &[Text]) -> Result<(), AllocError> {
    line.push_str(if texts.is_empty() { "" } else { word })?;
    for text in texts {
        push_text(line, text)?;
    }
    Ok(())
}

fn push_text(line: &mut String, text: &Text) -> Result<(), AllocError> {
    line.push_str(" ")?;
    push_chars(line, text.as_slice())
}

fn push_chars(line: &mut String, chars: &[char]) -> Result<(), AllocError> {
    line.extend(chars.iter().copied())
}

// The word, the place or places, and the name of a fault.
fn push_fault(line: &mut String, fault: &MetaError) -> Result<(), AllocError> {
    line.push_str(fault_word(fault))?;
    let (first, second) = fault_places(fault);
    push_place(line, first)?;
    push_place(line, second)?;
    push_name(line, fault_name(fault))
}

fn push_place(line: &mut String, place: Option<u32>) -> Result<(), AllocError> {
    match place {
        Some(place) => write!(line, " {place}"),
        None => Ok(()),
    }
}

fn push_name(line: &mut String, name: &[char]) -> Result<(), AllocError> {
    line.push_str(if name.is_empty() { "" } else { " " })?;
    push_chars(line, name)
}

fn fault_word(fault: &MetaError) -> &'static str {
    match fault {
        MetaError::Mof(_) => "Mof",
        MetaError::NoMeta => "NoMeta",
        MetaError::TwoMetas { .. } => "TwoMetas",
        MetaError::TwoManagers { .. } => "TwoManagers",
        MetaError::BadUrl { .. } => "BadUrl",
        MetaError::TwoServers { .. } => "TwoServers",
        MetaError::BadValue { .. } => "BadValue",
        MetaError::TooMany { name } => limit_word(*name),
        MetaError::DuplicatePartial { .. } => "DuplicatePartial",
        MetaError::DependsUnknown { .. } => "DependsUnknown",
        MetaError::Memory => "Memory",
    }
}

fn limit_word(limit: Limit) -> &'static str {
    match limit {
        Limit::Partials => "TooMany Partials",
        Limit::Names => "TooMany Names",
        Limit::Text => "TooMany Text",
    }
}

fn fault_places(fault: &MetaError) -> (Option<u32>, Option<u32>) {
    match fault {
        MetaError::TwoMetas { first, second } => (Some(*first), Some(*second)),
        MetaError::TwoManagers { first, second } => (Some(*first), Some(*second)),
        MetaError::TwoServers { first, second } => (Some(*first), Some(*second)),
        MetaError::DuplicatePartial { first, second } => (Some(*first), Some(*second)),
        MetaError::BadUrl { index } => (Some(*index), None),
        MetaError::BadValue { index, .. } => (Some(*index), None),
        MetaError::DependsUnknown { index, .. } => (Some(*index), None),
        _ => (None, None),
    }
}

fn fault_name<'a>(fault: &'a MetaError) -> &'a [char] {
    match fault {
        MetaError::BadValue { name, .. } => name.as_slice(),
        MetaError::DependsUnknown { name, .. } => name.as_slice(),
        _ => &[],
    }
}

fn joined(alloc: Global, pieces: [&str; 3]) -> Result<String, AllocError> {
    let mut text = String::new(alloc);
    push_pieces(&mut text, &pieces)?;
    Ok(text)
}

// Returns whether the text of these pieces is read as the line of those.
fn reads_as(alloc: Global, pieces: [&str; 3], want: [&str; 3]) -> Result<bool, AllocError> {
    let text = joined(alloc, pieces)?;
    is_told(alloc, &read_meta(alloc, text.as_bytes()), want)
}

fn is_told(
    alloc: Global,
    read: &Result<Meta, MetaError>,
    want: [&str; 3],
) -> Result<bool, AllocError> {
    let line = told(alloc, read)?;
    let want = joined(alloc, want)?;
    Ok(line == want)
}

// A text of one character, between two pieces.
fn long_text(
    alloc: Global,
    front: &str,
    c: char,
    count: u32,
    back: &str,
) -> Result<String, AllocError> {
    let mut text = joined(alloc, [SETTINGS, front, ""])?;
    for _ in 0..count {
        text.push(c)?;
    }
    text.push_str(back)?;
    Ok(text)
}

// A download manager with that many names, and that many partial configurations with that many resources each.
fn sized_text(
    alloc: Global,
    names: u32,
    partials: u32,
    resources: u32,
) -> Result<String, AllocError> {
    let mut text = joined(alloc, [SETTINGS, DOWNLOAD, ""])?;
    push_numbers(&mut text, names)?;
    for place in 0..partials {
        write!(text, "{PARTIAL}P{place}\";ExclusiveResources={{")?;
        push_numbers(&mut text, resources)?;
    }
    Ok(text)
}

fn push_numbers(text: &mut String, count: u32) -> Result<(), AllocError> {
    for number in 0..count {
        text.push_str(if number == 0 { "" } else { "," })?;
        write!(text, "\"n{number}\"")?;
    }
    text.push_str("};};")
}

// Returns whether the text is refused with this word, or is read where there is none. What is read can be written, read
// again and ordered.
fn is_answered(alloc: Global, text: &str, word: &str) -> bool {
    match read_meta(alloc, text.as_bytes()) {
        Ok(meta) => word.is_empty() && is_written(alloc, &meta) && has_order(alloc, &meta),
        Err(fault) => fault_word(&fault) == word,
    }
}

fn is_written(alloc: Global, meta: &Meta) -> bool {
    match write_meta(alloc, meta) {
        Ok(bytes) => is_read(alloc, &bytes, meta),
        Err(_) => false,
    }
}

fn is_read(alloc: Global, bytes: &[u8], meta: &Meta) -> bool {
    let read = read_meta(alloc, bytes);
    match &read {
        Ok(again) => again == meta,
        Err(_) => false,
    }
}

fn has_order(alloc: Global, meta: &Meta) -> bool
    requires { IsMeta meta.now }
{
    match parts_order(alloc, meta) {
        Ok(order) => order.len() == meta.partials.as_slice().len(),
        Err(_error) => false,
    }
}

// Partial configurations by their names, with the references in the DependsOn of each.
fn parts_text(alloc: Global, rows: &[(&str, &str)]) -> Result<String, AllocError> {
    let mut text = joined(alloc, [SETTINGS, "", ""])?;
    for (name, depends) in rows {
        write!(text, "{PARTIAL}{name}\";DependsOn={{{depends}}};}};")?;
    }
    Ok(text)
}

// Returns whether the partial configurations of the text have this order, or this cycle.
fn is_ordered(alloc: Global, text: &str, cycle: bool, places: &[u32]) -> bool {
    match read_meta(alloc, text.as_bytes()) {
        Ok(meta) => orders_as(alloc, &meta, cycle, places),
        Err(_fault) => false,
    }
}

fn orders_as(alloc: Global, meta: &Meta, cycle: bool, places: &[u32]) -> bool
    requires { IsMeta meta.now }
{
    match parts_order(alloc, meta) {
        Ok(order) => !cycle && order.as_slice() == places,
        Err(OrderError::Cycle(walk)) => cycle && walk.as_slice() == places,
        Err(OrderError::Memory) => false,
    }
}

// Returns whether the name finds this partial configuration, of this mode, or none.
fn finds(meta: &Meta, name: &Text, wanted: Option<(&str, RefreshMode)>) -> bool {
    match (meta.partial_named(name), wanted) {
        (Some(partial), Some((own, mode))) => {
            is_named(partial.name.as_slice(), own)
                && partial.mode(meta) == mode
                && partial.is_pulled(meta) == (mode == RefreshMode::Pull)
        }
        (None, None) => true,
        _ => false,
    }
}

fn writes_as(alloc: Global, text: &str, want: &[u8]) -> bool {
    match read_meta(alloc, text.as_bytes()) {
        Ok(meta) => is_text(alloc, &meta, want),
        Err(_fault) => false,
    }
}

fn is_text(alloc: Global, meta: &Meta, want: &[u8]) -> bool {
    match write_meta(alloc, meta) {
        Ok(bytes) => bytes.as_slice() == want,
        Err(_) => false,
    }
}

fn sure(holds: bool) -> Result<(), Fail> {
    if holds {
        Ok(())
    } else {
        Err(Fail::from(AllocError))
    }
}

#[test]
fn each_setting_is_read_or_refused(rt: HostRuntime) -> Result<(), Fail> {
    for (text, want) in SETTING_ROWS {
        sure(reads_as(rt.alloc(), [*text, "", ""], [*want, "", ""])?)?;
    }
    Ok(())
}

// Each row is a URL, and the URL that is written, or nothing where it is refused.
#[test]
fn each_url_is_read_or_refused(rt: HostRuntime) -> Result<(), Fail> {
    for (text, want) in SITES {
        sure(reads_as(rt.alloc(), [SETTINGS, *text, ""], *want)?)?;
    }
    Ok(())
}

#[test]
fn managers_and_partial_configurations_are_read(rt: HostRuntime) -> Result<(), Fail> {
    for (text, want) in ACCEPTED {
        sure(reads_as(rt.alloc(), [SETTINGS, *text, ""], [USUAL, *want, ""])?)?;
    }
    Ok(())
}

#[test]
fn managers_and_partial_configurations_are_refused(rt: HostRuntime) -> Result<(), Fail> {
    for (text, want) in REFUSED {
        sure(reads_as(rt.alloc(), [SETTINGS, *text, ""], [*want, "", ""])?)?;
    }
    Ok(())
}

// Sizes at each limit, and one above.
#[test]
fn each_limit_is_kept(rt: HostRuntime) -> Result<(), Fail> {
    for (front, c, count, back, word) in LIMITS {
        let text = long_text(rt.alloc(), front, *c, *count, back)?;
        sure(is_answered(rt.alloc(), &text, word))?;
    }
    Ok(())
}

// Numbers of names, of partial configurations, and of the resources that each of them claims.
#[test]
fn memory_lasts_for_each_size(rt: HostRuntime) -> Result<(), Fail> {
    for (names, partials, resources, word) in SIZES {
        let text = sized_text(rt.alloc(), *names, *partials, *resources)?;
        sure(is_answered(rt.alloc(), &text, word))?;
    }
    Ok(())
}

#[test]
fn partial_configurations_are_ordered(rt: HostRuntime) -> Result<(), Fail> {
    for (rows, cycle, places) in ORDERS {
        let text = parts_text(rt.alloc(), rows)?;
        sure(is_ordered(rt.alloc(), &text, *cycle, places))?;
    }
    Ok(())
}

#[test]
fn partial_configurations_are_found_by_name(rt: HostRuntime) -> Result<(), Fail> {
    let Ok(meta) = read_meta(rt.alloc(), MODES.as_bytes()) else {
        return sure(false);
    };
    for (name, wanted) in NAMED {
        let name = Text::from_utf8(rt.alloc(), name)?;
        sure(finds(&meta, &name, *wanted))?;
    }
    Ok(())
}

#[test]
fn the_text_is_canonical(rt: HostRuntime) -> Result<(), Fail> {
    sure(writes_as(rt.alloc(), WRITTEN, CANONICAL.as_bytes()))
}
