//! The refusals of instances, one by one.
ghost use Rattle.std.specs.Prelude.{◌≡◌, ◌<◌, ◌+◌, ◌^◌, IfOk, IfSome, count_by, drop, find, length, not};
ghost use Rattle.std.specs.List.{list_any, position_from};
ghost use Rattle.std.specs.Option.{option_copied};
ghost use Rattle.meta_config.specs.Making.{depends_of};
ghost use Rattle.meta_config.specs.Refusals.{Answers, bad_url, bad_value, depends_unknown, duplicate_from, duplicate_partial, earlier_of, first_found, first_two, has_bad_url, has_other_site, is_partial_named, no_meta, manager_site, too_many_names, too_many_partials, two_managers, two_metas, two_servers, unknown_in};
ghost use Rattle.meta_config.specs.Tables.{is_of, wrong_in};

use crate::limits::{MAX_NAMES, MAX_PARTIALS};
use crate::making::{has, names_of, site_given};
use crate::partials::{depends_of, partial_name};
use crate::tables::{Class, is_manager, is_of, wrong_in};
use crate::urls::same_site;
use crate::{Limit, MetaError, Site};
use mof_values::{Ident, Instance, Text, folds_equal};
use std::alloc::{AllocError, Global};

/// There is a MSFT_DSCMetaConfiguration.
#[tactic(auto, unfolding(crate::specs::Refusals::no_meta))]
pub fn check_meta(instances: &[Instance]) -> Result<(), MetaError>
    ensures { Answers (no_meta instances.now) result }
{
    if has(Class::Settings, instances) {
        Ok(())
    } else {
        Err(MetaError::NoMeta)
    }
}

/// There are no two MSFT_DSCMetaConfiguration.
#[tactic(auto, unfolding(crate::specs::Refusals::two_metas))]
pub fn check_one_meta(instances: &[Instance]) -> Result<(), MetaError>
    requires { length instances.now < 2 ^ 32 }
    ensures { Answers (two_metas instances.now) result }
{
    match first_two(Class::Settings, instances) {
        Some((first, second)) => Err(MetaError::TwoMetas { first, second }),
        None => Ok(()),
    }
}

/// There are no two managers of the class.
#[tactic(auto, unfolding(crate::specs::Refusals::two_managers))]
pub fn check_one_manager(class: Class, instances: &[Instance]) -> Result<(), MetaError>
    requires { length instances.now < 2 ^ 32 }
    ensures { Answers (two_managers class instances.now) result }
{
    match first_two(class, instances) {
        Some((first, second)) => Err(MetaError::TwoManagers { first, second }),
        None => Ok(()),
    }
}

// The first two places of instances of the class.
fn first_two(class: Class, instances: &[Instance]) -> Option<(u32, u32)>
    requires { length instances.now < 2 ^ 32 }
    ensures { result ≡ first_two (is_of class) instances.now }
{
    let first = place_from(class, instances, 0)?;
    let second = place_from(class, after(instances, first), first + 1)?;
    Some((first, second))
}

// The place of the first instance of the class, where the first of the instances has the place `from`.
fn place_from(class: Class, instances: &[Instance], from: u32) -> Option<u32>
    requires { from + length instances.now < 2 ^ 32 }
    ensures place { result ≡ position_from (is_of class) from instances.now }
    ensures within { IfSome result (λ place. place < from + length instances.now) }
{
    let (mut place, mut left) = (from, instances);
    while let [instance, rest @ ..] = left {
        if is_of(class, instance) {
            return Some(place);
        }
        (place, left) = (place + 1, rest);
    }
    None
}

// The instances after a place.
fn after(instances: &[Instance], place: u32) -> &[Instance]
    requires { place < length instances.now }
    ensures { result.now ≡ drop (place + 1) instances.now }
{
    instances.split_at(place as usize + 1).1
}

/// The ServerURL of each manager names a site.
#[tactic(auto, unfolding(crate::specs::Refusals::bad_url))]
pub fn check_urls(alloc: Global, instances: &[Instance]) -> Result<(), MetaError>
    requires { length instances.now < 2 ^ 32 }
    ensures { Answers (bad_url instances.now) result }
{
    match first_bad_url(alloc, instances)? {
        Some(index) => Err(MetaError::BadUrl { index }),
        None => Ok(()),
    }
}

fn first_bad_url(alloc: Global, instances: &[Instance]) -> Result<Option<u32>, AllocError>
    requires { length instances.now < 2 ^ 32 }
    ensures { IfOk result (λ place. place ≡ position_from has_bad_url 0 instances.now) }
{
    let (mut place, mut left): (u32, &[Instance]) = (0, instances);
    while let [instance, rest @ ..] = left {
        if has_bad_url(alloc, instance)? {
            return Ok(Some(place));
        }
        (place, left) = (place + 1, rest);
    }
    Ok(None)
}

fn has_bad_url(alloc: Global, instance: &Instance) -> Result<bool, AllocError>
    ensures { IfOk result (λ bad. bad ≡ has_bad_url instance.now) }
{
    if !is_manager(instance) {
        return Ok(false);
    }
    let site = site_given(alloc, instance.properties.as_slice())?;
    Ok(site.is_none())
}

/// All managers name one server.
#[tactic(auto, unfolding(crate::specs::Refusals::two_servers))]
pub fn check_one_server(alloc: Global, instances: &[Instance]) -> Result<(), MetaError>
    requires { length instances.now < 2 ^ 32 }
    ensures { Answers (two_servers instances.now) result }
{
    let Some((first, site)) = first_site(alloc, instances)? else {
        return Ok(());
    };
    match other_site_from(alloc, &site, after(instances, first), first + 1)? {
        Some(second) => Err(MetaError::TwoServers { first, second }),
        None => Ok(()),
    }
}

// The first manager whose ServerURL names a site, and the site.
fn first_site(alloc: Global, instances: &[Instance]) -> Result<Option<(u32, Site)>, AllocError>
    requires { length instances.now < 2 ^ 32 }
    ensures found { IfOk result (λ found. found ≡ first_found manager_site 0 instances.now) }
    ensures within { IfOk result (λ found. IfSome found (λ p. p.0 < length instances.now)) }
{
    let (mut place, mut left): (u32, &[Instance]) = (0, instances);
    while let [instance, rest @ ..] = left {
        if let Some(site) = manager_site(alloc, instance)? {
            return Ok(Some((place, site)));
        }
        (place, left) = (place + 1, rest);
    }
    Ok(None)
}

fn manager_site(alloc: Global, instance: &Instance) -> Result<Option<Site>, AllocError>
    ensures { IfOk result (λ site. site ≡ manager_site instance.now) }
{
    if is_manager(instance) {
        site_given(alloc, instance.properties.as_slice())
    } else {
        Ok(None)
    }
}

// The first manager that names another site, where the first of the instances has the place `from`.
fn other_site_from(
    alloc: Global,
    site: &Site,
    instances: &[Instance],
    from: u32,
) -> Result<Option<u32>, AllocError>
    requires { from + length instances.now < 2 ^ 32 }
    ensures { IfOk result (λ place.
        place ≡ position_from (has_other_site site.now) from instances.now) }
{
    let (mut place, mut left) = (from, instances);
    while let [instance, rest @ ..] = left {
        if has_other_site(alloc, site, instance)? {
            return Ok(Some(place));
        }
        (place, left) = (place + 1, rest);
    }
    Ok(None)
}

fn has_other_site(alloc: Global, site: &Site, instance: &Instance) -> Result<bool, AllocError>
    ensures { IfOk result (λ other. other ≡ has_other_site site.now instance.now) }
{
    match manager_site(alloc, instance)? {
        Some(other) => Ok(!same_site(site, &other)),
        None => Ok(false),
    }
}

/// Each property of a table has a value that may stand there, and stands once.
#[tactic(auto, unfolding(crate::specs::Refusals::bad_value))]
pub fn check_values(alloc: Global, instances: &[Instance]) -> Result<(), MetaError>
    requires { length instances.now < 2 ^ 32 }
    ensures { Answers (bad_value instances.now) result }
{
    match first_wrong(alloc, instances)? {
        Some((index, name)) => Err(MetaError::BadValue { index, name }),
        None => Ok(()),
    }
}

fn first_wrong(alloc: Global, instances: &[Instance]) -> Result<Option<(u32, Ident)>, AllocError>
    requires { length instances.now < 2 ^ 32 }
    ensures { IfOk result (λ found. found ≡ first_found wrong_in 0 instances.now) }
{
    let (mut place, mut left): (u32, &[Instance]) = (0, instances);
    while let [instance, rest @ ..] = left {
        if let Some(name) = wrong_in(alloc, instance)? {
            return Ok(Some((place, name)));
        }
        (place, left) = (place + 1, rest);
    }
    Ok(None)
}

/// There are at most `MAX_PARTIALS` partial configurations.
#[tactic(auto, unfolding(crate::specs::Refusals::too_many_partials))]
pub fn check_partials_count(instances: &[Instance]) -> Result<(), MetaError>
    ensures { Answers (too_many_partials instances.now) result }
{
    if partials_count(instances) <= MAX_PARTIALS {
        Ok(())
    } else {
        Err(MetaError::TooMany {
            name: Limit::Partials,
        })
    }
}

fn partials_count(instances: &[Instance]) -> usize
    ensures { result ≡ count_by (is_of Class.Partial) instances.now }
{
    let (mut count, mut left): (usize, &[Instance]) = (0, instances);
    while let [instance, rest @ ..] = left {
        if is_of(Class::Partial, instance) {
            count += 1;
        }
        left = rest;
    }
    count
}

/// There are at most `MAX_NAMES` names.
#[tactic(auto, unfolding(crate::specs::Refusals::too_many_names))]
pub fn check_names_count(alloc: Global, instances: &[Instance]) -> Result<(), MetaError>
    ensures { Answers (too_many_names instances.now) result }
{
    if names_of(alloc, instances)?.len() <= MAX_NAMES {
        Ok(())
    } else {
        Err(MetaError::TooMany { name: Limit::Names })
    }
}

/// No two partial configurations have the same name.
#[tactic(auto, unfolding(crate::specs::Refusals::duplicate_partial))]
pub fn check_partial_names(instances: &[Instance]) -> Result<(), MetaError>
    requires { length instances.now < 2 ^ 32 }
    ensures { Answers (duplicate_partial instances.now) result }
{
    match first_duplicate(instances) {
        Some((first, second)) => Err(MetaError::DuplicatePartial { first, second }),
        None => Ok(()),
    }
}

fn first_duplicate(instances: &[Instance]) -> Option<(u32, u32)>
    requires { length instances.now < 2 ^ 32 }
    ensures { result ≡ duplicate_from instances.now 0 instances.now }
{
    let (mut place, mut left): (u32, &[Instance]) = (0, instances);
    while let [instance, rest @ ..] = left {
        if let Some(first) = earlier_of(instances.split_at(place as usize).0, instance) {
            return Some((first, place));
        }
        (place, left) = (place + 1, rest);
    }
    None
}

// The first of the instances before that is a partial configuration of the name that this one has.
fn earlier_of(before: &[Instance], instance: &Instance) -> Option<u32>
    requires { length before.now < 2 ^ 32 }
    ensures { result ≡ earlier_of before.now instance.now }
{
    if is_of(Class::Partial, instance) {
        named_place(before, partial_name(instance.properties.as_slice()))
    } else {
        None
    }
}

fn named_place(instances: &[Instance], name: &[char]) -> Option<u32>
    requires { length instances.now < 2 ^ 32 }
    ensures { result ≡ position_from (is_partial_named name.now) 0 instances.now }
{
    let (mut place, mut left): (u32, &[Instance]) = (0, instances);
    while let [instance, rest @ ..] = left {
        if is_partial_named(instance, name) {
            return Some(place);
        }
        (place, left) = (place + 1, rest);
    }
    None
}

fn is_partial_named(instance: &Instance, name: &[char]) -> bool
    ensures { result ≡ is_partial_named name.now instance.now }
{
    is_of(Class::Partial, instance)
        && folds_equal(partial_name(instance.properties.as_slice()), name)
}

/// What a partial configuration depends on is one.
#[tactic(auto, unfolding(crate::specs::Refusals::depends_unknown))]
pub fn check_depends(alloc: Global, instances: &[Instance]) -> Result<(), MetaError>
    requires { length instances.now < 2 ^ 32 }
    ensures { Answers (depends_unknown instances.now) result }
{
    match first_unknown(alloc, instances)? {
        Some((index, name)) => Err(MetaError::DependsUnknown { index, name }),
        None => Ok(()),
    }
}

fn first_unknown(alloc: Global, instances: &[Instance]) -> Result<Option<(u32, Text)>, AllocError>
    requires { length instances.now < 2 ^ 32 }
    ensures { IfOk result (λ found.
        found ≡ first_found (unknown_in instances.now) 0 instances.now) }
{
    let (mut place, mut left): (u32, &[Instance]) = (0, instances);
    while let [instance, rest @ ..] = left {
        if let Some(name) = unknown_in(alloc, instances, instance)? {
            return Ok(Some((place, name)));
        }
        (place, left) = (place + 1, rest);
    }
    Ok(None)
}

// The first name that a partial configuration depends on and that none has.
fn unknown_in(
    alloc: Global,
    instances: &[Instance],
    instance: &Instance,
) -> Result<Option<Text>, AllocError>
    ensures { IfOk result (λ name. name ≡ unknown_in instances.now instance.now) }
{
    if !is_of(Class::Partial, instance) {
        return Ok(None);
    }
    let names = depends_of(alloc, instance.properties.as_slice())?;
    match first_unnamed(instances, &names) {
        Some(name) => Ok(Some(name.clone()?)),
        None => Ok(None),
    }
}

fn first_unnamed<'a>(instances: &[Instance], names: &'a [Text]) -> Option<&'a Text>
    ensures { option_copied result ≡
        find (λ name. not (list_any (is_partial_named name) instances.now)) names.now }
{
    let mut left = names;
    while let [name, rest @ ..] = left {
        if !is_named(instances, name) {
            return Some(name);
        }
        left = rest;
    }
    None
}

fn is_named(instances: &[Instance], name: &Text) -> bool
    ensures { result ≡ list_any (is_partial_named name.now) instances.now }
{
    instances
        .iter()
        .any(|i| is_partial_named(i, name.as_slice()))
}
