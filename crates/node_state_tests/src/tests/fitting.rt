//! Which documents fit a meta-configuration.
ghost use Rattle.std.specs.Prelude.{◌<◌, ◌^◌, IsTrue, length};

use super::text;
use dsc_document::{Document, Resource};
use meta_config::{Meta, Partial};
use mof_values::{Ident, Instance, Items, Text};
use node_state::{FitError, fits};
use std::test::Fail;

// Partial configurations by their names, each with what it claims and what it depends on, or nothing.
type Partials = &'static [(&'static str, &'static str, &'static str)];

// Parts by their names.
type Parts = &'static [&'static str];

// Resources by their parts and ids.
type Resources = &'static [(u32, &'static str)];

fn texts(rt: &impl AllocGlobal, words: &[&str]) -> Result<Items<Text>, Fail> {
    let mut texts = Vec::new(rt.alloc());
    for word in words {
        texts.push(text(rt, word)?)?;
    }
    Ok(Items::of(texts))
}

// The word as a list, or none.
fn some_text(rt: &impl AllocGlobal, word: &str) -> Result<Items<Text>, Fail> {
    let mut words = Vec::new(rt.alloc());
    if !word.is_empty() {
        words.push(text(rt, word)?)?;
    }
    Ok(Items::of(words))
}

fn partial(rt: &impl AllocGlobal, name: &str, claim: &str, depends: &str) -> Result<Partial, Fail> {
    Ok(Partial {
        name: text(rt, name)?,
        depends: some_text(rt, depends)?,
        exclusive: some_text(rt, claim)?,
        refresh: None,
    })
}

fn meta(rt: &impl AllocGlobal, declared: Partials) -> Result<Meta, Fail> {
    let mut partials = Vec::new(rt.alloc());
    for (name, claim, depends) in declared {
        partials.push(partial(rt, name, claim, depends)?)?;
    }
    Ok(Meta {
        partials: Items::of(partials),
        ..Meta::usual(rt.alloc())
    })
}

fn resource(rt: &impl AllocGlobal, part: u32, id: &str) -> Result<Resource, Fail> {
    Ok(Resource {
        id: text(rt, id)?,
        part,
        index: 0,
        instance: Instance {
            class: Ident::make(rt.alloc(), &text(rt, "A")?)?,
            alias: None,
            properties: Items::of(Vec::new(rt.alloc())),
        },
        depends: Items::of(Vec::new(rt.alloc())),
    })
}

fn document(rt: &impl AllocGlobal, parts: Parts, declared: Resources) -> Result<Document, Fail> {
    let mut resources = Vec::new(rt.alloc());
    for (part, id) in declared {
        resources.push(resource(rt, *part, id)?)?;
    }
    Ok(Document {
        version: Text::of(Vec::new(rt.alloc())),
        resources: Items::of(resources),
        others: Items::of(Vec::new(rt.alloc())),
        parts: texts(rt, parts)?,
    })
}

fn is_countable(meta: &Meta, document: &Document) -> bool
    ensures partials { IsTrue result → length meta.now.partials < 2 ^ 32 }
    ensures parts { IsTrue result → length document.now.parts < 2 ^ 32 }
    ensures resources { IsTrue result → length document.now.resources < 2 ^ 32 }
{
    meta.partials.as_slice().len() < 100
        && document.parts.as_slice().len() < 100
        && document.resources.as_slice().len() < 100
}

// Why the document does not fit.
fn misfit(
    rt: &impl AllocGlobal,
    partials: Partials,
    parts: Parts,
    resources: Resources,
) -> Result<Option<FitError>, Fail> {
    let meta = meta(rt, partials)?;
    let document = document(rt, parts, resources)?;
    if !is_countable(&meta, &document) {
        return Ok(None);
    }
    Ok(fits(&meta, &document).err())
}

const BOTH: Partials = &[("Base", "", ""), ("App", "", "")];

const FILES: Partials = &[
    ("Base", "PSDesiredStateConfiguration\\File", ""),
    ("App", "", ""),
];

// App depends on Base.
const DEPENDENT: Partials = &[("Base", "File", ""), ("App", "", "base")];

// Each depends on the one before it.
const CHAIN: Partials = &[("A", "", ""), ("B", "", "A"), ("C", "", "B")];

fn rows() -> [(Partials, Parts, Resources, Option<FitError>); 17] {
    let missing = FitError::MissingPart { partial: 0 };
    let taken = FitError::ExclusiveTaken {
        part: 1,
        resource: 0,
    };
    [
        (&[], &["Any"], &[(0, "[File]X")], None),
        (
            &[],
            &["A", "B"],
            &[],
            Some(FitError::PartCount { found: 2 }),
        ),
        (BOTH, &["Base"], &[], None),
        (DEPENDENT, &["App"], &[], Some(missing)),
        (DEPENDENT, &["Base"], &[], None),
        (DEPENDENT, &["APP"], &[(0, "[File]X")], Some(missing)),
        (
            CHAIN,
            &["C"],
            &[],
            Some(FitError::MissingPart { partial: 1 }),
        ),
        (
            DEPENDENT,
            &["Other", "App"],
            &[],
            Some(FitError::StrangePart { part: 0 }),
        ),
        (
            BOTH,
            &["Base", "App", "Other"],
            &[],
            Some(FitError::StrangePart { part: 2 }),
        ),
        (BOTH, &["app", "BASE"], &[(0, "[File]X")], None),
        (FILES, &["Base", "App"], &[(1, "[file]X")], Some(taken)),
        (FILES, &["Base", "App"], &[(0, "[File]X")], None),
        (
            FILES,
            &["Base", "App"],
            &[(1, "[Files]X"), (1, "[PSDesiredStateConfiguration\\File]X")],
            None,
        ),
        (
            FILES,
            &["App", "Base"],
            &[(1, "[File]X"), (0, "[File]Y")],
            Some(FitError::ExclusiveTaken {
                part: 0,
                resource: 1,
            }),
        ),
        (
            &[("Base", "file", ""), ("App", "", "")],
            &["Base", "App"],
            &[(1, "[FILE]X]")],
            Some(taken),
        ),
        (
            &[("Base", "A\\B\\File", ""), ("App", "", "")],
            &["Base", "App"],
            &[(1, "[File]X")],
            Some(taken),
        ),
        (
            &[("Base", "File\\", ""), ("App", "", "")],
            &["Base", "App"],
            &[(1, "[File]X")],
            None,
        ),
    ]
}

#[test]
fn documents_fit_or_the_first_reason_is_told(rt: HostRuntime) -> Result<(), Fail> {
    for (partials, parts, resources, wanted) in rows() {
        let found = misfit(&rt, partials, parts, resources)?;
        assert!(rt; found == wanted, "{parts:?} {resources:?} {found:?}");
    }
    Ok(())
}
