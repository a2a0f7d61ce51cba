//! Pushes of parts, and the lists that they come to.
ghost use Rattle.std.specs.Prelude.{IsTrue};
ghost use Rattle.meta_config.specs.Parts.{IsMeta, IsPartName};
ghost use Rattle.node_state.specs.Metas.{IsNodeMeta};

use super::made::{Held, meta, part, parts};
use super::pulling::names_of;
use meta_config::{Meta, parts_order};
use mof_values::{Memory, Text, same_text};
use node_pull::lay_push;
use partial_merge::Part;
use std::alloc::{AllocError, Global};

const DECLARED: &str =
    "instance of MSFT_DSCMetaConfiguration{RefreshMode=\"Push\";};instance of MSFT_PartialConfiguration{ResourceID=\"[PartialConfiguration]App\";DependsOn={\"[PartialConfiguration]Base\"};};instance of MSFT_PartialConfiguration{ResourceID=\"[PartialConfiguration]Base\";};instance of MSFT_PartialConfiguration{ResourceID=\"[PartialConfiguration]More\";};";

const A: &str =
    "instance of MSFT_LogResource{ResourceID=\"[Log]A\";Message=\"a\";};instance of OMI_ConfigurationDocument{Version=\"2.0.0\";};";

const B: &str =
    "instance of MSFT_LogResource{ResourceID=\"[Log]B\";Message=\"b\";};instance of OMI_ConfigurationDocument{Version=\"2.0.0\";};";

const C: &str =
    "instance of MSFT_LogResource{ResourceID=\"[Log]C\";Message=\"c\";};instance of OMI_ConfigurationDocument{Version=\"2.0.0\";};";

// The parts that are held, the part that is pushed, and what comes of it: the names of the list, or the error as `Debug` writes it.
type Row = (&'static [Held], Held, &'static str);

const PUSHES: &[Row] = &[
    (&[], ("Base", B), "Base;"),
    (&[("Base", B)], ("App", A), "Base;App;"),
    // The pushed part is in the place of the one that is held, and the others keep their spelling.
    (
        &[("MORE", C), ("app", C), ("base", B)],
        ("App", A),
        "base;App;MORE;",
    ),
    // A part that is no partial configuration is dropped.
    (&[("Old", C), ("Base", B)], ("More", A), "Base;More;"),
    (&[], ("App", A), "Fit(MissingPart { partial: 1 })"),
    (
        &[("Base", A)],
        ("App", A),
        "Merge(DuplicateId { first: Spot { part: 0, index: 0 }, second: Spot { part: 1, index: 0 } })",
    ),
];

fn comes_to(alloc: Global, row: &Row) -> bool {
    let (held, (name, content), wanted) = *row;
    match outcome(alloc, held, name, content) {
        Ok(text) => text.as_str() == wanted,
        Err(_) => false,
    }
}

fn outcome(alloc: Global, held: &[Held], name: &str, content: &str) -> Result<String, Memory> {
    let meta = meta(alloc, DECLARED)?;
    let held = parts(alloc, held)?;
    let part = part(alloc, name, content)?;
    Ok(outcome_of(alloc, &meta, part, &held)?)
}

fn outcome_of(alloc: Global, meta: &Meta, part: Part, held: &[Part]) -> Result<String, AllocError>
    requires { IsMeta meta.now }
{
    if !is_declared(meta, &part.name) {
        return String::from_str(alloc, "not declared");
    }
    match parts_order(alloc, meta) {
        Ok(_) => laid(alloc, meta, part, held),
        Err(_) => String::from_str(alloc, "no order"),
    }
}

fn is_declared(meta: &Meta, name: &Text) -> bool
    ensures { IsTrue result → IsPartName meta.now.partials name.now }
{
    meta.partials
        .as_slice()
        .iter()
        .any(|partial| same_text(name, &partial.name))
}

fn laid(alloc: Global, meta: &Meta, part: Part, held: &[Part]) -> Result<String, AllocError>
    requires meta { IsNodeMeta meta.now }
    requires declared { IsPartName meta.now.partials part.name }
{
    match lay_push(alloc, meta, part, held) {
        Ok((staged, _)) => names_of(alloc, staged.parts()),
        Err(error) => format!(in alloc; "{error:?}"),
    }
}

#[test]
fn pushed_parts_are_laid_over_those_that_are_held(rt: HostRuntime) {
    for (number, row) in PUSHES.iter().enumerate() {
        assert!(rt; comes_to(rt.alloc(), row), "{number}");
    }
}
