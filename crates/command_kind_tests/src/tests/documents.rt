//! Documents written as lines: `C ID PROPERTIES` is a command, `E ID PROPERTIES` an environment variable; an ID is one letter.
ghost use Rattle.std.specs.Prelude.{◌≤◌, length, IfOk};
ghost use Rattle.dsc_document.specs.Dependencies.{HasDistinctIds, NamesResources};

use dsc_document::{Document, check};
use mof_codec::read;
use mof_values::Text;
use std::alloc::AllocError;
use std::test::Fail;

pub fn text(rt: &impl AllocGlobal, chars: &str) -> Result<Text, Fail> {
    Ok(Text::of(chars.chars().collect(rt.alloc())?))
}

fn push_instance(made: &mut String, line: &str) -> Result<(), AllocError> {
    let (kind, rest) = line.split_once(' ').unwrap_or((line, ""));
    let (id, properties) = rest.split_once(' ').unwrap_or((rest, ""));
    let class = match kind {
        "C" => "DSC_CommandResource",
        _ => "MSFT_EnvironmentResource",
    };
    write!(
        made,
        "instance of {class}{{ResourceID=\"[X]{id}\";{properties}}};"
    )
}

/// The document of these lines, of at most four resources.
pub fn document(rt: &impl AllocGlobal, lines: &str) -> Result<Document, Fail>
    ensures few { IfOk result (λ document. length document.resources ≤ 4) }
    ensures known { IfOk result NamesResources }
    ensures distinct { IfOk result HasDistinctIds }
{
    let mut made = String::new(rt.alloc());
    for line in lines.split('\n') {
        push_instance(&mut made, line)?;
    }
    made.push_str("instance of OMI_ConfigurationDocument{Version=\"2.0.0\";};")?;
    let instances = read(rt.alloc(), made.as_bytes())?;
    if instances.len() > 5 {
        return Err("too many resources".into());
    }
    Ok(check(rt.alloc(), instances)?)
}
