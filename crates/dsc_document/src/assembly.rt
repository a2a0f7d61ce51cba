//! The document of instances that keep the rules.
ghost use Rattle.std.specs.Prelude.{◌≡◌, ◌<◌, ◌^◌, [], ◌∷◌, ◌++◌, IfOk, OnOk, filter, find, option_copied, option_to_list, vec_len};
ghost use Rattle.std.specs.Option.{option_map_or};
ghost use Rattle.dsc_document.specs.Declarations.{is_header, is_other, version_of};
ghost use Rattle.dsc_document.specs.Rules.{document_of, resource_at};

use crate::declarations::{id_of, id_value, is_header, version_of};
use crate::depends::depends_of;
use crate::{Document, Resource};
use mof_values::{Instance, Items, Text};
use std::alloc::{AllocError, Global};

pub fn document_of(alloc: Global, instances: Vec<Instance>) -> Result<Document, AllocError>
    requires { vec_len instances < 2 ^ 32 }
    ensures { IfOk result (λ document. document ≡ document_of instances.items) }
{
    let version = version(alloc, &instances)?;
    let mut resources = Vec::new(alloc);
    let mut others = Vec::new(alloc);
    for (index, instance) in instances.into_iter().enumerate() {
        put(alloc, index as u32, instance, &mut resources, &mut others)?;
    }
    Ok(Document {
        version,
        resources: Items::of(resources),
        others: Items::of(others),
        parts: Items::of(vec![in alloc; Text::of(Vec::new(alloc))]?),
    })
}

// Puts an instance where it belongs; a header belongs nowhere.
fn put(
    alloc: Global,
    index: u32,
    instance: Instance,
    resources: &mut Vec<Resource>,
    others: &mut Vec<Instance>,
) -> Result<(), AllocError>
    ensures resources { OnOk result
        (resources.new.items ≡ resources.old.items ++ option_to_list (resource_at (index, instance))) }
    ensures others { OnOk result
        (others.new.items ≡ others.old.items ++ filter is_other (instance ∷ [])) }
{
    if let Some(id) = id_of(&instance) {
        let id = id.clone()?;
        let depends = depends_of(alloc, &instance)?;
        resources.push(Resource {
            id,
            part: 0,
            index,
            instance,
            depends: Items::of(depends),
        })?;
        return Ok(());
    }
    if !is_header(&instance) && id_value(&instance).is_none() {
        others.push(instance)?;
    }
    Ok(())
}

fn version(alloc: Global, instances: &[Instance]) -> Result<Text, AllocError>
    ensures { IfOk result (λ version. version ≡ option_map_or version_of (find is_header instances.now) []) }
{
    match find_header(instances) {
        Some(header) => version_of(alloc, header),
        None => Ok(Text::of(Vec::new(alloc))),
    }
}

fn find_header<'a>(instances: &'a [Instance]) -> Option<&'a Instance>
    ensures { option_copied result ≡ find is_header instances.now }
{
    instances.iter().find(|i| is_header(*i))
}
