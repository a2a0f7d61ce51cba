//! Packages that resources name.
use super::made::Answer::{Given, Told};
use super::made::{link, meta, parts};
use super::pulling::outcome_over;
use dsc_outside::Package;
use memory_outside::MemoryHost;
use mof_values::Memory;
use resource_kinds::Kinds;
use std::alloc::Global;

const META: &str =
    "instance of MSFT_WebDownloadManager{ServerURL=\"http://pull/\";ConfigurationNames={\"Web\"};};instance of MSFT_DSCMetaConfiguration{RefreshMode=\"Pull\";};";

// Two resources of one module, one of the module that every machine has, and one of a version that is no text.
const DOCUMENT: &str =
    "instance of MSFT_LogResource{ResourceID=\"[Log]A\";Message=\"a\";ModuleName=\"xWeb\";ModuleVersion=\"1.0\";};instance of MSFT_LogResource{ResourceID=\"[Log]B\";Message=\"b\";ModuleName=\"xWeb\";ModuleVersion=\"1.0\";};instance of MSFT_LogResource{ResourceID=\"[Log]C\";Message=\"c\";ModuleName=\"psdesiredstateconfiguration\";ModuleVersion=\"1.1\";};instance of MSFT_LogResource{ResourceID=\"[Log]D\";Message=\"d\";ModuleName=\"xNet\";ModuleVersion=1;};instance of MSFT_LogResource{ResourceID=\"[Log]E\";Message=\"e\";ModuleName=\"xNet\";ModuleVersion=\"\";};instance of OMI_ConfigurationDocument{Version=\"2.0.0\";};";

const FETCH: &str = "{\"NodeStatus\":\"GetConfiguration\",\"Details\":[]}";

// A pull, and another one that brings nothing: the package is asked for once.
fn two_pulls(alloc: Global) -> Result<bool, Memory> {
    let meta = meta(alloc, META)?;
    let none = Vec::new(alloc);
    let held = parts(alloc, &[("Web", DOCUMENT)])?;
    let answers = [
        Told(FETCH),
        Given(DOCUMENT),
        Given("package"),
        Told(FETCH),
        Given(DOCUMENT),
    ];
    let mut link = link(alloc, &answers, &[])?;
    let mut machine = Kinds::new(alloc, MemoryHost::new(Vec::new(alloc), Vec::new(alloc)));
    let first = outcome_over(alloc, &mut link, &mut machine, &meta, &none)?;
    let exchanges = link.exchanges().len();
    let again = outcome_over(alloc, &mut link, &mut machine, &meta, &held)?;
    Ok(
        first.as_str() == "Web;"
            && exchanges == 3
            && again.as_str() == "nothing"
            && link.exchanges().len() == 5
            && is_package(&machine.host().contents().packages),
    )
}

fn is_package(packages: &[Package]) -> bool {
    match packages {
        [only] => {
            only.name.as_slice() == b"xWeb".as_slice()
                && only.version.as_slice() == b"1.0".as_slice()
                && only.bytes.as_slice() == b"package".as_slice()
        }
        _ => false,
    }
}

#[test]
fn a_package_is_asked_for_once(rt: HostRuntime) {
    assert!(rt; matches!(two_pulls(rt.alloc()), Ok(true)));
}
