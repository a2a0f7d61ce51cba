//! A registration of a node: the names that it sends.
use super::made::Answer::Code;
use super::made::{AGENT, link, meta, text};
use mof_values::Memory;
use node_pull::register_node;
use std::alloc::Global;

// The names are the ConfigurationNames, and then that of the partial configuration that is not among them.
const META: &str =
    "instance of MSFT_WebDownloadManager{ServerURL=\"http://pull/\";ConfigurationNames={\"Web\",\"App\"};};instance of MSFT_DSCMetaConfiguration{RefreshMode=\"Pull\";};instance of MSFT_PartialConfiguration{ResourceID=\"[PartialConfiguration]App\";};instance of MSFT_PartialConfiguration{ResourceID=\"[PartialConfiguration]web\";};";

const NAMES: &[u8] = b"\"ConfigurationNames\":[\"Web\",\"App\",\"web\"]";

fn registers(alloc: Global) -> Result<bool, Memory> {
    let meta = meta(alloc, META)?;
    let name = text(alloc, "node")?;
    let mut link = link(alloc, &[Code(204)], &[])?;
    let Some(server) = &meta.server else {
        return Ok(false);
    };
    let done = register_node(alloc, &mut link, &meta, server, AGENT, &name, 1_700_000_000);
    Ok(
        done.is_ok()
            && match link.exchanges() {
                [only] => has(only.request.as_slice(), NAMES),
                _ => false,
            },
    )
}

fn has(bytes: &[u8], words: &[u8]) -> bool {
    let mut left = bytes;
    while let [_, rest @ ..] = left {
        if left.starts_with(words) {
            return true;
        }
        left = rest;
    }
    false
}

#[test]
fn a_node_registers_its_names(rt: HostRuntime) {
    assert!(rt; matches!(registers(rt.alloc()), Ok(true)));
}
