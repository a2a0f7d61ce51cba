//! Which run a node is to make.
ghost use Rattle.std.specs.Prelude.{◌≡◌, option_map};
ghost use Rattle.dsc_node.specs.Runs.{chosen_current, chosen_of};

use lcm_core::RunMode;
use meta_config::ConfigMode;
use node_state::Node;
use partial_merge::Part;

/// The parts of a run, and how they are run.
#[derive(Clone, Copy)]
pub(crate) struct Chosen<'a> {
    pub(crate) parts: &'a [Part],
    pub(crate) mode: RunMode,

    /// They are Pending, not Current.
    pub(crate) pending: bool,
}

/// The run that the node is to make, unless it is to stop: Pending is repaired; without it Current is left alone, monitored or
/// repaired, as the configuration mode says.
pub(crate) fn chosen_of(node: &Node, stopped: bool) -> Option<Chosen>
    ensures { option_map (λ chosen. record {
      parts = chosen.parts.now;
      mode = chosen.mode;
      pending = chosen.pending;
    }) result ≡ chosen_of stopped node.now }
{
    if stopped {
        return None;
    }
    match (&node.pending, &node.current) {
        (Some(parts), _) => Some(Chosen {
            parts: parts.as_slice(),
            mode: RunMode::Repair,
            pending: true,
        }),
        (None, Some(parts)) => chosen_current(node.meta.mode, parts.as_slice()),
        (None, None) => None,
    }
}

fn chosen_current(mode: ConfigMode, parts: &[Part]) -> Option<Chosen>
    ensures { option_map (λ chosen. record {
      parts = chosen.parts.now;
      mode = chosen.mode;
      pending = chosen.pending;
    }) result ≡ chosen_current mode parts.now }
{
    let mode = match mode {
        ConfigMode::ApplyOnly => return None,
        ConfigMode::ApplyAndMonitor => RunMode::Monitor,
        ConfigMode::ApplyAndAutoCorrect => RunMode::Repair,
    };
    Some(Chosen {
        parts,
        mode,
        pending: false,
    })
}
