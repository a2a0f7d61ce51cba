//! Laws of packages, and of a server that gives what it is asked for. The calls do nothing; their clauses are the laws.
ghost use Rattle.node_pull.specs.Laws.{PackagesAreAccepted, PackagesAreThere};
ghost use Rattle.node_pull.specs.Serving.{RegistrationsSucceed, PullsSucceed};

use pull_client::one_meaning;
use resource_kinds::Machine;

/// Each package that a machine has after a pull and not before is of one of the modules that the document names, and was accepted under the
/// digest that was announced for it. Where the packages all came, the machine has that of each of these modules.
pub fn package_laws<M: Machine>()
    ensures accepted { PackagesAreAccepted M.packages M.faults }
    ensures there { PackagesAreThere M.packages M.faults }
{}

/// At a server that gives what it is asked for a registration fails for memory alone, and so does a pull where the machine's count of
/// faults did not rise.
pub fn serving_laws<M: Machine>()
    ensures register { RegistrationsSucceed }
    ensures pull { PullsSucceed M.packages M.faults }
{
    one_meaning();
}
