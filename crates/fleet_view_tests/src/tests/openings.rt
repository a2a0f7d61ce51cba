//! The fleet of a store that is opened.
ghost use Rattle.pull_store.specs.Store.{IsReady};

use crate::{first_other, new_disk, new_shelf};
use dsc_outside::Disk;
use fleet_view::open_fleet;
use memory_outside::MemoryDisk;
use pull_messages::read_registration;
use pull_store::{PullError, PullStore, open_pull};
use std::alloc::Global;
use std::rt::HostRuntime;

const FLEET: &str = "GET /PSDSCPullServer.svc/Fleet HTTP/1.1\r\n";

const NEW: &str =
    "PUT /PSDSCPullServer.svc/Nodes(AgentId='00000000-0000-0000-0000-000000001000') HTTP/1.1\r\nx-ms-date: 2026-01-02T03:04:05.0000000Z\r\nAuthorization: Shared qdrokIZ5PL0sGnHyClFl0qASlB/YAOje+p4iTjfIVcM=\r\n";

const KNOWN: &str =
    "PUT /PSDSCPullServer.svc/Nodes(AgentId='00000000-0000-0000-0000-000000000001') HTTP/1.1\r\nx-ms-date: 2026-01-02T03:04:05.0000000Z\r\nAuthorization: Shared qdrokIZ5PL0sGnHyClFl0qASlB/YAOje+p4iTjfIVcM=\r\n";

const WEB: &str =
    "{\"AgentInformation\":{\"LCMVersion\":\"2.0\",\"NodeName\":\"n\",\"IPAddress\":\"\"},\"ConfigurationNames\":[\"Web\"],\"RegistrationInformation\":{\"RegistrationMessageType\":\"ConfigurationRepository\"}}";

const SUCCESS: &[u8] =
    b"{\"JobId\":\"00000000-0000-0000-0000-000000000011\",\"Status\":\"Success\"}";

// Registers an agent.
fn register<D: Disk>(
    alloc: Global,
    store: &mut PullStore,
    disk: &mut D,
    agent: u128,
) -> Result<(), PullError>
    requires { IsReady D.Disk disk.old store.old }
    ensures { IsReady D.Disk disk.new store.new }
{
    match read_registration(alloc, b"{\"AgentInformation\":{}}") {
        Ok(registration) => store.register(disk, agent, registration),
        Err(_) => Err(PullError::NotAStore { at: 0 }),
    }
}

fn register_below<D: Disk>(
    alloc: Global,
    store: &mut PullStore,
    disk: &mut D,
    count: u128,
) -> Result<(), PullError>
    requires { IsReady D.Disk disk.old store.old }
    ensures { IsReady D.Disk disk.new store.new }
{
    for agent in 0..count {
        register(alloc, store, disk, agent)?;
    }
    Ok(())
}

// A disk with the rows of that many agents.
fn disk_of(alloc: Global, count: u128, reports: &[(u128, &[u8])]) -> Result<MemoryDisk, PullError> {
    let mut disk = new_disk(alloc, &[])?;
    let mut store = open_pull(alloc, &mut disk)?;
    register_below(alloc, &mut store, &mut disk, count)?;
    put_all(alloc, &mut store, &mut disk, reports)?;
    Ok(disk)
}

fn put_all<D: Disk>(
    alloc: Global,
    store: &mut PullStore,
    disk: &mut D,
    reports: &[(u128, &[u8])],
) -> Result<(), PullError>
    requires { IsReady D.Disk disk.old store.old }
    ensures { IsReady D.Disk disk.new store.new }
{
    for (agent, body) in reports {
        put(alloc, store, disk, *agent, body)?;
    }
    Ok(())
}

// A report of job 1, whatever it is.
fn put<D: Disk>(
    alloc: Global,
    store: &mut PullStore,
    disk: &mut D,
    agent: u128,
    body: &[u8],
) -> Result<(), PullError>
    requires { IsReady D.Disk disk.old store.old }
    ensures { IsReady D.Disk disk.new store.new }
{
    if body.len() > 131_072 {
        return Err(PullError::NotAStore { at: 0 });
    }
    match body.to_vec(alloc) {
        Ok(body) => store.put_report(disk, agent, 1, body),
        Err(_) => Err(PullError::Memory),
    }
}

type Exchange = (&'static str, &'static str, u16, &'static str);

// The first of the exchanges that a server over such a disk answers otherwise.
fn first_other_over(
    alloc: Global,
    count: u128,
    reports: &[(u128, &[u8])],
    exchanges: &[Exchange],
) -> Result<Option<usize>, PullError> {
    let mut disk = disk_of(alloc, count, reports)?;
    let mut shelf = new_shelf(alloc)?;
    let mut service = open_fleet(alloc, &mut disk)?;
    Ok(first_other(alloc, &mut service, &mut disk, &mut shelf, exchanges))
}

#[test]
fn a_store_that_is_opened_has_the_classes_of_its_last_reports(rt: HostRuntime) {
    let reports: [(u128, &[u8]); 3] = [(1, SUCCESS), (2, b"no report"), (2, b"")];
    let exchanges = [(
        FLEET,
        "",
        200,
        "{\"Agents\":4,\"Compliant\":1,\"Failed\":0,\"Other\":1,\"Silent\":2}",
    )];
    assert_eq!(rt;
        first_other_over(rt.alloc(), 4, &reports, &exchanges),
        Ok(None)
    );
}

// The agents are 0 to 511.
const FULL: &[Exchange] = &[
    (
        FLEET,
        "",
        200,
        "{\"Agents\":512,\"Compliant\":0,\"Failed\":0,\"Other\":0,\"Silent\":512}",
    ),
    (NEW, WEB, 503, ""),
    (KNOWN, WEB, 204, ""),
    (
        FLEET,
        "",
        200,
        "{\"Agents\":512,\"Compliant\":0,\"Failed\":0,\"Other\":0,\"Silent\":512}",
    ),
];

#[test]
fn an_agent_that_a_full_store_refuses_is_not_counted(rt: HostRuntime) {
    assert_eq!(rt; first_other_over(rt.alloc(), 512, &[], FULL), Ok(None));
}
