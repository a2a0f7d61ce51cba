//! Which texts are targets of the fleet.
use super::made::expect;
use pull_messages::*;
use std::test::Fail;

const REPORT: Option<FleetTarget> = Some(FleetTarget::Report(1, 0xAB));

const SUMMARY: Option<FleetTarget> = Some(FleetTarget::Summary);

const TARGETS: &[(&str, Option<FleetTarget>)] = &[
    (
        "/PSDSCPullServer.svc/Nodes(AgentId='00000000-0000-0000-0000-000000000001')/Reports(JobId='00000000-0000-0000-0000-0000000000ab')",
        REPORT,
    ),
    (
        "/psdscpullserver.SVC/nodes(AGENTID='00000000-0000-0000-0000-000000000001')/reports(jobid='00000000-0000-0000-0000-0000000000AB')",
        REPORT,
    ),
    (
        "/PSDSCPullServer.svc/Nodes%28AgentId=%2700000000-0000-0000-0000-000000000001')/Reports(JobId='00000000-0000-0000-0000-0000000000%61b')",
        REPORT,
    ),
    (
        "/PSDSCPullServer.svc/Nodes(AgentId='00000000-0000-0000-0000-000000000001')/Reports(JobId='00000000-0000-0000-0000-0000000000ab')/",
        None,
    ),
    (
        "/PSDSCPullServer.svc/Nodes(AgentId='00000000-0000-0000-0000-000000000001')/Reports(JobId='00000000-0000-0000-0000-0000000000a')",
        None,
    ),
    (
        "/PSDSCPullServer.svc/Nodes(AgentId='00000000-0000-0000-0000-000000000001')/Reports(JobId='{0000000-0000-0000-0000-0000000000ab')",
        None,
    ),
    (
        "/PSDSCPullServer.svc/Nodes(AgentId='00000000-0000-0000-0000-000000000001')/SendReport",
        None,
    ),
    ("/PSDSCPullServer.svc/Fleet", SUMMARY),
    ("/PSDSCPullServer.svc/fLEET", SUMMARY),
    ("/PSDSCPullServer.svc/%46leet", SUMMARY),
    ("/PSDSCPullServer.svc/%46leet%", None),
    ("/PSDSCPullServer.svc/Fleet%C3", None),
    ("/PSDSCPullServer.svc/Fleet/", None),
    ("/PSDSCPullServer.svc/Fleet?", None),
    ("/PSDSCPullServer.svc/Flee", None),
    ("/Fleet", None),
    ("", None),
];

#[test]
fn the_two_targets_of_the_fleet_are_read_and_no_other(rt: HostRuntime) -> Result<(), Fail> {
    for (text, wanted) in TARGETS {
        match fleet_target(rt.alloc(), text.as_bytes()) {
            Ok(found) => expect(found == *wanted, text)?,
            Err(_) => expect(false, text)?,
        }
    }
    Ok(())
}
