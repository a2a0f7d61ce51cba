//! What the two targets are answered.
use crate::first_other_of;
use std::rt::HostRuntime;

const PUT_1: &str =
    "PUT /PSDSCPullServer.svc/Nodes(AgentId='00000000-0000-0000-0000-000000000001') HTTP/1.1\r\nx-ms-date: 2026-01-02T03:04:05.0000000Z\r\nAuthorization: Shared qdrokIZ5PL0sGnHyClFl0qASlB/YAOje+p4iTjfIVcM=\r\n";

const PUT_2: &str =
    "PUT /PSDSCPullServer.svc/Nodes(AgentId='00000000-0000-0000-0000-000000000002') HTTP/1.1\r\nx-ms-date: 2026-01-02T03:04:05.0000000Z\r\nAuthorization: Shared qdrokIZ5PL0sGnHyClFl0qASlB/YAOje+p4iTjfIVcM=\r\n";

const SEND_1: &str =
    "POST /PSDSCPullServer.svc/Nodes(AgentId='00000000-0000-0000-0000-000000000001')/SendReport HTTP/1.1\r\n";

const WEB: &str =
    "{\"AgentInformation\":{\"LCMVersion\":\"2.0\",\"NodeName\":\"n\",\"IPAddress\":\"\"},\"ConfigurationNames\":[\"Web\"],\"RegistrationInformation\":{\"RegistrationMessageType\":\"ConfigurationRepository\"}}";

const FLEET: &str = "GET /PSDSCPullServer.svc/Fleet HTTP/1.1\r\n";

const KEPT: &str =
    "GET /PSDSCPullServer.svc/Nodes(AgentId='00000000-0000-0000-0000-000000000001')/Reports(JobId='00000000-0000-0000-0000-000000000011') HTTP/1.1\r\n";

const OTHER_JOB: &str =
    "GET /PSDSCPullServer.svc/Nodes(AgentId='00000000-0000-0000-0000-000000000001')/Reports(JobId='00000000-0000-0000-0000-000000000012') HTTP/1.1\r\n";

const OTHER_AGENT: &str =
    "GET /PSDSCPullServer.svc/Nodes(AgentId='00000000-0000-0000-0000-000000000002')/Reports(JobId='00000000-0000-0000-0000-000000000011') HTTP/1.1\r\n";

const SUCCESS: &str = "{\"JobId\":\"00000000-0000-0000-0000-000000000011\",\"Status\":\"Success\"}";

const SPELLED_OTHERWISE: &str = "GET /psdscpullserver.svc/%46LEET HTTP/1.1\r\n";

const POSTED: &str = "POST /PSDSCPullServer.svc/Fleet HTTP/1.1\r\n";

const PUT_THERE: &str = "PUT /PSDSCPullServer.svc/Fleet HTTP/1.1\r\n";

const DELETED: &str = "DELETE /PSDSCPullServer.svc/Fleet HTTP/1.1\r\nProtocolVersion: 1.0\r\n";

const LOWER: &str = "get /PSDSCPullServer.svc/Fleet HTTP/1.1\r\n";

const OF_1_0: &str = "GET /PSDSCPullServer.svc/Fleet HTTP/1.1\r\nProtocolVersion: 1.0\r\n";

const OF_2_0: &str = "GET /PSDSCPullServer.svc/Fleet HTTP/1.1\r\nprotocolversion: 2.0\r\n";

const POSTED_1_0: &str = "POST /PSDSCPullServer.svc/Fleet HTTP/1.1\r\nProtocolVersion: 1.0\r\n";

const KEPT_1_0: &str =
    "GET /PSDSCPullServer.svc/Nodes(AgentId='00000000-0000-0000-0000-000000000009')/Reports(JobId='00000000-0000-0000-0000-000000000011') HTTP/1.1\r\nProtocolVersion: 3\r\n";

const KEPT_POSTED: &str =
    "POST /PSDSCPullServer.svc/Nodes(AgentId='00000000-0000-0000-0000-000000000001')/Reports(JobId='00000000-0000-0000-0000-000000000011') HTTP/1.1\r\n";

const NO_JOB: &str =
    "GET /PSDSCPullServer.svc/Nodes(AgentId='00000000-0000-0000-0000-000000000001')/Reports(JobId='1') HTTP/1.1\r\n";

type Exchange = (&'static str, &'static str, u16, &'static str);

const EXCHANGES: &[Exchange] = &[
    (
        FLEET,
        "",
        200,
        "{\"Agents\":0,\"Compliant\":0,\"Failed\":0,\"Other\":0,\"Silent\":0}",
    ),
    (
        SPELLED_OTHERWISE,
        "",
        200,
        "{\"Agents\":0,\"Compliant\":0,\"Failed\":0,\"Other\":0,\"Silent\":0}",
    ),
    (POSTED, "", 405, ""),
    (PUT_THERE, "", 405, ""),
    (DELETED, "", 501, ""),
    (LOWER, "", 501, ""),
    (OF_1_0, "", 400, "wrong ProtocolVersion"),
    (POSTED_1_0, "", 405, ""),
    (
        OF_2_0,
        "",
        200,
        "{\"Agents\":0,\"Compliant\":0,\"Failed\":0,\"Other\":0,\"Silent\":0}",
    ),
    (KEPT, "", 404, ""),
    (KEPT_1_0, "", 400, "wrong ProtocolVersion"),
    (KEPT_POSTED, "", 405, ""),
    (NO_JOB, "", 400, "target 75"),
    (PUT_1, WEB, 204, ""),
    (
        FLEET,
        "",
        200,
        "{\"Agents\":1,\"Compliant\":0,\"Failed\":0,\"Other\":0,\"Silent\":1}",
    ),
    (KEPT, "", 404, ""),
    (SEND_1, SUCCESS, 200, ""),
    (KEPT, "", 200, SUCCESS),
    (OTHER_JOB, "", 404, ""),
    (OTHER_AGENT, "", 404, ""),
    (PUT_2, WEB, 204, ""),
    (OTHER_AGENT, "", 404, ""),
    (
        FLEET,
        "",
        200,
        "{\"Agents\":2,\"Compliant\":1,\"Failed\":0,\"Other\":0,\"Silent\":1}",
    ),
];

#[test]
fn the_two_targets_are_answered_by_their_table(rt: HostRuntime) {
    assert_eq!(rt; first_other_of(rt.alloc(), &[], EXCHANGES), Ok(None));
}
