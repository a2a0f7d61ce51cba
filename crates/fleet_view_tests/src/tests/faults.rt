//! A disk that fails while a change is kept.
use crate::first_other_of;
use std::rt::HostRuntime;

const PUT_1: &str =
    "PUT /PSDSCPullServer.svc/Nodes(AgentId='00000000-0000-0000-0000-000000000001') HTTP/1.1\r\nx-ms-date: 2026-01-02T03:04:05.0000000Z\r\nAuthorization: Shared qdrokIZ5PL0sGnHyClFl0qASlB/YAOje+p4iTjfIVcM=\r\n";

const PUT_2: &str =
    "PUT /PSDSCPullServer.svc/Nodes(AgentId='00000000-0000-0000-0000-000000000002') HTTP/1.1\r\nx-ms-date: 2026-01-02T03:04:05.0000000Z\r\nAuthorization: Shared qdrokIZ5PL0sGnHyClFl0qASlB/YAOje+p4iTjfIVcM=\r\n";

const SEND_1: &str =
    "POST /PSDSCPullServer.svc/Nodes(AgentId='00000000-0000-0000-0000-000000000001')/SendReport HTTP/1.1\r\n";

const WEB: &str =
    "{\"AgentInformation\":{\"LCMVersion\":\"2.0\",\"NodeName\":\"n\",\"IPAddress\":\"\"},\"ConfigurationNames\":[\"Web\"],\"RegistrationInformation\":{\"RegistrationMessageType\":\"ConfigurationRepository\"}}";

const FLEET: &str = "GET /PSDSCPullServer.svc/Fleet HTTP/1.1\r\n";

const SUCCESS: &str = "{\"JobId\":\"00000000-0000-0000-0000-000000000011\",\"Status\":\"Success\"}";

const FAILURE: &str = "{\"JobId\":\"00000000-0000-0000-0000-000000000012\",\"Status\":\"Failure\"}";

const KEPT: &str =
    "GET /PSDSCPullServer.svc/Nodes(AgentId='00000000-0000-0000-0000-000000000001')/Reports(JobId='00000000-0000-0000-0000-000000000012') HTTP/1.1\r\n";

type Exchange = (&'static str, &'static str, u16, &'static str);

// The calls of the disk before that of a change, of which each has four.
const FIRST_REGISTRATION: u64 = 9;

const FIRST_REPORT: u64 = 13;

// Each call of the second report fails.
const REPORT: &[Exchange] = &[
    (PUT_1, WEB, 204, ""),
    (SEND_1, SUCCESS, 200, ""),
    (
        FLEET,
        "",
        200,
        "{\"Agents\":1,\"Compliant\":1,\"Failed\":0,\"Other\":0,\"Silent\":0}",
    ),
    (SEND_1, FAILURE, 500, ""),
    (
        FLEET,
        "",
        200,
        "{\"Agents\":1,\"Compliant\":1,\"Failed\":0,\"Other\":0,\"Silent\":0}",
    ),
    (KEPT, "", 404, ""),
    (SEND_1, FAILURE, 500, ""),
];

// Each call of the second registration fails.
const REGISTRATION: &[Exchange] = &[
    (PUT_1, WEB, 204, ""),
    (PUT_2, WEB, 500, ""),
    (
        FLEET,
        "",
        200,
        "{\"Agents\":1,\"Compliant\":0,\"Failed\":0,\"Other\":0,\"Silent\":1}",
    ),
    (PUT_2, WEB, 500, ""),
    (
        FLEET,
        "",
        200,
        "{\"Agents\":1,\"Compliant\":0,\"Failed\":0,\"Other\":0,\"Silent\":1}",
    ),
];

#[test]
fn a_change_that_was_not_committed_changes_no_class(rt: HostRuntime) {
    for call in FIRST_REPORT..FIRST_REPORT + 4 {
        assert_eq!(rt;
            first_other_of(rt.alloc(), &[call], REPORT),
            Ok(None),
            "{call}"
        );
    }
    for call in FIRST_REGISTRATION..FIRST_REGISTRATION + 4 {
        assert_eq!(rt;
            first_other_of(rt.alloc(), &[call], REGISTRATION),
            Ok(None),
            "{call}"
        );
    }
}
