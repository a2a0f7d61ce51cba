//! The classes of agents, as their reports come.
use crate::first_other_of;
use std::rt::HostRuntime;

const PUT_1: &str =
    "PUT /PSDSCPullServer.svc/Nodes(AgentId='00000000-0000-0000-0000-000000000001') HTTP/1.1\r\nx-ms-date: 2026-01-02T03:04:05.0000000Z\r\nAuthorization: Shared qdrokIZ5PL0sGnHyClFl0qASlB/YAOje+p4iTjfIVcM=\r\n";

const PUT_2: &str =
    "PUT /PSDSCPullServer.svc/Nodes(AgentId='00000000-0000-0000-0000-000000000002') HTTP/1.1\r\nx-ms-date: 2026-01-02T03:04:05.0000000Z\r\nAuthorization: Shared qdrokIZ5PL0sGnHyClFl0qASlB/YAOje+p4iTjfIVcM=\r\n";

const PUT_3: &str =
    "PUT /PSDSCPullServer.svc/Nodes(AgentId='00000000-0000-0000-0000-000000000003') HTTP/1.1\r\nx-ms-date: 2026-01-02T03:04:05.0000000Z\r\nAuthorization: Shared qdrokIZ5PL0sGnHyClFl0qASlB/YAOje+p4iTjfIVcM=\r\n";

const SEND_1: &str =
    "POST /PSDSCPullServer.svc/Nodes(AgentId='00000000-0000-0000-0000-000000000001')/SendReport HTTP/1.1\r\n";

const SEND_2: &str =
    "POST /PSDSCPullServer.svc/Nodes(AgentId='00000000-0000-0000-0000-000000000002')/SendReport HTTP/1.1\r\n";

const SEND_3: &str =
    "POST /PSDSCPullServer.svc/Nodes(AgentId='00000000-0000-0000-0000-000000000003')/SendReport HTTP/1.1\r\n";

const SEND_9: &str =
    "POST /PSDSCPullServer.svc/Nodes(AgentId='00000000-0000-0000-0000-000000000009')/SendReport HTTP/1.1\r\n";

const WEB: &str =
    "{\"AgentInformation\":{\"LCMVersion\":\"2.0\",\"NodeName\":\"n\",\"IPAddress\":\"\"},\"ConfigurationNames\":[\"Web\"],\"RegistrationInformation\":{\"RegistrationMessageType\":\"ConfigurationRepository\"}}";

const FLEET: &str = "GET /PSDSCPullServer.svc/Fleet HTTP/1.1\r\n";

const SUCCESS_11: &str =
    "{\"JobId\":\"00000000-0000-0000-0000-000000000011\",\"Status\":\"Success\"}";

const FAILURE_11: &str =
    "{\"JobId\":\"00000000-0000-0000-0000-000000000011\",\"Status\":\"Failure\"}";

const FAILURE_12: &str =
    "{\"JobId\":\"00000000-0000-0000-0000-000000000012\",\"Status\":\"Failure\"}";

const SUCCESS_13: &str =
    "{\"JobId\":\"00000000-0000-0000-0000-000000000013\",\"Status\":\"sUCCESS\"}";

const PROGRESS_13: &str =
    "{\"JobId\":\"00000000-0000-0000-0000-000000000013\",\"Status\":\"InProgress\"}";

const FAILURE_13: &str =
    "{\"JobId\":\"00000000-0000-0000-0000-000000000013\",\"Status\":\"FAILURE\"}";

const NO_STATUS_14: &str = "{\"JobId\":\"00000000-0000-0000-0000-000000000014\"}";

const SUCCESS_15: &str =
    "{\"JobId\":\"00000000-0000-0000-0000-000000000015\",\"Status\":\"Success\"}";

const KEPT_11: &str =
    "GET /PSDSCPullServer.svc/Nodes(AgentId='00000000-0000-0000-0000-000000000001')/Reports(JobId='00000000-0000-0000-0000-000000000011') HTTP/1.1\r\n";

const KEPT_12: &str =
    "GET /PSDSCPullServer.svc/Nodes(AgentId='00000000-0000-0000-0000-000000000001')/Reports(JobId='00000000-0000-0000-0000-000000000012') HTTP/1.1\r\n";

const KEPT_OF_2: &str =
    "GET /PSDSCPullServer.svc/Nodes(AgentId='00000000-0000-0000-0000-000000000002')/Reports(JobId='00000000-0000-0000-0000-000000000011') HTTP/1.1\r\n";

type Exchange = (&'static str, &'static str, u16, &'static str);

const EXCHANGES: &[Exchange] = &[
    (PUT_1, WEB, 204, ""),
    (PUT_2, WEB, 204, ""),
    (PUT_3, WEB, 204, ""),
    (
        FLEET,
        "",
        200,
        "{\"Agents\":3,\"Compliant\":0,\"Failed\":0,\"Other\":0,\"Silent\":3}",
    ),
    (SEND_1, SUCCESS_11, 200, ""),
    (SEND_2, FAILURE_12, 200, ""),
    (
        FLEET,
        "",
        200,
        "{\"Agents\":3,\"Compliant\":1,\"Failed\":1,\"Other\":0,\"Silent\":1}",
    ),
    (SEND_2, SUCCESS_13, 200, ""),
    (
        FLEET,
        "",
        200,
        "{\"Agents\":3,\"Compliant\":2,\"Failed\":0,\"Other\":0,\"Silent\":1}",
    ),
    (SEND_2, PROGRESS_13, 200, ""),
    (
        FLEET,
        "",
        200,
        "{\"Agents\":3,\"Compliant\":1,\"Failed\":0,\"Other\":1,\"Silent\":1}",
    ),
    (SEND_2, SUCCESS_11, 200, ""),
    (KEPT_OF_2, "", 200, SUCCESS_11),
    (
        FLEET,
        "",
        200,
        "{\"Agents\":3,\"Compliant\":2,\"Failed\":0,\"Other\":0,\"Silent\":1}",
    ),
];

// A job that is not the last one is sent again, and leaves the class.
const SENT_AGAIN: &[Exchange] = &[
    (PUT_1, WEB, 204, ""),
    (SEND_1, SUCCESS_11, 200, ""),
    (SEND_1, SUCCESS_13, 200, ""),
    (
        FLEET,
        "",
        200,
        "{\"Agents\":1,\"Compliant\":1,\"Failed\":0,\"Other\":0,\"Silent\":0}",
    ),
    (SEND_1, FAILURE_11, 200, ""),
    (KEPT_11, "", 200, FAILURE_11),
    (
        FLEET,
        "",
        200,
        "{\"Agents\":1,\"Compliant\":1,\"Failed\":0,\"Other\":0,\"Silent\":0}",
    ),
    (SEND_1, FAILURE_13, 200, ""),
    (
        FLEET,
        "",
        200,
        "{\"Agents\":1,\"Compliant\":0,\"Failed\":1,\"Other\":0,\"Silent\":0}",
    ),
];

// Of five jobs the first is dropped; the agent registers again.
const DROPPED: &[Exchange] = &[
    (PUT_1, WEB, 204, ""),
    (SEND_1, SUCCESS_11, 200, ""),
    (KEPT_11, "", 200, SUCCESS_11),
    (SEND_1, FAILURE_12, 200, ""),
    (SEND_1, SUCCESS_13, 200, ""),
    (SEND_1, NO_STATUS_14, 200, ""),
    (
        FLEET,
        "",
        200,
        "{\"Agents\":1,\"Compliant\":0,\"Failed\":0,\"Other\":1,\"Silent\":0}",
    ),
    (KEPT_11, "", 200, SUCCESS_11),
    (SEND_1, SUCCESS_15, 200, ""),
    (KEPT_11, "", 404, ""),
    (KEPT_12, "", 200, FAILURE_12),
    (
        FLEET,
        "",
        200,
        "{\"Agents\":1,\"Compliant\":1,\"Failed\":0,\"Other\":0,\"Silent\":0}",
    ),
    (PUT_1, WEB, 204, ""),
    (
        FLEET,
        "",
        200,
        "{\"Agents\":1,\"Compliant\":1,\"Failed\":0,\"Other\":0,\"Silent\":0}",
    ),
    (PUT_1, "{}", 401, ""),
    (
        FLEET,
        "",
        200,
        "{\"Agents\":1,\"Compliant\":1,\"Failed\":0,\"Other\":0,\"Silent\":0}",
    ),
];

// What is refused leaves the classes.
const REFUSED: &[Exchange] = &[
    (SEND_1, SUCCESS_11, 404, ""),
    (
        FLEET,
        "",
        200,
        "{\"Agents\":0,\"Compliant\":0,\"Failed\":0,\"Other\":0,\"Silent\":0}",
    ),
    (PUT_1, WEB, 204, ""),
    (SEND_9, SUCCESS_11, 404, ""),
    (SEND_1, "{", 400, "json"),
    (SEND_1, "{}", 400, "missing JobId"),
    (SEND_3, FAILURE_11, 404, ""),
    (
        FLEET,
        "",
        200,
        "{\"Agents\":1,\"Compliant\":0,\"Failed\":0,\"Other\":0,\"Silent\":1}",
    ),
];

#[test]
fn an_agent_has_the_class_of_its_last_report(rt: HostRuntime) {
    for exchanges in [EXCHANGES, SENT_AGAIN, DROPPED, REFUSED] {
        assert_eq!(rt; first_other_of(rt.alloc(), &[], exchanges), Ok(None));
    }
}
