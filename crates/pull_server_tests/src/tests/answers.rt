use crate::first_other_of;
use std::rt::HostRuntime;

const PUT_1: &str =
    "PUT /PSDSCPullServer.svc/Nodes(AgentId='00000000-0000-0000-0000-000000000001') HTTP/1.1\r\nHost: s\r\n";

const SIGNED: &str =
    "PUT /PSDSCPullServer.svc/Nodes(AgentId='00000000-0000-0000-0000-000000000001') HTTP/1.1\r\nx-ms-date: 2026-01-02T03:04:05.0000000Z\r\nAuthorization: Shared qdrokIZ5PL0sGnHyClFl0qASlB/YAOje+p4iTjfIVcM=\r\n";

const WRONGLY_SIGNED: &str =
    "PUT /PSDSCPullServer.svc/Nodes(AgentId='00000000-0000-0000-0000-000000000001') HTTP/1.1\r\nx-ms-date: 2026-01-02T03:04:05.0000000Z\r\nAuthorization: Shared gI/JgNDGEC5erzwmPIKEaTckfyhgvWJl6K1cdjgYMM8=\r\n";

const OTHER_DATE: &str =
    "PUT /PSDSCPullServer.svc/Nodes(AgentId='00000000-0000-0000-0000-000000000001') HTTP/1.1\r\nx-ms-date: 2026-01-02T03:04:06.0000000Z\r\nAuthorization: Shared qdrokIZ5PL0sGnHyClFl0qASlB/YAOje+p4iTjfIVcM=\r\n";

const TWO_DATES: &str =
    "PUT /PSDSCPullServer.svc/Nodes(AgentId='00000000-0000-0000-0000-000000000001') HTTP/1.1\r\nx-ms-date: 2026-01-02T03:04:05.0000000Z\r\nX-MS-Date: 2026-01-02T03:04:05.0000000Z\r\nAuthorization: Shared qdrokIZ5PL0sGnHyClFl0qASlB/YAOje+p4iTjfIVcM=\r\n";

// The object `{}`, signed under k0.
const EMPTY_SIGNED: &str =
    "PUT /PSDSCPullServer.svc/Nodes(AgentId='00000000-0000-0000-0000-000000000001') HTTP/1.1\r\nx-ms-date: 2026-01-02T03:04:05.0000000Z\r\nAuthorization: Shared otM7EmF91pqgQKE6NNaKhSL/2Av9GvR0wR1zrMdnRxg=\r\n";

const WEB: &str =
    "{\"AgentInformation\":{\"LCMVersion\":\"2.0\",\"NodeName\":\"n\",\"IPAddress\":\"\"},\"ConfigurationNames\":[\"Web\"],\"RegistrationInformation\":{\"RegistrationMessageType\":\"ConfigurationRepository\"}}";

const ACT: &str =
    "POST /PSDSCPullServer.svc/Nodes(AgentId='00000000-0000-0000-0000-000000000001')/GetDscAction HTTP/1.1\r\nHost: s\r\n";

const ACT_2: &str =
    "POST /PSDSCPullServer.svc/Nodes(AgentId='00000000-0000-0000-0000-000000000002')/GetDscAction HTTP/1.1\r\nHost: s\r\n";

const REPORT: &str =
    "POST /PSDSCPullServer.svc/Nodes(AgentId='00000000-0000-0000-0000-000000000001')/SendReport HTTP/1.1\r\nHost: s\r\n";

const FETCH: &str =
    "GET /PSDSCPullServer.svc/Nodes(AgentId='00000000-0000-0000-0000-000000000001')/Configurations(ConfigurationName='Web')/ConfigurationContent HTTP/1.1\r\nHost: s\r\n";

const FETCH_OTHER: &str =
    "GET /PSDSCPullServer.svc/Nodes(AgentId='00000000-0000-0000-0000-000000000001')/Configurations(ConfigurationName='web')/ConfigurationContent HTTP/1.1\r\nHost: s\r\n";

const MODULE: &str =
    "GET /PSDSCPullServer.svc/Modules(ModuleName='m',ModuleVersion='1.0')/ModuleContent HTTP/1.1\r\nHost: s\r\n";

const NO_MODULE: &str =
    "GET /PSDSCPullServer.svc/Modules(ModuleName='m',ModuleVersion='2.0')/ModuleContent HTTP/1.1\r\nHost: s\r\n";

// A head, a body, and the code and the body that must come, one after the other to a new server.
fn exchanges() -> &'static [(&'static str, &'static str, u16, &'static str)] {
    &[
        (
            "DELETE /PSDSCPullServer.svc/Nodes(AgentId='00000000-0000-0000-0000-000000000001') HTTP/1.1\r\n",
            "",
            501,
            "",
        ),
        ("DELETE /nothing HTTP/1.1\r\n", "", 501, ""),
        ("get /nothing HTTP/1.1\r\n", "", 501, ""),
        (
            "GET /PSDSCPullServer.svc/Node HTTP/1.1\r\n",
            "",
            400,
            "target 25",
        ),
        (
            "GET /x HTTP/1.1\r\nProtocolVersion: 1.0\r\n",
            "",
            400,
            "target 1",
        ),
        (
            "POST /PSDSCPullServer.svc/Nodes(AgentId='00000000-0000-0000-0000-000000000001') HTTP/1.1\r\n",
            "",
            405,
            "",
        ),
        (
            "POST /PSDSCPullServer.svc/Nodes(AgentId='00000000-0000-0000-0000-000000000001') HTTP/1.1\r\nProtocolVersion: 1.0\r\n",
            "",
            405,
            "",
        ),
        (
            "PUT /PSDSCPullServer.svc/Nodes(AgentId='00000000-0000-0000-0000-000000000001') HTTP/1.1\r\nProtocolVersion: 1.0\r\n",
            "",
            400,
            "wrong ProtocolVersion",
        ),
        (
            "PUT /PSDSCPullServer.svc/Nodes(AgentId='00000000-0000-0000-0000-000000000001') HTTP/1.1\r\nPROTOCOLVERSION: 2.0\r\nprotocolversion: 2\r\n",
            "",
            400,
            "wrong ProtocolVersion",
        ),
        (PUT_1, WEB, 401, ""),
        (PUT_1, "{", 401, ""),
        (WRONGLY_SIGNED, WEB, 401, ""),
        (OTHER_DATE, WEB, 401, ""),
        (TWO_DATES, WEB, 401, ""),
        (SIGNED, "{}", 401, ""),
        (EMPTY_SIGNED, "{}", 400, "missing AgentInformation"),
        (FETCH, "", 404, ""),
        (ACT, "{", 404, ""),
        (REPORT, "{", 404, ""),
        (SIGNED, WEB, 204, ""),
        (SIGNED, WEB, 204, ""),
        (ACT, "{", 400, "json"),
        (ACT, "{}", 400, "missing ClientStatus"),
        (ACT, "{\"ClientStatus\":1}", 400, "wrong ClientStatus"),
        (ACT_2, "{", 404, ""),
        (
            ACT,
            "{\"ClientStatus\":[{\"Checksum\":\"\",\"ConfigurationName\":\"Web\",\"ChecksumAlgorithm\":\"SHA-256\"}]}",
            200,
            "{\"Details\":[{\"ConfigurationName\":\"Web\",\"Status\":\"GetConfiguration\"}],\"NodeStatus\":\"GetConfiguration\"}",
        ),
        (
            ACT,
            "{\"ClientStatus\":[{\"Checksum\":\"ba7816BF8F01CFEA414140DE5DAE2223B00361A396177A9CB410FF61F20015AD\",\"ConfigurationName\":\"\"}]}",
            200,
            "{\"Details\":[{\"ConfigurationName\":\"Web\",\"Status\":\"Ok\"}],\"NodeStatus\":\"Ok\"}",
        ),
        (
            ACT,
            "{\"ClientStatus\":[{\"ConfigurationName\":\"Other\"}]}",
            200,
            "{\"Details\":[{\"ConfigurationName\":\"Other\",\"Status\":\"RETRY\"}],\"NodeStatus\":\"RETRY\"}",
        ),
        (
            ACT,
            "{\"ClientStatus\":[]}",
            200,
            "{\"Details\":[{\"ConfigurationName\":\"Web\",\"Status\":\"GetConfiguration\"}],\"NodeStatus\":\"GetConfiguration\"}",
        ),
        (FETCH, "", 200, "abc"),
        (FETCH_OTHER, "", 404, ""),
        (MODULE, "", 200, "PK"),
        (NO_MODULE, "", 404, ""),
        (REPORT, "{}", 400, "missing JobId"),
        (REPORT, "{\"JobId\":\"x\"}", 400, "wrong JobId"),
        (
            REPORT,
            "{\"JobId\":\"00000000-0000-0000-0000-000000000011\"}",
            200,
            "",
        ),
        (
            REPORT,
            "{\"JobId\":\"00000000-0000-0000-0000-000000000011\",\"Status\":\"Success\"}",
            200,
            "",
        ),
    ]
}

#[test]
fn each_request_is_answered_by_the_first_row_that_applies(rt: HostRuntime) {
    assert_eq!(rt; first_other_of(rt.alloc(), &[], exchanges()), Ok(None));
}
