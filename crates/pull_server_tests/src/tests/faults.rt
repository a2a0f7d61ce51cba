use crate::{codes_after, first_other_of};
use std::rt::HostRuntime;
use std::test::Fail;

const SIGNED: &str =
    "PUT /PSDSCPullServer.svc/Nodes(AgentId='00000000-0000-0000-0000-000000000001') HTTP/1.1\r\nx-ms-date: 2026-01-02T03:04:05.0000000Z\r\nAuthorization: Shared qdrokIZ5PL0sGnHyClFl0qASlB/YAOje+p4iTjfIVcM=\r\n";

const UNSIGNED: &str =
    "PUT /PSDSCPullServer.svc/Nodes(AgentId='00000000-0000-0000-0000-000000000001') HTTP/1.1\r\n";

const WEB: &str =
    "{\"AgentInformation\":{\"LCMVersion\":\"2.0\",\"NodeName\":\"n\",\"IPAddress\":\"\"},\"ConfigurationNames\":[\"Web\"],\"RegistrationInformation\":{\"RegistrationMessageType\":\"ConfigurationRepository\"}}";

const ACT: &str =
    "POST /PSDSCPullServer.svc/Nodes(AgentId='00000000-0000-0000-0000-000000000001')/GetDscAction HTTP/1.1\r\n";

const FETCH: &str =
    "GET /PSDSCPullServer.svc/Nodes(AgentId='00000000-0000-0000-0000-000000000001')/Configurations(ConfigurationName='Web')/ConfigurationContent HTTP/1.1\r\n";

const REPORT: &str =
    "POST /PSDSCPullServer.svc/Nodes(AgentId='00000000-0000-0000-0000-000000000001')/SendReport HTTP/1.1\r\n";

const MODULE: &str =
    "GET /PSDSCPullServer.svc/Modules(ModuleName='m',ModuleVersion='1.0')/ModuleContent HTTP/1.1\r\n";

type Exchange = (&'static str, &'static str, u16, &'static str);

// No key is asked for where a header of the signature is missing.
const KEYS: &[Exchange] = &[
    (UNSIGNED, WEB, 401, ""),
    (SIGNED, WEB, 500, ""),
    (SIGNED, WEB, 204, ""),
];

const THIRD_KEY: &[Exchange] = &[(SIGNED, WEB, 500, ""), (SIGNED, WEB, 204, "")];

const PACKAGE: &[Exchange] = &[(MODULE, "", 500, ""), (MODULE, "", 200, "PK")];

const CONTENT: &[Exchange] = &[
    (SIGNED, WEB, 204, ""),
    (FETCH, "", 500, ""),
    (FETCH, "", 200, "abc"),
];

const QUERY: &[Exchange] = &[
    (SIGNED, WEB, 204, ""),
    (ACT, "{", 400, "json"),
    (ACT, "{\"ClientStatus\":[]}", 500, ""),
];

// The call of the shelf that fails, and exchanges.
const SHELVES: &[(u64, &[Exchange])] = &[
    (0, KEYS),
    (2, THIRD_KEY),
    (0, PACKAGE),
    (3, CONTENT),
    (3, QUERY),
];

#[test]
fn a_failing_shelf_is_answered_500(rt: HostRuntime) {
    for (call, exchanges) in SHELVES {
        assert_eq!(rt;
            first_other_of(rt.alloc(), &[*call], exchanges),
            Ok(None),
            "{call}"
        );
    }
}

// A registration, two reports and a content.
const FOUR: &[(&str, &str)] = &[
    (SIGNED, WEB),
    (
        REPORT,
        "{\"JobId\":\"00000000-0000-0000-0000-000000000011\"}",
    ),
    (
        REPORT,
        "{\"JobId\":\"00000000-0000-0000-0000-000000000012\"}",
    ),
    (FETCH, ""),
];

// How far they come before the disk fails.
const CODES: &[&str] = &[
    "204 200 200 200 ",
    "204 200 500 500 ",
    "204 500 500 500 ",
    "500 404 404 404 ",
    "unopened",
];

#[test]
fn a_failing_disk_is_answered_500_from_then_on(rt: HostRuntime) -> Result<(), Fail> {
    let mut seen = [0u32; 5];
    for call in 0..40 {
        let codes = codes_after(rt.alloc(), call, FOUR)?;
        for (place, wanted) in CODES.iter().enumerate() {
            if codes.as_str() == *wanted {
                seen[place] = seen[place].saturating_add(1);
            }
        }
    }
    for count in seen {
        assert!(rt; count > 0);
    }
    let sum = seen[0] as u64 + seen[1] as u64 + seen[2] as u64 + seen[3] as u64 + seen[4] as u64;
    assert_eq!(rt; sum, 40);
    Ok(())
}
