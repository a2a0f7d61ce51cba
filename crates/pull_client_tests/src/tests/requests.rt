//! The bytes of the requests. The expected ones were made by another program from the form of the protocol: JSON with sorted
//! members and no spaces, and the signature by another implementation of HMAC.
use super::calls::{Call, sends};
use super::made::{PLAIN, Site};

const OTHER: Site = (
    false,
    "pull.example",
    8080,
    "/a/PSDSCPullServer.svc",
    "kékékékékékékékékékékékékékékékékékékékékékékékékékékékékékékékékékékékékékékékékékékékékékékékékéké",
);

// A call, the server, and the lines of its request.
const REQUESTS: &[(Call, Site, &'static [&'static str])] = &[
    (
        Call::Register,
        PLAIN,
        &[
            "PUT /PSDSCPullServer.svc/Nodes(AgentId='00112233-4455-6677-8899-aabbccddeeff') HTTP/1.1\r\n",
            "Host: pull.example\r\n",
            "Connection: close\r\n",
            "ProtocolVersion: 2.0\r\n",
            "x-ms-date: 2023-11-14T22:13:20.0000000Z\r\n",
            "Authorization: Shared R1TCE8ELpl5rdCmcGADIUHRTtLH7F4X0zffVtd7QlUg=\r\n",
            "Content-Type: application/json\r\n",
            "Content-Length: 200\r\n\r\n",
            "{\"AgentInformation\":{\"IPAddress\":\"\",\"LCMVersion\":\"2.0\",\"NodeName\":\"node \\\"1\\\"\\n\"},\"ConfigurationNames\":[\"Web\",\"Caf'é\"],\"RegistrationInformation\":{\"RegistrationMessageType\":\"ConfigurationRepository\"}}",
        ],
    ),
    // What is held is found by fold.
    (
        Call::Ask(&["Web", "web"]),
        PLAIN,
        &[
            "POST /PSDSCPullServer.svc/Nodes(AgentId='00112233-4455-6677-8899-aabbccddeeff')/GetDscAction HTTP/1.1\r\n",
            "Host: pull.example\r\n",
            "Connection: close\r\n",
            "ProtocolVersion: 2.0\r\n",
            "Content-Type: application/json\r\n",
            "Content-Length: 290\r\n\r\n",
            "{\"ClientStatus\":[{\"Checksum\":\"BA7816BF8F01CFEA414140DE5DAE2223B00361A396177A9CB410FF61F20015AD\",\"ChecksumAlgorithm\":\"SHA-256\",\"ConfigurationName\":\"Web\"},{\"Checksum\":\"BA7816BF8F01CFEA414140DE5DAE2223B00361A396177A9CB410FF61F20015AD\",\"ChecksumAlgorithm\":\"SHA-256\",\"ConfigurationName\":\"web\"}]}",
        ],
    ),
    (
        Call::Fetch("Caf'é"),
        PLAIN,
        &[
            "GET /PSDSCPullServer.svc/Nodes(AgentId='00112233-4455-6677-8899-aabbccddeeff')/Configurations(ConfigurationName='Caf%27%27%C3%A9')/ConfigurationContent HTTP/1.1\r\n",
            "Host: pull.example\r\n",
            "Connection: close\r\n",
            "ProtocolVersion: 2.0\r\n\r\n",
        ],
    ),
    (
        Call::FetchModule,
        PLAIN,
        &[
            "GET /PSDSCPullServer.svc/Modules(ModuleName='xWeb',ModuleVersion='1.0%20b')/ModuleContent HTTP/1.1\r\n",
            "Host: pull.example\r\n",
            "Connection: close\r\n",
            "ProtocolVersion: 2.0\r\n\r\n",
        ],
    ),
    (
        Call::Report,
        PLAIN,
        &[
            "POST /PSDSCPullServer.svc/Nodes(AgentId='00112233-4455-6677-8899-aabbccddeeff')/SendReport HTTP/1.1\r\n",
            "Host: pull.example\r\n",
            "Connection: close\r\n",
            "ProtocolVersion: 2.0\r\n",
            "Content-Type: application/json\r\n",
            "Content-Length: 736\r\n\r\n",
            "{\"ConfigurationVersion\":\"1.0\",\"EndTime\":\"9999-12-30T22:00:00Z\",\"Errors\":[\"[File]a: NotInDesiredState\",\"[File]b: InTheWay\",\"[File]c: Skipped\",\"[File]d: RebootAsked\",\"[File]e: NotReached\",\"[File]f: HostFailed\"],\"JobId\":\"00112233-4455-6677-8899-aabbccddeef8\",\"OperationType\":\"Initial\",\"RebootRequested\":\"False\",\"RefreshMode\":\"Pull\",\"ReportFormatVersion\":\"2.0\",\"StartTime\":\"1970-01-01T00:00:00Z\",\"Status\":\"Failure\",\"StatusData\":[\"{\\\"NumberNotInDesiredState\\\":6,\\\"NumberOfResources\\\":9,\\\"Parts\\\":[{\\\"Checksum\\\":\\\"BA7816BF8F01CFEA414140DE5DAE2223B00361A396177A9CB410FF61F20015AD\\\",\\\"ConfigurationName\\\":\\\"Web\\\"},{\\\"Checksum\\\":\\\"0000000000000000000000000000000000000000000000000000000000000000\\\",\\\"ConfigurationName\\\":\\\"a\\\\\\\"b\\\\u0001é\\\"}]}\"]}",
        ],
    ),
    (
        Call::Register,
        OTHER,
        &[
            "PUT /a/PSDSCPullServer.svc/Nodes(AgentId='00112233-4455-6677-8899-aabbccddeeff') HTTP/1.1\r\n",
            "Host: pull.example:8080\r\n",
            "Connection: close\r\n",
            "ProtocolVersion: 2.0\r\n",
            "x-ms-date: 2023-11-14T22:13:20.0000000Z\r\n",
            "Authorization: Shared LrpbsKCfwHbUxoYh/DP4bNNQUi+1oGzFDWqmVH2sATw=\r\n",
            "Content-Type: application/json\r\n",
            "Content-Length: 200\r\n\r\n",
            "{\"AgentInformation\":{\"IPAddress\":\"\",\"LCMVersion\":\"2.0\",\"NodeName\":\"node \\\"1\\\"\\n\"},\"ConfigurationNames\":[\"Web\",\"Caf'é\"],\"RegistrationInformation\":{\"RegistrationMessageType\":\"ConfigurationRepository\"}}",
        ],
    ),
    (
        Call::Ask(&["Web", "Wob"]),
        OTHER,
        &[
            "POST /a/PSDSCPullServer.svc/Nodes(AgentId='00112233-4455-6677-8899-aabbccddeeff')/GetDscAction HTTP/1.1\r\n",
            "Host: pull.example:8080\r\n",
            "Connection: close\r\n",
            "ProtocolVersion: 2.0\r\n",
            "Content-Type: application/json\r\n",
            "Content-Length: 226\r\n\r\n",
            "{\"ClientStatus\":[{\"Checksum\":\"BA7816BF8F01CFEA414140DE5DAE2223B00361A396177A9CB410FF61F20015AD\",\"ChecksumAlgorithm\":\"SHA-256\",\"ConfigurationName\":\"Web\"},{\"Checksum\":\"\",\"ChecksumAlgorithm\":\"SHA-256\",\"ConfigurationName\":\"Wob\"}]}",
        ],
    ),
    (
        Call::Fetch("Caf'é"),
        OTHER,
        &[
            "GET /a/PSDSCPullServer.svc/Nodes(AgentId='00112233-4455-6677-8899-aabbccddeeff')/Configurations(ConfigurationName='Caf%27%27%C3%A9')/ConfigurationContent HTTP/1.1\r\n",
            "Host: pull.example:8080\r\n",
            "Connection: close\r\n",
            "ProtocolVersion: 2.0\r\n\r\n",
        ],
    ),
    (
        Call::FetchModule,
        OTHER,
        &[
            "GET /a/PSDSCPullServer.svc/Modules(ModuleName='xWeb',ModuleVersion='1.0%20b')/ModuleContent HTTP/1.1\r\n",
            "Host: pull.example:8080\r\n",
            "Connection: close\r\n",
            "ProtocolVersion: 2.0\r\n\r\n",
        ],
    ),
    (
        Call::Report,
        OTHER,
        &[
            "POST /a/PSDSCPullServer.svc/Nodes(AgentId='00112233-4455-6677-8899-aabbccddeeff')/SendReport HTTP/1.1\r\n",
            "Host: pull.example:8080\r\n",
            "Connection: close\r\n",
            "ProtocolVersion: 2.0\r\n",
            "Content-Type: application/json\r\n",
            "Content-Length: 736\r\n\r\n",
            "{\"ConfigurationVersion\":\"1.0\",\"EndTime\":\"9999-12-30T22:00:00Z\",\"Errors\":[\"[File]a: NotInDesiredState\",\"[File]b: InTheWay\",\"[File]c: Skipped\",\"[File]d: RebootAsked\",\"[File]e: NotReached\",\"[File]f: HostFailed\"],\"JobId\":\"00112233-4455-6677-8899-aabbccddeef8\",\"OperationType\":\"Initial\",\"RebootRequested\":\"False\",\"RefreshMode\":\"Pull\",\"ReportFormatVersion\":\"2.0\",\"StartTime\":\"1970-01-01T00:00:00Z\",\"Status\":\"Failure\",\"StatusData\":[\"{\\\"NumberNotInDesiredState\\\":6,\\\"NumberOfResources\\\":9,\\\"Parts\\\":[{\\\"Checksum\\\":\\\"BA7816BF8F01CFEA414140DE5DAE2223B00361A396177A9CB410FF61F20015AD\\\",\\\"ConfigurationName\\\":\\\"Web\\\"},{\\\"Checksum\\\":\\\"0000000000000000000000000000000000000000000000000000000000000000\\\",\\\"ConfigurationName\\\":\\\"a\\\\\\\"b\\\\u0001é\\\"}]}\"]}",
        ],
    ),
];

#[test]
fn calls_send_their_requests(rt: HostRuntime) {
    for (call, site, lines) in REQUESTS {
        assert!(rt; sends(rt.alloc(), *call, site, lines));
    }
}
