//! Pulls, and what comes of them.
use super::made::Answer::{Code, Given, Told};
use super::pulling::{Row, comes_to};

const WEB: &str =
    "instance of MSFT_WebDownloadManager{ServerURL=\"http://pull/\";ConfigurationNames={\"Web\"};};instance of MSFT_DSCMetaConfiguration{RefreshMode=\"Pull\";};";

const SECURE: &str =
    "instance of MSFT_WebDownloadManager{ServerURL=\"https://pull/\";ConfigurationNames={\"Web\"};};instance of MSFT_DSCMetaConfiguration{RefreshMode=\"Pull\";};";

// App depends on Base, and so comes after it.
const PARTIALS: &str =
    "instance of MSFT_WebDownloadManager{ServerURL=\"http://pull/\";ConfigurationNames={\"Web\"};};instance of MSFT_DSCMetaConfiguration{RefreshMode=\"Pull\";};instance of MSFT_PartialConfiguration{ResourceID=\"[PartialConfiguration]App\";DependsOn={\"[PartialConfiguration]Base\"};};instance of MSFT_PartialConfiguration{ResourceID=\"[PartialConfiguration]Base\";};";

// Base is pulled, and App is pushed.
const MODES: &str =
    "instance of MSFT_WebDownloadManager{ServerURL=\"http://pull/\";};instance of MSFT_DSCMetaConfiguration{RefreshMode=\"Push\";};instance of MSFT_PartialConfiguration{ResourceID=\"[PartialConfiguration]Base\";RefreshMode=\"Pull\";};instance of MSFT_PartialConfiguration{ResourceID=\"[PartialConfiguration]App\";};";

// App is pulled and depends on Base, which is pushed.
const ON_PUSHED: &str =
    "instance of MSFT_WebDownloadManager{ServerURL=\"http://pull/\";};instance of MSFT_DSCMetaConfiguration{RefreshMode=\"Pull\";};instance of MSFT_PartialConfiguration{ResourceID=\"[PartialConfiguration]Base\";RefreshMode=\"Push\";};instance of MSFT_PartialConfiguration{ResourceID=\"[PartialConfiguration]App\";DependsOn={\"[PartialConfiguration]Base\"};};";

const A: &str =
    "instance of MSFT_LogResource{ResourceID=\"[Log]A\";Message=\"a\";};instance of OMI_ConfigurationDocument{Version=\"2.0.0\";};";

const B: &str =
    "instance of MSFT_LogResource{ResourceID=\"[Log]B\";Message=\"b\";};instance of OMI_ConfigurationDocument{Version=\"2.0.0\";};";

const C: &str =
    "instance of MSFT_LogResource{ResourceID=\"[Log]C\";Message=\"c\";};instance of OMI_ConfigurationDocument{Version=\"2.0.0\";};";

const FETCH_ONE: &str = "{\"NodeStatus\":\"GetConfiguration\",\"Details\":[]}";

const ONE_IS_RIGHT: &str = "{\"NodeStatus\":\"Ok\",\"Details\":[]}";

const FETCH_APP: &str =
    "{\"NodeStatus\":\"GetConfiguration\",\"Details\":[{\"ConfigurationName\":\"Base\",\"Status\":\"Ok\"},{\"ConfigurationName\":\"App\",\"Status\":\"GetConfiguration\"}]}";

const APP_IS_NOT_READY: &str =
    "{\"NodeStatus\":\"RETRY\",\"Details\":[{\"ConfigurationName\":\"Base\",\"Status\":\"Ok\"},{\"ConfigurationName\":\"App\",\"Status\":\"RETRY\"}]}";

const ALL_ARE_RIGHT: &str =
    "{\"NodeStatus\":\"Ok\",\"Details\":[{\"ConfigurationName\":\"Base\",\"Status\":\"Ok\"},{\"ConfigurationName\":\"App\",\"Status\":\"Ok\"}]}";

const UPDATE: &str = "{\"NodeStatus\":\"UpdateMetaConfiguration\",\"Details\":[]}";

const PULLS: &[Row] = &[
    (WEB, &[], &[Told(FETCH_ONE), Given(A)], &[], 2, "Web;"),
    (WEB, &[("Web", A)], &[Told(ONE_IS_RIGHT)], &[], 1, "nothing"),
    // The same content again.
    (
        WEB,
        &[("Web", A)],
        &[Told(FETCH_ONE), Given(A)],
        &[],
        2,
        "nothing",
    ),
    // A part is held under its name in any case.
    (WEB, &[("web", A)], &[Told(ONE_IS_RIGHT)], &[], 1, "nothing"),
    // A part under another name is not held.
    (
        WEB,
        &[("Wob", A)],
        &[Told(ONE_IS_RIGHT)],
        &[],
        1,
        "Refused(Answer(Uncovered { name: Text { chars: ['W', 'e', 'b'] } }))",
    ),
    // What is held comes in the order of the partial configurations.
    (
        PARTIALS,
        &[("App", A), ("Base", B)],
        &[Told(FETCH_APP), Given(C)],
        &[],
        2,
        "Base;App;",
    ),
    (
        PARTIALS,
        &[("Base", B), ("App", A)],
        &[Told(ALL_ARE_RIGHT)],
        &[],
        1,
        "nothing",
    ),
    // Another order is another list.
    (
        PARTIALS,
        &[("App", A), ("Base", B)],
        &[Told(ALL_ARE_RIGHT)],
        &[],
        1,
        "Base;App;",
    ),
    (
        PARTIALS,
        &[("App", A), ("Base", B)],
        &[Told(APP_IS_NOT_READY)],
        &[],
        1,
        "Refused(Answer(Retry { name: Text { chars: ['A', 'p', 'p'] } }))",
    ),
    // A part that is no partial configuration is dropped.
    (
        PARTIALS,
        &[("Base", B), ("Old", C), ("App", A)],
        &[Told(ALL_ARE_RIGHT)],
        &[],
        1,
        "Base;App;",
    ),
    // A part that is pushed is not asked for, and stays.
    (
        MODES,
        &[("App", A)],
        &[Told(FETCH_ONE), Given(B)],
        &[],
        2,
        "Base;App;",
    ),
    (
        MODES,
        &[("Base", B), ("app", A)],
        &[Told(FETCH_ONE), Given(C)],
        &[],
        2,
        "Base;app;",
    ),
    (
        MODES,
        &[("Base", B), ("App", A)],
        &[Told(ONE_IS_RIGHT)],
        &[],
        1,
        "nothing",
    ),
    // A partial configuration needs no part.
    (MODES, &[], &[Told(FETCH_ONE), Given(B)], &[], 2, "Base;"),
    // But where one depends on it.
    (
        ON_PUSHED,
        &[],
        &[Told(FETCH_ONE), Given(A)],
        &[],
        2,
        "Refused(Fit(MissingPart { partial: 0 }))",
    ),
    (
        WEB,
        &[],
        &[Told(UPDATE)],
        &[],
        1,
        "Refused(Answer(Uncovered { name: Text { chars: ['W', 'e', 'b'] } }))",
    ),
    (
        WEB,
        &[],
        &[Told(FETCH_ONE), Code(404)],
        &[],
        2,
        "Refused(Answer(Status { code: 404 }))",
    ),
    (
        WEB,
        &[],
        &[Code(500)],
        &[],
        1,
        "Refused(Answer(Status { code: 500 }))",
    ),
    (WEB, &[], &[Told(FETCH_ONE), Given(A)], &[0], 1, "Link"),
    (WEB, &[], &[Told(FETCH_ONE), Given(A)], &[1], 2, "Link"),
    (
        WEB,
        &[],
        &[Told(FETCH_ONE), Given("abc")],
        &[],
        2,
        "Refused(Document(Part { index: 0, fault: Mof(Syntax { at: 0 }) }))",
    ),
    // One id in two parts.
    (
        PARTIALS,
        &[("Base", A)],
        &[Told(FETCH_APP), Given(A)],
        &[],
        2,
        "Refused(Document(DuplicateId { first: Spot { part: 0, index: 0 }, second: Spot { part: 1, index: 0 } }))",
    ),
    (SECURE, &[], &[], &[], 0, "Refused(Answer(NotServed))"),
];

#[test]
fn pulls_come_to_their_lists(rt: HostRuntime) {
    for (number, row) in PULLS.iter().enumerate() {
        assert!(rt; comes_to(rt.alloc(), row), "{number}");
    }
}
