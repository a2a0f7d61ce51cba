//! The rows of the tests.
use lcm_core::RunMode;

/// A mode, a document, the statuses of the programs in turn, and the entries, the end and the runs.
pub type RunRow = (RunMode, &'static str, &'static [u8], &'static str);

const ONE: &str =
    "C A Name=\"a\";TestProgram=\"/bin/t\";TestArguments={\"x\",\"y z\"};SetProgram=\"s\";SetArguments=\"q\";";

const PLAIN: &str = "C A Name=\"a\";TestProgram=\"t\";SetProgram=\"s\";";

pub const RUNS: &[RunRow] = &[
    (
        RunMode::Repair,
        ONE,
        &[1, 0, 0],
        "A?no A!done A?yes finished | /bin/t(x,y z)=1 s(q)=0 /bin/t(x,y z)=0",
    ),
    (
        RunMode::Repair,
        ONE,
        &[1, 194],
        "A?no A!reboot reboot | /bin/t(x,y z)=1 s(q)=194",
    ),
    (
        RunMode::Repair,
        ONE,
        &[],
        "A?HostFailed finished | /bin/t(x,y z)=none",
    ),
    (
        RunMode::Repair,
        PLAIN,
        &[1, 7, 1],
        "A?no A!done A?no finished | t()=1 s()=7 t()=1",
    ),
    // 194 is for a Set alone, and 0 says nothing there
    (
        RunMode::Repair,
        PLAIN,
        &[194, 0, 255],
        "A?no A!done A?no finished | t()=194 s()=0 t()=255",
    ),
    (
        RunMode::Repair,
        PLAIN,
        &[1],
        "A?no A!HostFailed finished | t()=1 s()=none",
    ),
    (
        RunMode::Repair,
        PLAIN,
        &[1, 0],
        "A?no A!done A?HostFailed finished | t()=1 s()=0 t()=none",
    ),
    (RunMode::Repair, PLAIN, &[0], "A?yes finished | t()=0"),
    (RunMode::Monitor, PLAIN, &[1], "A?no finished | t()=1"),
    // other resources are the machine's, and run nothing
    (
        RunMode::Repair,
        "E B Name=\"v\";Value=\"1\";\nC A Name=\"a\";TestProgram=\"t\";SetProgram=\"s\";DependsOn=\"[X]B\";\nE D Value=\"1\";",
        &[1, 3, 0],
        "B?no B!done B?yes A?no A!done A?yes D?OutOfProfile Name finished | t()=1 s()=3 t()=0",
    ),
    (
        RunMode::Repair,
        "C A Name=\"a\";TestProgram=\"t\";SetProgram=\"s\";\nC B Name=\"b\";TestProgram=\"u\";SetProgram=\"v\";DependsOn=\"[X]A\";",
        &[1, 0, 1],
        "A?no A!done A?no finished | t()=1 s()=0 t()=1",
    ),
];

/// The properties of a command, and the entries, the end and the runs where its Test ends with 0.
pub type FaultRow = (&'static str, &'static str);

pub const FAULTS: &[FaultRow] = &[
    (
        "Name=\"a\";TestProgram=\"t\";",
        "A?OutOfProfile SetProgram finished |",
    ),
    ("Name=\"a\";", "A?OutOfProfile TestProgram finished |"),
    ("", "A?OutOfProfile Name finished |"),
    ("SetProgram=\"s\";", "A?OutOfProfile Name finished |"),
    (
        "Name=NULL;TestProgram=NULL;SetProgram=\"s\";",
        "A?OutOfProfile Name finished |",
    ),
    (
        "Name=\"\";TestProgram=\"t\";SetProgram=\"s\";",
        "A?OutOfProfile Name finished |",
    ),
    (
        "Name=\"a\";TestProgram=\"\";SetProgram=\"s\";",
        "A?OutOfProfile TestProgram finished |",
    ),
    (
        "Name=\"a\";TestProgram={\"t\"};SetProgram=\"s\";",
        "A?OutOfProfile TestProgram finished |",
    ),
    (
        "Name=\"a\";TestProgram=\"t\";setprogram=5;",
        "A?OutOfProfile setprogram finished |",
    ),
    (
        "Name=\"a\";TestProgram=\"t\";SetProgram=\"s\";TestArguments=5;",
        "A?OutOfProfile TestArguments finished |",
    ),
    (
        "Name=\"a\";TestProgram=\"t\";SetProgram=\"s\";SetArguments={\"a\",TRUE};",
        "A?OutOfProfile SetArguments finished |",
    ),
    (
        "Name=\"a\";TestProgram=\"t\";SetProgram=\"s\";Ensure=\"Present\";",
        "A?OutOfProfile Ensure finished |",
    ),
    // a wrong property is told before one that is missing, and the first of two
    ("Force=TRUE;Path=1;", "A?OutOfProfile Force finished |"),
    // these have none
    (
        "NAME=\"a\";TestProgram=\"t\";SetProgram=\"s\";TestArguments={};SetArguments=NULL;Ensure=NULL;",
        "A?yes finished | t()=0",
    ),
    (
        "Name=\"a\";TestProgram=\"t\";SetProgram=\"s\";TestArguments=\"\";ModuleName=5;SourceInfo=\"x\";",
        "A?yes finished | t()=0",
    ),
];
