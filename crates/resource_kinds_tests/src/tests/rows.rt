//! The rows: what is asked for, as in `documents`, and machines, as in `machines`.

/// What is asked for, the machine, which of its calls fail, and the answer of a Test.
pub type TestRow = (&'static str, &'static str, &'static [u64], &'static str);

/// What is asked for, the machine, which of its calls fail, the answer of a Set, and what comes of the machine.
pub type SetRow = (
    &'static str,
    &'static str,
    &'static [u64],
    &'static str,
    &'static str,
);

pub const TESTS: &[TestRow] = &[
    ("variable editor vim", "$editor=vim", &[0], "HostFailed"),
    ("no-entries path /a", "", &[0], "HostFailed"),
    ("any-file p", "p:x", &[0], "HostFailed"),
    ("file p x", "p:x", &[0], "HostFailed"),
    ("folder p", "p/", &[0], "HostFailed"),
    ("entry m", "#[a]one=m", &[0], "HostFailed"),
    ("file p x", "p:x", &[1], "yes"),
    ("any-file p", "p?", &[], "no"),
    ("folder p", "p?", &[], "no"),
];

pub const SETS: &[SetRow] = &[
    // files
    ("file C/a/b hi", "q:x", &[], "done", "q:x C/ C/a/ C/a/b:hi"),
    ("any-file p", "", &[], "done", "p:"),
    ("file p hi", "p:old pq:x", &[], "done", "p:hi pq:x"),
    ("file p hi", "p/", &[], "InTheWay", "p/"),
    ("any-file p", "p?", &[], "InTheWay", "p?"),
    ("any-file p/q/r", "p:x", &[], "InTheWay", "p:x"),
    ("any-file p/q/r", "p/ p/q?", &[], "InTheWay", "p/ p/q?"),
    ("no-file p", "p:x pq:x", &[], "done", "pq:x"),
    ("no-file p", "p/", &[], "InTheWay", "p/"),
    ("no-file p", "", &[], "done", ""),
    // folders
    ("folder p/q", "", &[], "done", "p/ p/q/"),
    ("folder p", "p/ p/q:x", &[], "done", "p/ p/q:x"),
    ("folder p", "p:x", &[], "InTheWay", "p:x"),
    ("no-folder p", "p/ pq/", &[], "done", "pq/"),
    ("no-folder p", "p/ p/q:x", &[], "InTheWay", "p/ p/q:x"),
    ("no-folder-by-force p", "p/ p/q:x r:x", &[], "done", "r:x"),
    ("no-folder-by-force p", "p:x", &[], "InTheWay", "p:x"),
    // variables
    ("variable editor vim", "", &[], "done", "$editor=vim"),
    ("variable editor ", "$editor=vim", &[], "done", "$editor="),
    ("no-variable editor", "$editor=vim", &[], "done", ""),
    // entries that are missing are appended once and in order
    ("entries v /b;/c", "$v=/a;/b", &[], "done", "$v=/a;/b;/c"),
    ("entries v /c;/b;/c", "$v=/a", &[], "done", "$v=/a;/c;/b"),
    ("entries v ;/b;;/a;", "$v=/a", &[], "done", "$v=/a;/b"),
    ("entries v /c", "$v=/a;", &[], "done", "$v=/a;;/c"),
    ("entries v /A", "$v=/a", &[], "done", "$v=/a;/A"),
    ("entries v /a;/b", "$v=/b;/a", &[], "done", "$v=/b;/a"),
    ("entries v ", "$v=/a;", &[], "done", "$v=/a;"),
    ("entries v /a", "$v=", &[], "done", "$v=/a"),
    ("entries v /a;/a;/b", "", &[], "done", "$v=/a;/b"),
    ("entries v ", "", &[], "done", "$v="),
    // entries are taken out wherever they stand
    ("no-entries v /a;/b;/c", "$v=/a;/b;/c", &[], "done", ""),
    ("no-entries v /a", "$v=/a;/b;/a;/c", &[], "done", "$v=/b;/c"),
    ("no-entries v /a;/a", "$v=/a", &[], "done", ""),
    ("no-entries v /a", "$v=/a;", &[], "done", "$v="),
    ("no-entries v /a", "$v=/a;;/b", &[], "done", "$v=;/b"),
    ("no-entries v ;", "$v=/a;;/b", &[], "done", "$v=/a;;/b"),
    ("no-entries v /a", "$v=/ab;/a", &[], "done", "$v=/ab"),
    ("no-entries v /A", "$v=/a", &[], "done", "$v=/a"),
    ("no-entries v /a", "$v=", &[], "done", "$v="),
    ("no-entries v /a", "", &[], "done", ""),
    // the log, and wishes for a reboot
    ("entry m", "#[b]two=m", &[], "done", "#[b]two=m #[a]one=m"),
    ("entry m", "![a]one", &[], "reboot", "#[a]one=m ![a]one"),
    (
        "entry m",
        "![A]One ![a]two",
        &[],
        "done",
        "#[a]one=m ![A]One ![a]two",
    ),
    ("any-file p", "p/ ![a]one", &[], "InTheWay", "p/ ![a]one"),
    // calls that fail
    ("file p/q hi", "", &[0], "HostFailed", ""),
    ("file p/q hi", "", &[1], "HostFailed", ""),
    ("file p/q hi", "", &[2], "HostFailed", ""),
    ("file p/q hi", "", &[3], "HostFailed", "p/ p/q:hi"),
    ("file p/q hi", "", &[4], "done", "p/ p/q:hi"),
    ("entries v /a", "", &[0], "HostFailed", ""),
    ("entries v /a", "", &[1], "HostFailed", ""),
    ("entries v /a", "", &[2], "HostFailed", "$v=/a"),
];
