//! Starts in which one call of the disk, the host, the link or the clock fails, each in turn, and the start after each.
use crate::{Left, Outcome, Trouble, answered, started};
use dsc_node::Status;
use memory_outside::HostContents;
use mof_values::Memory;
use std::alloc::Global;
use std::test::Fail;

const META: &str =
    "instance of MSFT_WebDownloadManager{ServerURL=\"http://s/\";RegistrationKey=\"k\";ConfigurationNames={\"Web\"};};instance of MSFT_WebReportManager{ServerURL=\"http://s/\";RegistrationKey=\"k\";};instance of MSFT_DSCMetaConfiguration{RefreshMode=\"Pull\";ConfigurationMode=\"ApplyAndAutoCorrect\";};";

const DOCUMENT: &str =
    "instance of MSFT_EnvironmentResource{ResourceID=\"[Environment]E\";Name=\"E\";Value=\"1\";ModuleName=\"xWeb\";ModuleVersion=\"1.0\";};instance of OMI_ConfigurationDocument{Version=\"2.0.0\";};";

// ---- what the server answers

const REGISTERED: &str = "HTTP/1.1 204 No Content\r\n\r\n";

const CHANGED: &str = "HTTP/1.1 200 OK\r\n\r\n{\"NodeStatus\":\"GetConfiguration\",\"Details\":[]}";

const CONTENT: &str =
    "HTTP/1.1 200 OK\r\nChecksum: EF8D0E7043254A3570388913A347D0A9239AF912AB7F58B5E062464153412D48\r\n\r\ninstance of MSFT_EnvironmentResource{ResourceID=\"[Environment]E\";Name=\"E\";Value=\"1\";ModuleName=\"xWeb\";ModuleVersion=\"1.0\";};instance of OMI_ConfigurationDocument{Version=\"2.0.0\";};";

const PACKAGE: &str =
    "HTTP/1.1 200 OK\r\nChecksum: BC4A71180870F7945155FBB02F4B0A2E3FAA2A62D6D31B7039013055ED19869A\r\n\r\npackage";

const REPORTED: &str = "HTTP/1.1 200 OK\r\nContent-Length: 0\r\n\r\n";

fn answers_of(word: &str) -> &'static [&'static str] {
    match word {
        "register" => &[REGISTERED],
        "pull" => &[CHANGED, CONTENT, PACKAGE, REPORTED],
        _ => &[REPORTED, REPORTED],
    }
}

// ---- what a start prints

// Lines that a start prints, in order.
type Lines = &'static [&'static str];

const NO: &str = "test \"[Environment]E\" no\n";

const SET: &str = "set \"[Environment]E\" done\n";

const YES: &str = "test \"[Environment]E\" yes\n";

const NOT_TESTED: &str = "test \"[Environment]E\" fault HostFailed\n";

const NOT_SET: &str = "set \"[Environment]E\" fault HostFailed\n";

const GOOD: &str = "resources 1 succeeded 1\ncompliant\n";

const BAD: &str = "resources 1 succeeded 0\nnot compliant 1\n";

const PROMOTED: &str = "end promoted\n";

const NOTED: &str = "end noted\n";

const NOTHING: &str = "end nothing\n";

const FIRST: &str = "report 1 sent\n";

const SECOND: &str = "report 2 sent\n";

const THIRD: &str = "report 3 sent\n";

const FIRST_UNSENT: &str = "report 1 not sent\n";

const SECOND_UNSENT: &str = "report 2 not sent\n";

// ---- the host, the link and the clock

// An object that a start works with.
#[derive(Clone, Copy)]
enum Object {
    Disk,
    Host,
    Link,
    Clock,
}

// How a start ends, and the next one, a consistency: the name of the first one's status, and the lines of both.
type Ends = (&'static str, Lines, Lines);

// A push or a pull in whose run nothing fails; one that fails in the first Test, in the Set, after the Set, in the second Test; one whose
// report is not sent.
const DONE: Ends = (
    "Done",
    &[NO, SET, YES, GOOD, PROMOTED, FIRST],
    &[YES, GOOD, NOTED, SECOND],
);

const UNTESTED: Ends = (
    "NotCompliant",
    &[NOT_TESTED, BAD, NOTED, FIRST],
    &[NO, SET, YES, GOOD, PROMOTED, SECOND],
);

const UNSET: Ends = (
    "NotCompliant",
    &[NO, NOT_SET, BAD, NOTED, FIRST],
    &[NO, SET, YES, GOOD, PROMOTED, SECOND],
);

const UNASKED: Ends = (
    "NotCompliant",
    &[NO, NOT_SET, BAD, NOTED, FIRST],
    &[YES, GOOD, PROMOTED, SECOND],
);

const UNCONFIRMED: Ends = (
    "NotCompliant",
    &[NO, SET, NOT_TESTED, BAD, NOTED, FIRST],
    &[YES, GOOD, PROMOTED, SECOND],
);

const UNSENT: Ends = (
    "Done",
    &[NO, SET, YES, GOOD, PROMOTED, FIRST_UNSENT],
    &[YES, GOOD, NOTED, FIRST, SECOND],
);

// One that ends before it stages the document.
const CLOCK_FAULT: Ends = ("ClockFault", &[], &[NOTHING]);

const HOST_FAULT: Ends = ("HostFault", &[], &[NOTHING]);

const LINK_FAULT: Ends = ("LinkFault", &[], &[NOTHING]);

// The same of a consistency of a document that is Current.
const KEPT: Ends = (
    "Done",
    &[NO, SET, YES, GOOD, NOTED, SECOND],
    &[YES, GOOD, NOTED, THIRD],
);

const KEPT_UNTESTED: Ends = (
    "NotCompliant",
    &[NOT_TESTED, BAD, NOTED, SECOND],
    &[NO, SET, YES, GOOD, NOTED, THIRD],
);

const KEPT_UNSET: Ends = (
    "NotCompliant",
    &[NO, NOT_SET, BAD, NOTED, SECOND],
    &[NO, SET, YES, GOOD, NOTED, THIRD],
);

const KEPT_UNASKED: Ends = (
    "NotCompliant",
    &[NO, NOT_SET, BAD, NOTED, SECOND],
    &[YES, GOOD, NOTED, THIRD],
);

const KEPT_UNCONFIRMED: Ends = (
    "NotCompliant",
    &[NO, SET, NOT_TESTED, BAD, NOTED, SECOND],
    &[YES, GOOD, NOTED, THIRD],
);

const KEPT_UNSENT: Ends = (
    "Done",
    &[NO, SET, YES, GOOD, NOTED, SECOND_UNSENT],
    &[YES, GOOD, NOTED, SECOND, THIRD],
);

const KEPT_CLOCK_FAULT: Ends = ("ClockFault", &[], &[NO, SET, YES, GOOD, NOTED, SECOND]);

// The word of a start, an object, and for each call of it how the start ends where that call fails, and at last how it ends where
// none does.
type Row = (&'static str, Object, &'static [Ends]);

// A run tests, sets, asks whether a reboot is wanted and tests again; before it a pull looks for the package and puts it there. A report
// is one exchange; before it a pull asks, and fetches the content and the package. The clock is read at the beginning and after the run, and
// where that reading fails the report ends when it began.
const ROWS: &[Row] = &[
    (
        "push",
        Object::Host,
        &[UNTESTED, UNSET, UNASKED, UNCONFIRMED, DONE],
    ),
    ("push", Object::Link, &[UNSENT, DONE]),
    ("push", Object::Clock, &[CLOCK_FAULT, DONE, DONE]),
    (
        "pull",
        Object::Host,
        &[
            HOST_FAULT,
            HOST_FAULT,
            UNTESTED,
            UNSET,
            UNASKED,
            UNCONFIRMED,
            DONE,
        ],
    ),
    (
        "pull",
        Object::Link,
        &[LINK_FAULT, LINK_FAULT, LINK_FAULT, UNSENT, DONE],
    ),
    ("pull", Object::Clock, &[CLOCK_FAULT, DONE, DONE]),
    (
        "consistency",
        Object::Host,
        &[
            KEPT_UNTESTED,
            KEPT_UNSET,
            KEPT_UNASKED,
            KEPT_UNCONFIRMED,
            KEPT,
        ],
    ),
    ("consistency", Object::Link, &[KEPT_UNSENT, KEPT]),
    (
        "consistency",
        Object::Clock,
        &[KEPT_CLOCK_FAULT, KEPT, KEPT],
    ),
];

// ---- the disk

// The calls of the disk that a body takes, which an event adds. Those of the opening are before the first one.
const BODY_CALLS: usize = 4;

// For each body that a start adds, from the last one on, and then for its opening, where a call of the disk fails in it: the lines that
// are printed, and those that the next start may print, which finds the node before the event or after it.
type Step = (Lines, &'static [Lines]);

const RAN: Lines = &[NO, SET, YES, GOOD];

// The report is marked as sent, the document is promoted, and before its run it is staged, after its bytes, which change no node.
const STAGING: &[Step] = &[
    (
        RAN,
        &[
            &[YES, GOOD, NOTED, FIRST, SECOND],
            &[YES, GOOD, NOTED, SECOND],
        ],
    ),
    (
        RAN,
        &[
            &[YES, GOOD, PROMOTED, FIRST],
            &[YES, GOOD, NOTED, FIRST, SECOND],
        ],
    ),
    (&[], &[&[NOTHING], &[NO, SET, YES, GOOD, PROMOTED, FIRST]]),
    (&[], &[&[NOTHING]]),
    (&[], &[&[NOTHING]]),
];

// The report is marked as sent, and before that it is kept.
const KEEPING: &[Step] = &[
    (
        RAN,
        &[
            &[YES, GOOD, NOTED, SECOND, THIRD],
            &[YES, GOOD, NOTED, THIRD],
        ],
    ),
    (
        RAN,
        &[
            &[YES, GOOD, NOTED, SECOND],
            &[YES, GOOD, NOTED, SECOND, THIRD],
        ],
    ),
    (&[], &[&[NO, SET, YES, GOOD, NOTED, SECOND]]),
];

// ---- starts

// What a start without a failure leaves.
fn left_after(alloc: Global, left: Left, word: &str, text: &str) -> Result<Left, Memory> {
    Ok(answered(alloc, left, word, text, answers_of(word), &Trouble::none())?.1)
}

// The store of a node that is registered, and before a consistency has the document as Current.
fn store_before(alloc: Global, word: &str) -> Result<Vec<u8>, Memory> {
    let left = Left {
        store: Vec::new(alloc),
        host: HostContents::empty(alloc),
    };
    let left = left_after(alloc, left, "init", "")?;
    let left = left_after(alloc, left, "meta", META)?;
    let left = left_after(alloc, left, "register", "n")?;
    if word != "consistency" {
        return Ok(left.store);
    }
    Ok(left_after(alloc, left, "push", DOCUMENT)?.store)
}

// The start of the word over this store and a machine that holds nothing, which meets this trouble, and the consistency after it.
fn applied(
    alloc: Global,
    store: &[u8],
    word: &str,
    trouble: &Trouble<'_>,
) -> Result<(Outcome, Outcome), Memory> {
    let left = Left {
        store: store.to_vec(alloc)?,
        host: HostContents::empty(alloc),
    };
    let (end, left) = answered(alloc, left, word, DOCUMENT, answers_of(word), trouble)?;
    let (word, none) = ("consistency", Trouble::none());
    Ok((
        end,
        answered(alloc, left, word, "", answers_of(word), &none)?.0,
    ))
}

// What fails: this call of the object.
fn failing(object: Object, call: &[u64]) -> Trouble<'_> {
    let none: &[u64] = &[];
    let (disk, host, link, clock) = match object {
        Object::Disk => (call, none, none, none),
        Object::Host => (none, call, none, none),
        Object::Link => (none, none, call, none),
        Object::Clock => (none, none, none, call),
    };
    Trouble {
        disk,
        host,
        link,
        clock,
        is_set_back: false,
    }
}

// Whether the text is these lines.
fn prints(text: &str, lines: Lines) -> bool {
    let mut left = text;
    for line in lines {
        match left.strip_prefix(*line) {
            Some(rest) => left = rest,
            None => return false,
        }
    }
    left.is_empty()
}

// Whether a start and the next one end so.
fn end_so(end: &Outcome, next: &Outcome, ends: &Ends) -> bool {
    let (status, lines, next_lines) = ends;
    end.status.name() == *status
        && prints(end.lines.as_str(), lines)
        && matches!(next.status, Status::Done)
        && prints(next.lines.as_str(), next_lines)
}

// Whether the start of the word ends so where this call of the object fails.
fn fails_so(
    alloc: Global,
    store: &[u8],
    word: &str,
    object: Object,
    call: usize,
    ends: &Ends,
) -> Result<bool, Memory> {
    let (end, next) = applied(alloc, store, word, &failing(object, &[call as u64]))?;
    Ok(end_so(&end, &next, ends))
}

// The first call of the row whose failure ends otherwise.
fn first_wrong_end(alloc: Global, row: &Row) -> Result<Option<usize>, Memory> {
    let (word, object, all_ends) = row;
    let store = store_before(alloc, word)?;
    for (call, ends) in all_ends.iter().enumerate() {
        if !fails_so(alloc, &store, word, *object, call, ends)? {
            return Ok(Some(call));
        }
    }
    Ok(None)
}

// Whether the text is one of these.
fn prints_one(text: &str, all_lines: &[Lines]) -> bool {
    for lines in all_lines {
        if prints(text, lines) {
            return true;
        }
    }
    false
}

// Whether a start met a failure of the disk in this step, and the next one goes on from it.
fn goes_on(end: &Outcome, next: &Outcome, step: Option<&Step>) -> bool {
    let Some((ran, after)) = step else {
        return false;
    };
    matches!(end.status, Status::DiskFault)
        && prints(end.lines.as_str(), ran)
        && matches!(next.status, Status::Done)
        && prints_one(next.lines.as_str(), after)
}

// Whether the start of the word, and the next one, go on so where this call of the disk fails.
fn fails_in(
    alloc: Global,
    store: &[u8],
    word: &str,
    call: usize,
    step: Option<&Step>,
) -> Result<bool, Memory> {
    let (end, next) = applied(alloc, store, word, &failing(Object::Disk, &[call as u64]))?;
    Ok(goes_on(&end, &next, step))
}

// How many calls of the disk the start of the word makes.
fn calls_of(alloc: Global, store: &[u8], word: &str) -> Result<usize, Memory> {
    Ok(applied(alloc, store, word, &Trouble::none())?.0.calls)
}

// The first call of the disk, counted from the last one of the start, whose failure ends otherwise, or the number of the calls where
// they are too few for these steps.
fn first_wrong_call(alloc: Global, word: &str, steps: &[Step]) -> Result<Option<usize>, Memory> {
    let store = store_before(alloc, word)?;
    let calls = calls_of(alloc, &store, word)?;
    for (back, call) in (0..calls).rev().enumerate() {
        let step = steps.get(back / BODY_CALLS).or(steps.last());
        if !fails_in(alloc, &store, word, call, step)? {
            return Ok(Some(back));
        }
    }
    Ok((calls / BODY_CALLS < steps.len()).then_some(calls))
}

#[test]
fn each_call_of_an_object_may_fail(rt: HostRuntime) -> Result<(), Fail> {
    for (place, row) in ROWS.iter().enumerate() {
        assert_eq!(rt; first_wrong_end(rt.alloc(), row)?, None, "row {place}");
    }
    for (word, steps) in [
        ("push", STAGING),
        ("pull", STAGING),
        ("consistency", KEEPING),
    ] {
        assert_eq!(rt; first_wrong_call(rt.alloc(), word, steps)?, None, "{word}");
    }
    Ok(())
}

// ---- a document without resources

const EMPTY: &str = "instance of OMI_ConfigurationDocument { };\n";

// The greatest number, from 1, of a call of the disk whose failure ends the push of it to a new node with DiskFault. `checks/rehearse`
// has the same number: that of the last call in which this push can stop.
const LAST_CALL: u64 = 23;

// Whether the push to this store ends so where this call fails, counted from 0.
fn push_fails(alloc: Global, store: &[u8], call: u64) -> Result<bool, Memory> {
    let left = Left {
        store: store.to_vec(alloc)?,
        host: HostContents::empty(alloc),
    };
    let (end, _) = started(alloc, left, "push", EMPTY, &failing(Object::Disk, &[call]))?;
    Ok(matches!(end.status, Status::DiskFault))
}

fn last_call_that_fails(alloc: Global) -> Result<u64, Memory> {
    let left = Left {
        store: Vec::new(alloc),
        host: HostContents::empty(alloc),
    };
    let store = left_after(alloc, left, "init", "")?.store;
    let mut last = 0;
    for call in 0..2 * LAST_CALL {
        if push_fails(alloc, &store, call)? {
            last = call.saturating_add(1);
        }
    }
    Ok(last)
}

#[test]
fn a_push_without_resources_makes_so_many_calls_of_its_disk(rt: HostRuntime) -> Result<(), Fail> {
    assert_eq!(rt; last_call_that_fails(rt.alloc())?, LAST_CALL);
    Ok(())
}
