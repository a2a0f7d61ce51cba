//! A folder that is a host, over files of the system of which each call is counted, and one fails.
use super::scratch::make_folder;
use super::watched_files::SystemCall::{
    Compare, Create, Find, List, Locate, Look, MakeFolder, Mode, Mounts, Open, Read, RemoveFolder,
    Rename, Sync, SyncFolder, Unlink, Write,
};
use super::watched_files::{SystemCall, Watch, WatchedFiles};
use outside_rows::host_calls::Answer::{Done, Empty, Failed, File, Folder, No, Nothing, Yes};
use outside_rows::host_calls::Call::{
    AddEntry, AddPackage, HasEntry, HasPackage, Make, Put, Remove, Same, Set, State, Unset, Value,
};
use outside_rows::host_calls::{Row, expect_of, expect_one_of};
use real_outside::FolderHost;
use std::alloc::{AllocError, Global};
use std::fs::Permissions;
use std::io::ErrorKind;
use std::os::fd::{AsFd, AsRawFd};
use std::os::unix::fs::PermissionsExt;
use std::rt::Files;
use std::test::Fail;
use std::{fs, io};

// A call and its answer; the calls of the system that it makes; and what is found after it, where it failed before
// its change, and where it was done.
type Case<'a> = (Row<'a>, &'a [SystemCall], &'a [Row<'a>], &'a [Row<'a>]);

const BEFORE: &[Row<'_>] = &[
    (Put("a/file", b"old"), Done),
    (Make("b/c"), Done),
    (Set("path", b"old"), Done),
];

const CASES: &[Case<'_>] = &[
    (
        (Put("a/file", b"new"), Done),
        &[
            Look, Find, Locate, Look, Find, List, Look, Create, Write, Write, Sync, Compare, Mode,
            Rename, Locate, Open, SyncFolder,
        ],
        &[(Same("a/file", b"old"), Yes)],
        &[(Same("a/file", b"new"), Yes)],
    ),
    (
        (Put("a/other", b"new"), Done),
        &[
            Look, Find, Locate, Look, Find, List, Look, Create, Write, Write, Sync, Rename, Locate,
            Open, SyncFolder,
        ],
        &[(State("a/other"), Nothing)],
        &[(Same("a/other", b"new"), Yes)],
    ),
    (
        (Make("d"), Done),
        &[
            Look, Find, Locate, Look, Find, MakeFolder, Open, SyncFolder, Look, Find, Open,
            SyncFolder,
        ],
        &[(State("d"), Nothing)],
        &[(State("d"), Empty)],
    ),
    (
        (Remove("a/file"), Done),
        &[
            Look, Find, Locate, Look, Find, Look, Unlink, Open, SyncFolder,
        ],
        &[(Same("a/file", b"old"), Yes)],
        &[(State("a"), Empty)],
    ),
    (
        (Remove("b/c"), Done),
        &[
            Look,
            Find,
            Locate,
            Look,
            Find,
            Look,
            Find,
            Mounts,
            Open,
            Read,
            Read,
            Open,
            Read,
            Read,
            Find,
            Open,
            Read,
            Read,
            Find,
            Open,
            Read,
            Read,
            RemoveFolder,
            Open,
            SyncFolder,
        ],
        &[(State("b/c"), Empty)],
        &[(State("b/c"), Nothing)],
    ),
    (
        (Remove("b"), Done),
        &[
            Look,
            Find,
            Locate,
            Look,
            Find,
            Mounts,
            Open,
            Read,
            Read,
            Open,
            Read,
            Read,
            Find,
            Open,
            Read,
            Read,
            Find,
            Open,
            Read,
            Read,
            Find,
            Find,
            Open,
            Read,
            Read,
            Find,
            Open,
            Read,
            Read,
            Find,
            RemoveFolder,
            Open,
            SyncFolder,
        ],
        &[(State("b"), Folder)],
        &[(State("b/c"), Nothing)],
    ),
    (
        (State("a/file"), File),
        &[Look, Find, Locate, Look, Find, Look],
        &[],
        &[],
    ),
    (
        (State("b"), Folder),
        &[Look, Find, Locate, Look, List],
        &[],
        &[],
    ),
    (
        (Same("a/file", b"old"), Yes),
        &[
            Look, Find, Locate, Look, Find, Look, Open, Compare, Look, Read, Read,
        ],
        &[],
        &[],
    ),
    (
        (Value("path", b"old"), Yes),
        &[Look, Find, Locate, Look, Open, Compare, Look, Read, Read],
        &[],
        &[],
    ),
    (
        (Set("path", b"new"), Done),
        &[
            Look, Find, Locate, List, Look, Create, Write, Write, Sync, Compare, Mode, Rename,
            Locate, Open, SyncFolder,
        ],
        &[(Value("path", b"old"), Yes)],
        &[(Value("path", b"new"), Yes)],
    ),
    (
        (Unset("path"), Done),
        &[Look, Find, Locate, Look, Unlink, Open, SyncFolder],
        &[(Value("path", b"old"), Yes)],
        &[(Value("path", b""), No)],
    ),
    (
        (AddEntry("i", "m"), Done),
        &[
            Look, MakeFolder, MakeFolder, Open, SyncFolder, Look, Find, Locate, Open, SyncFolder,
            List, Look, Create, Write, Write, Sync, Rename, Locate, Open, SyncFolder,
        ],
        &[(HasEntry("i", "m"), No)],
        &[(HasEntry("i", "m"), Yes)],
    ),
    (
        (AddPackage("name", "1", b"new"), Done),
        &[
            Look, MakeFolder, MakeFolder, Open, SyncFolder, Look, Find, Locate, Open, SyncFolder,
            List, Look, Create, Write, Write, Sync, Rename, Locate, Open, SyncFolder,
        ],
        &[(HasPackage("name", "1"), No)],
        &[(HasPackage("name", "1"), Yes)],
    ),
];

// The folder of the host.
fn folder_in(alloc: Global, scratch: &str) -> Result<String, AllocError> {
    format!(in alloc; "{scratch}/host")
}

// Expects these answers of a host in that folder.
fn expect_in<F: Files + Drop>(
    alloc: Global,
    files: F,
    folder: String,
    rows: &[Row<'_>],
) -> Result<(), Fail>
where
    F::File: AsFd + AsRawFd,
{
    expect_of(alloc, FolderHost::new(files, folder, None, 0), rows)
}

// Expects of a host in that folder the first answers, or the second.
fn expect_one_in<F: Files + Drop>(
    alloc: Global,
    files: F,
    folder: String,
    first: &[Row<'_>],
    second: &[Row<'_>],
) -> Result<(), Fail>
where
    F::File: AsFd + AsRawFd,
{
    expect_one_of(
        alloc,
        FolderHost::new(files, folder, None, 0),
        first,
        second,
    )
}

fn make_before(rt: &HostRuntime, scratch: &str) -> Result<(), Fail> {
    expect_in(rt.alloc(), rt, folder_in(rt.alloc(), scratch)?, BEFORE)
}

fn expect_watched(
    rt: &HostRuntime,
    scratch: &str,
    watch: &Watch<'_>,
    row: Row<'_>,
) -> Result<(), Fail> {
    let folder = folder_in(rt.alloc(), scratch)?;
    expect_in(rt.alloc(), WatchedFiles { rt, watch }, folder, &[row])
}

fn expect_after(
    rt: &HostRuntime,
    scratch: &str,
    undone: &[Row<'_>],
    done: &[Row<'_>],
) -> Result<(), Fail> {
    let folder = folder_in(rt.alloc(), scratch)?;
    expect_one_in(rt.alloc(), rt, folder, undone, done)
}

// Returns whether a name in that folder, where it is there, is one of a file that is being written.
fn has_staged(rt: &HostRuntime, scratch: &str, folder: &str) -> io::Result<bool> {
    let place = format!(in rt.alloc(); "{scratch}/host/{folder}")?;
    if !fs::exists(rt, place.as_str())? {
        return Ok(false);
    }
    for entry in fs::read_dir(rt, place.as_str())? {
        let entry = entry?;
        if entry.file_name().starts_with(".nimchout-staged") {
            return Ok(true);
        }
    }
    Ok(false)
}

fn expect_nothing_staged(rt: &HostRuntime, scratch: &str) -> Result<(), Fail> {
    for folder in ["root/a", "env", "log", "packages"] {
        if has_staged(rt, scratch, folder)? {
            return Err(Fail::new("a file that was being written is left"));
        }
    }
    Ok(())
}

// Makes the call over files that are watched, and expects its answer, and that all of the first rows or all of the
// second have theirs after it.
fn play(
    rt: &HostRuntime,
    watch: &Watch<'_>,
    row: Row<'_>,
    undone: &[Row<'_>],
    done: &[Row<'_>],
) -> Result<(), Fail> {
    let scratch = make_folder(rt)?;
    make_before(rt, &scratch)?;
    expect_watched(rt, &scratch, watch, row)?;
    expect_after(rt, &scratch, undone, done)?;
    expect_nothing_staged(rt, &scratch)?;
    fs::remove_dir_all(rt, scratch)?;
    Ok(())
}

// Makes the call, and expects that it makes these calls of the system and no other.
fn expect_done(rt: &HostRuntime, case: &Case<'_>) -> Result<(), Fail> {
    let (row, calls, _, done) = case;
    let watch = Watch::new(calls, usize::MAX, ErrorKind::Other);
    play(rt, &watch, *row, done, done)?;
    watch.expect_all()
}

// Makes the call where that call of the system fails. It does without an answer to where the system has something.
fn expect_failing(rt: &HostRuntime, case: &Case<'_>, failing: usize) -> Result<(), Fail> {
    let ((call, answer), calls, undone, done) = case;
    let watch = Watch::new(&[], failing, ErrorKind::StorageFull);
    if matches!(calls.get(failing), Some(Locate)) {
        return play(rt, &watch, (*call, *answer), done, done);
    }
    play(rt, &watch, (*call, Failed), undone, done)
}

// The table is read in one place, since each place costs its proof again.
#[test]
fn each_call_takes_its_steps_and_one_that_fails_leaves_the_old_or_the_new(
    rt: HostRuntime,
) -> Result<(), Fail> {
    for case in CASES {
        expect_done(&rt, case)?;
        for failing in 0..case.1.len() {
            expect_failing(&rt, case, failing)?;
        }
    }
    Ok(())
}

// How a call of the system fails, its number, and the answer.
const DENIED: &[(Row<'_>, ErrorKind, usize)] = &[
    ((State("a/file"), Failed), ErrorKind::PermissionDenied, 0),
    ((State("a/file"), Failed), ErrorKind::PermissionDenied, 1),
    ((State("a/file"), Failed), ErrorKind::PermissionDenied, 3),
    ((State("a/file"), Failed), ErrorKind::PermissionDenied, 5),
    (
        (Same("a/file", b"old"), Failed),
        ErrorKind::PermissionDenied,
        6,
    ),
    ((State("b/c"), Folder), ErrorKind::PermissionDenied, 6),
    ((Value("path", b""), Failed), ErrorKind::PermissionDenied, 0),
    ((Value("path", b""), Failed), ErrorKind::PermissionDenied, 4),
    ((HasEntry("i", "m"), Failed), ErrorKind::PermissionDenied, 0),
    // What is not found by its path, or whose path is too long, may still be in the folder that is held.
    ((Same("a/file", b"old"), Yes), ErrorKind::InvalidFilename, 6),
    ((Same("a/file", b"old"), Yes), ErrorKind::NotFound, 6),
    ((Value("path", b"old"), Yes), ErrorKind::NotFound, 4),
    // As where /proc is missing: what is not found there may still be in the folder.
    ((State("a/file"), Failed), ErrorKind::NotFound, 1),
    ((State("a/none"), Failed), ErrorKind::NotFound, 6),
    ((Value("none", b""), Failed), ErrorKind::NotFound, 4),
    ((Remove("b/c"), Failed), ErrorKind::NotFound, 7),
];

// What stands where nothing was changed.
const UNCHANGED: &[Row<'_>] = &[
    (Same("a/file", b"old"), Yes),
    (State("b/c"), Empty),
    (State("d"), Nothing),
    (Value("path", b"old"), Yes),
];

// Calls of which some calls of the system in a row find nothing: the numbers of the first and the last of these.
const NOT_FOUND: &[(Row<'_>, usize, usize)] = &[
    // What goes after it was seen is not there.
    ((Same("a/file", b"old"), No), 6, 7),
    ((Value("path", b""), No), 4, 5),
    // As where /proc goes meanwhile.
    ((State("a/file"), Failed), 1, usize::MAX),
    ((State("a/file"), Failed), 3, usize::MAX),
    ((State("a/file"), Failed), 4, usize::MAX),
    ((State("a/file"), Failed), 5, usize::MAX),
    ((Same("a/file", b"old"), Failed), 6, usize::MAX),
    ((Put("a/file", b"new"), Failed), 5, usize::MAX),
    ((Put("a/file", b"new"), Failed), 6, usize::MAX),
    ((Put("a/file", b"new"), Failed), 7, usize::MAX),
    ((Make("d"), Failed), 3, usize::MAX),
    ((Make("d"), Failed), 5, usize::MAX),
    ((Remove("a/file"), Failed), 5, usize::MAX),
    ((Remove("a/file"), Failed), 6, usize::MAX),
    ((Remove("b/c"), Failed), 5, usize::MAX),
    ((Remove("b/c"), Failed), 6, usize::MAX),
    ((Value("path", b""), Failed), 3, usize::MAX),
    ((Value("path", b""), Failed), 4, usize::MAX),
    ((Unset("path"), Failed), 3, usize::MAX),
    ((Unset("path"), Failed), 4, usize::MAX),
];

#[test]
fn what_may_not_be_looked_at_is_not_taken_for_nothing(rt: HostRuntime) -> Result<(), Fail> {
    for (row, kind, failing) in DENIED {
        let watch = Watch::new(&[], *failing, *kind);
        play(&rt, &watch, *row, &[], &[])?;
    }
    for (row, first, last) in NOT_FOUND {
        let watch = Watch::lasting(*first, *last, ErrorKind::NotFound);
        play(&rt, &watch, *row, UNCHANGED, UNCHANGED)?;
    }
    Ok(())
}

// Calls on one host, and the calls of the system that they make.
const ROWS: &[Row<'_>] = &[
    (State("a/file"), File),
    (Same("a/file", b"old"), Yes),
    (State("b"), Folder),
    (Put("a/other", b"new"), Done),
    (Same("a/other", b"new"), Yes),
    (Same("a/other", b"new"), Yes),
    (Remove("a/other"), Done),
    (Put("a/other", b"new"), Done),
    (Same("a/other", b"neu"), No),
    (State("a"), Folder),
    (Same("a/none", b""), No),
    (State("a/none"), Nothing),
    (Put("a/other", b"2"), Done),
    (Same("a/other", b"2"), Yes),
    (State("b/c"), Empty),
    (Make("b/c"), Done),
    (State("b"), Folder),
    (State("a/free"), Nothing),
    (Put("a/free", b"1"), Done),
];

const HELD: &[SystemCall] = &[
    Look, Find, Locate, Look, Find, Look, // The folders are held: what is opened by the whole path is where the file is to be.
    Look, Open, Compare, Locate, Read, // The first of them is held, and looked at again.
    Look, Look, List, // Both stand: the path leads to the last one, and no link is in it.
    Look, Locate, List, Look, Create, Write, Write, Sync, Rename, Locate, Open, SyncFolder,
    // What was placed is still open, and stands at its path.
    Look, Compare, Locate, // It is open no more.
    Look, Open, Compare, Locate, Read, // It is taken away, and placed once more.
    Look, Locate, Look, Unlink, Open, SyncFolder, Look, Locate, Look, Create, Write, Write, Sync,
    Rename, Locate, SyncFolder, // It has other bytes than these, as it is read by its path.
    Look, Compare, Locate, Open, Compare, Locate, Read,
    // A name that the folder had is there, and the folder is where it was.
    Look, Locate, // Nothing is there.
    Look, Locate, Look, Locate, // The folder is open, and is synced as it is.
    Look, Locate, Look, Create, Write, Sync, Compare, Mode, Rename, Locate, SyncFolder, Look, Open,
    Compare, Locate, Read, // Another folder takes the place of the second one.
    Look, Look, Find, Look, List, Look, Locate, Look, Find, Look, Locate,
    // Nothing is there, and is not looked for once more by the next call.
    Look, Look, Find, Look, Find, Look, Locate, Create, Write, Sync, Rename, Locate, SyncFolder,
];

// Another user than root may change the names in the folder `a` too.
fn expect_rows(rt: &HostRuntime, watch: &Watch<'_>) -> Result<(), Fail> {
    let scratch = make_folder(rt)?;
    make_before(rt, &scratch)?;
    let folder = folder_in(rt.alloc(), &scratch)?;
    let shared = format!(in rt.alloc(); "{folder}/root/a")?;
    fs::set_permissions(rt, shared, Permissions::from_mode(0o777))?;
    expect_in(rt.alloc(), WatchedFiles { rt, watch }, folder, ROWS)?;
    Ok(fs::remove_dir_all(rt, scratch)?)
}

#[test]
fn folders_stay_held_from_one_call_to_the_next(rt: HostRuntime) -> Result<(), Fail> {
    let watch = Watch::new(HELD, usize::MAX, ErrorKind::Other);
    expect_rows(&rt, &watch)?;
    watch.expect_all()
}

#[test]
fn the_answers_are_the_same_where_the_system_does_not_say_where_folders_are(
    rt: HostRuntime,
) -> Result<(), Fail> {
    expect_rows(&rt, &Watch::lost())
}

// The file is taken away between its look and its opening, another one is made at that place outside, which may be given the number of the
// first, and a link to it stands where the first one stood.
fn expect_failed_after_a_swap(rt: &HostRuntime, other: &str) -> Result<(), Fail> {
    let scratch = make_folder(rt)?;
    make_before(rt, &scratch)?;
    let outside = format!(in rt.alloc(); "{scratch}/{other}")?;
    let watch = Watch::swapping(&outside);
    expect_watched(rt, &scratch, &watch, (Same("a/file", b"old"), Failed))?;
    if !watch.has_swapped() {
        return Err(Fail::new("nothing came in between"));
    }
    Ok(fs::remove_dir_all(rt, scratch)?)
}

#[test]
fn a_file_that_comes_with_the_number_of_the_one_that_was_seen_is_not_read(
    rt: HostRuntime,
) -> Result<(), Fail> {
    expect_failed_after_a_swap(&rt, "other")?;
    expect_failed_after_a_swap(&rt, "host/root/b/other")?;
    expect_failed_after_a_swap(&rt, "host/root/a/other")
}
