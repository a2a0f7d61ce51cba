use memory_outside::{
    Done as Part, HostContents, MemoryHost, PathContent, PathEntry, ReliableHost, Stop,
};
use mof_values::Bytes;
use outside_rows::host_calls::Answer::{
    Done, Empty, Failed, File, Folder, No, Nothing, Other, Yes,
};
use outside_rows::host_calls::Call::{
    AddEntry, AddPackage, HasEntry, HasPackage, Make, Put, Remove, Same, Set, State, Unset, Value,
    Wanting,
};
use outside_rows::host_calls::{Row, expect, expect_of};
use std::alloc::{AllocError, Global};
use std::test::Fail;

fn bytes(alloc: Global, text: &str) -> Result<Bytes, AllocError> {
    Ok(Bytes::of(text.as_bytes().to_vec(alloc)?))
}

fn put_link(alloc: Global, paths: &mut Vec<PathEntry>) -> Result<(), AllocError> {
    let path = bytes(alloc, "link")?;
    let stands = PathContent::Other;
    paths.push(PathEntry { path, stands })?;
    Ok(())
}

// A link at `link`, and `[log]a` wants a reboot.
fn linked(alloc: Global) -> Result<HostContents, AllocError> {
    let mut contents = HostContents::empty(alloc);
    put_link(alloc, &mut contents.paths)?;
    contents.wanting.push(bytes(alloc, "[log]a")?)?;
    Ok(contents)
}

// Each call once where it finds what it is for, and once where it does not.
const ROWS: &[Row<'_>] = &[
    (Put("a/b/c", b"hi"), Done),
    (State("a"), Folder),
    (State("a/b/c"), File),
    (State("a/bb"), Nothing),
    (State("link"), Other),
    (Same("a/b/c", b"hi"), Yes),
    (Same("a/b/c", b"h"), No),
    (Make("a/d"), Done),
    (State("a/d"), Empty),
    (Remove("a/b"), Done),
    (Remove("z"), Done),
    (State("a/b/c"), Nothing),
    (Set("path", b"/a"), Done),
    (Set("path", b"/b"), Done),
    (Value("path", b"/b"), Yes),
    (Unset("path"), Done),
    (Unset("path"), Done),
    (Value("path", b""), No),
    (AddEntry("[log]a", "one"), Done),
    (HasEntry("[log]a", "one"), Yes),
    (HasEntry("[log]a", "two"), No),
    (AddPackage("xWeb", "1.0", b"zip"), Done),
    (HasPackage("xWeb", "1.0"), Yes),
    (HasPackage("xWeb", "1.1"), No),
    (Wanting("[log]a"), Yes),
    (Wanting("[log]b"), No),
];

// Expects these answers, and that memory lasts.
fn expect_with_memory(alloc: Global, host: &mut MemoryHost, rows: &[Row<'_>]) -> Result<(), Fail> {
    expect(alloc, host, rows)?;
    if host.short() {
        return Err(Fail::new("out of memory"));
    }
    Ok(())
}

#[test]
fn with_ample_memory_each_call_is_done(rt: HostRuntime) -> Result<(), Fail> {
    expect_of(rt.alloc(), ReliableHost::of(linked(rt.alloc())?), ROWS)?;
    let mut host = MemoryHost::of(linked(rt.alloc())?, Vec::new(rt.alloc()), None);
    expect_with_memory(rt.alloc(), &mut host, ROWS)
}

// Expects of a host that stops in its call 1 these answers, and others of one that starts with its contents again.
fn expect_stopped(alloc: Global, done: Part, looks: &[Row<'_>]) -> Result<(), Fail> {
    const STOPPED: &[Row<'_>] = &[
        (Set("v", b"1"), Done),
        (Put("a", b"abcde"), Failed),
        (Unset("v"), Failed),
    ];
    let stop = Some(Stop { call: 1, done });
    let mut host = MemoryHost::of(HostContents::empty(alloc), Vec::new(alloc), stop);
    expect_with_memory(alloc, &mut host, STOPPED)?;
    expect_of(alloc, ReliableHost::of(host.into_contents()), looks)
}

#[test]
fn with_ample_memory_a_stop_leaves_its_part(rt: HostRuntime) -> Result<(), Fail> {
    const PARTS: &[(Part, Row<'_>)] = &[
        (Part::Nothing, (State("a"), Nothing)),
        (Part::Half, (Same("a", b"ab"), Yes)),
        (Part::All, (Same("a", b"abcde"), Yes)),
    ];
    for (done, look) in PARTS {
        expect_stopped(rt.alloc(), *done, &[*look, (Value("v", b"1"), Yes)])?;
    }
    Ok(())
}
