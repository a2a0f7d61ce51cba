//! The system's files, of which each call is counted and compared, and one fails.
use std::alloc::Allocator;
use std::cell::Cell;
use std::fs::{Metadata, OpenFile, OpenOptions, Permissions};
use std::io;
use std::io::{ErrorKind, PipeReader, PipeWriter, Read, Seek, SeekFrom, Write};
use std::os::fd::{AsFd, AsRawFd, BorrowedFd};
use std::os::unix::net::SocketAddr;
use std::path::PathBuf;
use std::rt::Files;
use std::test::Fail;

/// A call of the system.
#[derive(Clone, Copy, PartialEq, Eq)]
pub enum SystemCall {
    /// Looks at a path, a link as itself.
    Look,

    /// Looks at what a descriptor's path below `/proc` leads to.
    Find,

    /// Asks where the system has what a descriptor is open on.
    Locate,
    Open,

    /// Looks at what was opened.
    Compare,

    /// Opens the table of mounts, of which the length is the machine's.
    Mounts,
    Create,
    Read,
    Write,
    Sync,
    SyncFolder,
    Mode,
    Rename,
    Unlink,
    MakeFolder,
    RemoveFolder,
    List,
}

/// The calls that are to be made, the numbers of the first and the last one that fail, and how.
#[derive(Drop)]
pub struct Watch<'a> {
    wanted: &'a [SystemCall],
    first: usize,
    last: usize,
    kind: ErrorKind,
    begun: Cell<usize>,
    differs: Cell<bool>,
    other: Option<&'a str>,
    swapped: Cell<bool>,
    is_lost: bool,
}

impl<'a> Watch<'a> {
    pub fn new(wanted: &'a [SystemCall], failing: usize, kind: ErrorKind) -> Watch<'a> {
        Watch {
            wanted,
            first: failing,
            last: failing,
            kind,
            begun: Cell::new(0),
            differs: Cell::new(false),
            other: None,
            swapped: Cell::new(false),
            is_lost: false,
        }
    }

    /// None fails. When `a/file` is opened, it is taken away, the other one is made, and a link to that takes its place.
    pub fn swapping(other: &'a str) -> Watch<'a> {
        Watch {
            other: Some(other),
            ..Watch::new(&[], usize::MAX, ErrorKind::Other)
        }
    }

    /// Each question of where the system has something fails, and no other call.
    pub fn lost() -> Watch<'a> {
        Watch {
            is_lost: true,
            ..Watch::new(&[], usize::MAX, ErrorKind::Other)
        }
    }

    /// Answers whether the link took the place.
    pub fn has_swapped(&self) -> bool {
        self.swapped.get()
    }

    /// All calls from the first to the last of these fail, whatever they are.
    pub fn lasting(first: usize, last: usize, kind: ErrorKind) -> Watch<'a> {
        Watch {
            wanted: &[],
            first,
            last,
            kind,
            begun: Cell::new(0),
            differs: Cell::new(false),
            other: None,
            swapped: Cell::new(false),
            is_lost: false,
        }
    }

    /// Expects that all these calls were made, in their order, and no other.
    pub fn expect_all(&self) -> Result<(), Fail> {
        if !self.differs.get() && self.begun.get() == self.wanted.len() {
            return Ok(());
        }
        Err(Fail::new("these are not the calls of the system"))
    }

    fn begin(&self, call: SystemCall) -> io::Result<()> {
        let number = self.begun.get();
        self.begun.set(number.saturating_add(1));
        if self.wanted.get(number) != Some(&call) {
            self.differs.set(true);
        }
        if self.first <= number && number <= self.last {
            return Err(io::Error::from(self.kind));
        }
        Ok(())
    }
}

/// Files of which a write takes two bytes at most.
#[derive(Drop)]
pub struct WatchedFiles<'a, R: Files> {
    pub rt: R,
    pub watch: &'a Watch<'a>,
}

#[derive(Drop)]
pub struct WatchedFile<'a, F: Read + Write + Seek + OpenFile + Drop> {
    file: F,
    watch: &'a Watch<'a>,
    writes: bool,
    is_table: bool,
}

impl<'a, F: Read + Write + Seek + OpenFile + AsFd + Drop> AsFd for WatchedFile<'a, F> {
    fn as_fd(&self) -> BorrowedFd<'_> {
        self.file.as_fd()
    }
}

impl<'a, F: Read + Write + Seek + OpenFile + AsRawFd + Drop> AsRawFd for WatchedFile<'a, F> {
    fn as_raw_fd(&self) -> i32 {
        self.file.as_raw_fd()
    }
}

impl<'a, F: Read + Write + Seek + OpenFile + Drop> Read for WatchedFile<'a, F> {
    fn read(&mut self, buf: &mut [u8]) -> io::Result<usize> {
        if !self.is_table {
            self.watch.begin(SystemCall::Read)?;
        }
        self.file.read(buf)
    }
}

impl<'a, F: Read + Write + Seek + OpenFile + Drop> Write for WatchedFile<'a, F> {
    fn write(&mut self, buf: &[u8]) -> io::Result<usize> {
        self.watch.begin(SystemCall::Write)?;
        self.file.write(&buf[..buf.len().min(2)])
    }

    fn flush(&mut self) -> io::Result<()> {
        self.file.flush()
    }
}

impl<'a, F: Read + Write + Seek + OpenFile + Drop> Seek for WatchedFile<'a, F> {
    fn seek(&mut self, to: SeekFrom) -> io::Result<u64> {
        self.file.seek(to)
    }
}

impl<'a, F: Read + Write + Seek + OpenFile + Drop> OpenFile for WatchedFile<'a, F> {
    fn metadata(&self) -> io::Result<Metadata> {
        self.watch.begin(SystemCall::Compare)?;
        self.file.metadata()
    }

    fn set_len(&self, size: u64) -> io::Result<()> {
        self.file.set_len(size)
    }

    fn sync_all(&self) -> io::Result<()> {
        let call = if self.writes {
            SystemCall::Sync
        } else {
            SystemCall::SyncFolder
        };
        self.watch.begin(call)?;
        self.file.sync_all()
    }

    fn sync_data(&self) -> io::Result<()> {
        self.file.sync_data()
    }

    fn set_permissions(&self, permissions: Permissions) -> io::Result<()> {
        self.watch.begin(SystemCall::Mode)?;
        self.file.set_permissions(permissions)
    }
}

impl<'a, R: Files> Files for WatchedFiles<'a, R> {
    type File = WatchedFile<'a, R::File>;

    type Dir = R::Dir;

    fn open_file(&self, how: &OpenOptions, path: &str) -> io::Result<WatchedFile<'a, R::File>> {
        let writes = how.asks_write();
        let is_table = path == "/proc/self/mountinfo";
        self.watch.begin(match (writes, is_table) {
            (true, _) => SystemCall::Create,
            (false, true) => SystemCall::Mounts,
            (false, false) => SystemCall::Open,
        })?;
        if let (Some(other), true) = (self.watch.other, path.ends_with("/root/a/file")) {
            self.rt.remove_file(path)?;
            std::fs::write(&self.rt, other, b"old")?;
            self.rt.symlink(other, path)?;
            self.watch.swapped.set(true);
        }
        Ok(WatchedFile {
            file: self.rt.open_file(how, path)?,
            watch: self.watch,
            writes,
            is_table,
        })
    }

    fn open_dir(&self, path: &str) -> io::Result<R::Dir> {
        self.watch.begin(SystemCall::List)?;
        self.rt.open_dir(path)
    }

    fn metadata(&self, path: &str) -> io::Result<Metadata> {
        if path.starts_with("/proc/self/fd/") {
            self.watch.begin(SystemCall::Find)?;
        }
        self.rt.metadata(path)
    }

    fn symlink_metadata(&self, path: &str) -> io::Result<Metadata> {
        self.watch.begin(SystemCall::Look)?;
        self.rt.symlink_metadata(path)
    }

    fn copy(&self, from: &str, to: &str) -> io::Result<u64> {
        self.rt.copy(from, to)
    }

    fn rename(&self, from: &str, to: &str) -> io::Result<()> {
        self.watch.begin(SystemCall::Rename)?;
        self.rt.rename(from, to)
    }

    fn remove_file(&self, path: &str) -> io::Result<()> {
        self.watch.begin(SystemCall::Unlink)?;
        self.rt.remove_file(path)
    }

    fn create_dir(&self, path: &str) -> io::Result<()> {
        self.watch.begin(SystemCall::MakeFolder)?;
        self.rt.create_dir(path)
    }

    fn remove_dir(&self, path: &str) -> io::Result<()> {
        self.watch.begin(SystemCall::RemoveFolder)?;
        self.rt.remove_dir(path)
    }

    fn remove_dir_all<B: Allocator>(&self, alloc: B, path: &str) -> io::Result<()> {
        self.rt.remove_dir_all(alloc, path)
    }

    fn canonicalize<B: Allocator>(&self, alloc: B, path: &str) -> io::Result<PathBuf<B>> {
        self.rt.canonicalize(alloc, path)
    }

    fn lchown(&self, path: &str, user: Option<u32>, group: Option<u32>) -> io::Result<()> {
        self.rt.lchown(path, user, group)
    }

    fn read_link<B: Allocator>(&self, alloc: B, path: &str) -> io::Result<PathBuf<B>> {
        self.watch.begin(SystemCall::Locate)?;
        if self.watch.is_lost {
            return Err(io::Error::from(ErrorKind::InvalidData));
        }
        self.rt.read_link(alloc, path)
    }

    // The host makes none of the calls below. Handed on, they are proved sooner than the bodies that the trait has for them.

    fn hard_link(&self, original: &str, link: &str) -> io::Result<()> {
        self.rt.hard_link(original, link)
    }

    fn set_permissions(&self, path: &str, permissions: Permissions) -> io::Result<()> {
        self.rt.set_permissions(path, permissions)
    }

    fn symlink(&self, original: &str, link: &str) -> io::Result<()> {
        self.rt.symlink(original, link)
    }

    fn pipe(&self) -> io::Result<(PipeReader, PipeWriter)> {
        self.rt.pipe()
    }

    fn chown(&self, path: &str, user: Option<u32>, group: Option<u32>) -> io::Result<()> {
        self.rt.chown(path, user, group)
    }

    fn create_dir_with_mode(&self, path: &str, mode: u32) -> io::Result<()> {
        self.rt.create_dir_with_mode(path, mode)
    }

    fn bind_unix(&self, socket: BorrowedFd<'_>, address: &SocketAddr) -> io::Result<()> {
        self.rt.bind_unix(socket, address)
    }
}
