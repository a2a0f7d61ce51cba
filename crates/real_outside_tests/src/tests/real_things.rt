use dsc_outside::{Failed, Sink, Source};
use real_outside::{InSource, OutSink};
use std::cell::Cell;
use std::fmt::Display;
use std::io;
use std::io::{ErrorKind, Print, Read};
use std::test::Fail;

/// What a call of the system comes to.
type Outcome = Result<usize, ErrorKind>;

// What the calls of the system come to, in order, and what the adapter's call answers.
type Row = (&'static [Outcome], Result<usize, Failed>);

const FAULTS: &[Row] = &[
    (&[Ok(2)], Ok(2)),
    (&[Ok(1)], Ok(1)),
    (
        &[
            Err(ErrorKind::Interrupted),
            Err(ErrorKind::Interrupted),
            Ok(2),
        ],
        Ok(2),
    ),
    (&[Err(ErrorKind::WouldBlock)], Err(Failed)),
    (&[Err(ErrorKind::TimedOut)], Err(Failed)),
    (&[Err(ErrorKind::BrokenPipe)], Err(Failed)),
    (&[Err(ErrorKind::UnexpectedEof)], Err(Failed)),
    (&[Err(ErrorKind::StorageFull)], Err(Failed)),
    (
        &[Err(ErrorKind::Interrupted), Err(ErrorKind::BrokenPipe)],
        Err(Failed),
    ),
];

// An input and an output whose calls come to these outcomes.
#[derive(Drop)]
struct Scripted {
    outcomes: &'static [Outcome],
    at: Cell<usize>,
}

impl Scripted {
    fn of(outcomes: &'static [Outcome]) -> Scripted {
        Scripted {
            outcomes,
            at: Cell::new(0),
        }
    }

    // The next outcome, at most that many bytes.
    fn next(&self, capacity: usize) -> io::Result<usize> {
        let at = self.at.get();
        self.at.set(at.saturating_add(1));
        match self.outcomes.get(at) {
            Some(Ok(count)) => Ok((*count).min(capacity)),
            Some(Err(kind)) => Err(io::Error::from(*kind)),
            None => Err(io::Error::from(ErrorKind::Other)),
        }
    }
}

impl Read for Scripted {
    fn read(&mut self, buf: &mut [u8]) -> io::Result<usize> {
        let count = self.next(buf.len())?;
        Ok(count.min(buf.len()))
    }
}

impl Print for Scripted {
    fn print<D: Display + Drop>(&self, _value: D) -> io::Result<()> {
        Ok(())
    }

    fn println<D: Display + Drop>(&self, _value: D) -> io::Result<()> {
        Ok(())
    }

    fn write_all(&self, _bytes: &[u8]) -> io::Result<()> {
        Ok(())
    }

    fn write_some(&self, bytes: &[u8]) -> io::Result<usize> {
        let count = self.next(bytes.len())?;
        Ok(count.min(bytes.len()))
    }
}

fn expect_read(outcomes: &'static [Outcome], wanted: Result<usize, Failed>) -> Result<(), Fail> {
    let mut source = InSource::new(Scripted::of(outcomes));
    if source.read(&mut [0, 0]) == wanted {
        return Ok(());
    }
    Err(Fail::new("the read is answered otherwise"))
}

fn expect_write(outcomes: &'static [Outcome], wanted: Result<usize, Failed>) -> Result<(), Fail> {
    let mut sink = OutSink::new(Scripted::of(outcomes));
    if sink.write(b"ab") == wanted {
        return Ok(());
    }
    Err(Fail::new("the write is answered otherwise"))
}

#[test]
fn standard_input_and_output_fail_where_the_system_does(_rt: HostRuntime) -> Result<(), Fail> {
    for (outcomes, wanted) in FAULTS {
        expect_read(outcomes, *wanted)?;
        expect_write(outcomes, *wanted)?;
    }
    expect_read(&[Ok(0)], Ok(0))?;
    expect_write(&[Ok(0)], Err(Failed))
}

#[test]
fn the_systems_own_input_and_output_are_had(rt: HostRuntime) {
    assert!(rt; InSource::new(rt.reader()).read(&mut []) == Ok(0));
    assert!(rt; OutSink::new(&rt).write(b"\n") == Ok(1));
}
