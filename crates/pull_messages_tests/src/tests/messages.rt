//! Messages that are read and written again.
use super::made::{expect, joined};
use super::rows::{ANSWERS, QUERIES, REGISTRATIONS, REPORTS};
use mof_values::Memory;
use pull_messages::*;
use std::alloc::Global;
use std::test::Fail;

/// A body, and the text of the message that it is, or why it is refused.
pub type Row = (&'static str, Result<&'static str, MessageError>);

/// A message, read and written.
pub trait Message: Drop {
    fn read(alloc: Global, body: &[u8]) -> Result<Self, MessageError>;

    fn write(&self, alloc: Global) -> Result<Vec<u8>, Memory>;
}

impl Message for Registration {
    fn read(alloc: Global, body: &[u8]) -> Result<Self, MessageError> {
        read_registration(alloc, body)
    }

    fn write(&self, alloc: Global) -> Result<Vec<u8>, Memory> {
        write_registration(alloc, self)
    }
}

impl Message for ActionQuery {
    fn read(alloc: Global, body: &[u8]) -> Result<Self, MessageError> {
        read_query(alloc, body)
    }

    fn write(&self, alloc: Global) -> Result<Vec<u8>, Memory> {
        write_query(alloc, self)
    }
}

impl Message for ActionAnswer {
    fn read(alloc: Global, body: &[u8]) -> Result<Self, MessageError> {
        read_action(alloc, body)
    }

    fn write(&self, alloc: Global) -> Result<Vec<u8>, Memory> {
        write_action(alloc, self)
    }
}

impl Message for ReportMessage {
    fn read(alloc: Global, body: &[u8]) -> Result<Self, MessageError> {
        read_report(alloc, body)
    }

    fn write(&self, alloc: Global) -> Result<Vec<u8>, Memory> {
        write_report(alloc, self)
    }
}

fn again<M: Message>(alloc: Global, body: &[u8]) -> Result<Vec<u8>, MessageError> {
    let message = M::read(alloc, body)?;
    written(alloc, &message)
}

fn written<M: Message>(alloc: Global, message: &M) -> Result<Vec<u8>, MessageError> {
    match message.write(alloc) {
        Ok(text) => Ok(text),
        Err(_) => Err(MessageError::Memory),
    }
}

/// Returns whether the body is that message, or is refused so.
pub fn answers<M: Message>(
    alloc: Global,
    body: &[u8],
    wanted: &Result<&str, MessageError>,
) -> bool {
    match (&again::<M>(alloc, body), wanted) {
        (Ok(text), Ok(wanted)) => text.as_slice() == wanted.as_bytes(),
        (Err(error), Err(wanted)) => error == wanted,
        _ => false,
    }
}

fn expect_rows<M: Message>(alloc: Global, rows: &[Row]) -> Result<(), Fail> {
    for (body, wanted) in rows {
        expect(answers::<M>(alloc, body.as_bytes(), wanted), body)?;
    }
    Ok(())
}

#[test]
fn messages_are_read_by_their_tables_and_written(rt: HostRuntime) -> Result<(), Fail> {
    expect_rows::<Registration>(rt.alloc(), REGISTRATIONS)?;
    expect_rows::<ActionQuery>(rt.alloc(), QUERIES)?;
    expect_rows::<ActionAnswer>(rt.alloc(), ANSWERS)?;
    expect_rows::<ReportMessage>(rt.alloc(), REPORTS)
}

// Bytes that are no UTF-8, and arrays in one another.
#[test]
fn what_is_no_json_is_refused(rt: HostRuntime) -> Result<(), Fail> {
    let none = Err(MessageError::Json);
    expect(
        answers::<ActionQuery>(rt.alloc(), b"{\"ClientStatus\":[],\"X\":\"\xFF\"}", &none),
        "a byte FF",
    )?;
    expect(
        nested(rt.alloc(), 126, &Ok(r#"{"ClientStatus":[]}"#))?,
        "126 arrays",
    )?;
    expect(nested(rt.alloc(), 127, &none)?, "127 arrays")
}

fn nested(alloc: Global, depth: usize, wanted: &Result<&str, MessageError>) -> Result<bool, Fail> {
    let body = joined(
        alloc,
        &[
            (r#"{"ClientStatus":[],"X":"#, 1),
            ("[", depth),
            ("]", depth),
            ("}", 1),
        ],
    )?;
    Ok(answers::<ActionQuery>(alloc, body.as_bytes(), wanted))
}
