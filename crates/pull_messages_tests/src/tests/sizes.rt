//! Messages of every size, which come back as they were: with ample memory none is refused for memory.
use super::made::{expect, joined};
use super::messages::{Message, answers};
use pull_messages::*;
use std::alloc::Global;
use std::test::Fail;

// A message is the front, a piece some times, and the end. With that many pieces it comes back, with others the field is
// wrong.
struct Shape {
    front: &'static str,
    piece: &'static str,
    end: &'static str,
    good: &'static [usize],
    bad: &'static [usize],
    field: Field,
}

const REGISTRATIONS: &[Shape] = &[
    Shape {
        front: r#"{"AgentInformation":{"IPAddress":"","LCMVersion":"","NodeName":""#,
        piece: "a",
        end: r#""},"ConfigurationNames":[],"RegistrationInformation":{"RegistrationMessageType":"ConfigurationRepository"}}"#,
        good: &[0, 1, 2, 7, 63, 64, 65, 4096, 65_535],
        bad: &[65_536],
        field: Field::NodeName,
    },
    Shape {
        front: r#"{"AgentInformation":{"IPAddress":"","LCMVersion":""#,
        piece: "\u{E9}",
        end: r#"","NodeName":""},"ConfigurationNames":[],"RegistrationInformation":{"RegistrationMessageType":"ConfigurationRepository"}}"#,
        good: &[1, 32_767],
        bad: &[32_768],
        field: Field::LCMVersion,
    },
    Shape {
        front: r#"{"AgentInformation":{"IPAddress":"","LCMVersion":"","NodeName":""},"ConfigurationNames":["n""#,
        piece: r#","n""#,
        end: r#"],"RegistrationInformation":{"RegistrationMessageType":"ConfigurationRepository"}}"#,
        good: &[0, 1, 2, 7, 15],
        bad: &[16, 63, 64, 65, 4096],
        field: Field::ConfigurationNames,
    },
    Shape {
        front: r#"{"AgentInformation":{"IPAddress":"","LCMVersion":"","NodeName":""},"ConfigurationNames":[""#,
        piece: "a",
        end: r#""],"RegistrationInformation":{"RegistrationMessageType":"ConfigurationRepository"}}"#,
        good: &[1, 2, 7, 63, 64, 65, 255],
        bad: &[0, 256, 4096],
        field: Field::ConfigurationNames,
    },
];

const QUERIES: &[Shape] = &[
    Shape {
        front: r#"{"ClientStatus":[{"Checksum":"","ChecksumAlgorithm":"SHA-256","ConfigurationName":""}"#,
        piece: r#",{"Checksum":"","ChecksumAlgorithm":"SHA-256","ConfigurationName":""}"#,
        end: "]}",
        good: &[0, 1, 2, 7, 15],
        bad: &[16, 63, 64, 65, 4096],
        field: Field::ClientStatus,
    },
    Shape {
        front: r#"{"ClientStatus":[{"Checksum":"","ChecksumAlgorithm":"SHA-256","ConfigurationName":""#,
        piece: "a",
        end: r#""}]}"#,
        good: &[0, 1, 2, 7, 63, 64, 65, 4096, 131_000],
        bad: &[],
        field: Field::ConfigurationName,
    },
];

const ANSWERS: &[Shape] = &[Shape {
    front: r#"{"Details":[{"ConfigurationName":"n","Status":"s"}"#,
    piece: r#",{"ConfigurationName":"n","Status":"s"}"#,
    end: r#"],"NodeStatus":"Ok"}"#,
    good: &[0, 1, 2, 7, 63, 64, 65, 4096],
    bad: &[],
    field: Field::Details,
}];

const REPORTS: &[Shape] = &[
    Shape {
        front: r#"{"ConfigurationVersion":"","EndTime":"","Errors":["e""#,
        piece: r#","e""#,
        end: r#"],"JobId":"00000000-0000-0000-0000-000000000001","OperationType":"","RebootRequested":"","RefreshMode":"","ReportFormatVersion":"","StartTime":"","Status":"","StatusData":[]}"#,
        good: &[0, 1, 2, 7, 63, 64, 65, 4096],
        bad: &[],
        field: Field::Errors,
    },
    Shape {
        front: r#"{"ConfigurationVersion":"","EndTime":"","Errors":[],"JobId":"00000000-0000-0000-0000-000000000001","OperationType":"","RebootRequested":"","RefreshMode":"","ReportFormatVersion":"","StartTime":"","Status":"","StatusData":[""#,
        piece: "a",
        end: r#""]}"#,
        good: &[0, 1, 2, 7, 63, 64, 65, 4096, 131_000],
        bad: &[],
        field: Field::StatusData,
    },
];

fn expect_size<M: Message>(
    alloc: Global,
    shape: &Shape,
    count: usize,
    is_good: bool,
) -> Result<(), Fail> {
    let body = joined(
        alloc,
        &[(shape.front, 1), (shape.piece, count), (shape.end, 1)],
    )?;
    let wanted = if is_good {
        Ok(body.as_str())
    } else {
        Err(MessageError::Wrong(shape.field))
    };
    expect(answers::<M>(alloc, body.as_bytes(), &wanted), &body)
}

fn expect_shapes<M: Message>(alloc: Global, shapes: &[Shape]) -> Result<(), Fail> {
    for shape in shapes {
        for count in shape.good {
            expect_size::<M>(alloc, shape, *count, true)?;
        }
        for count in shape.bad {
            expect_size::<M>(alloc, shape, *count, false)?;
        }
    }
    Ok(())
}

#[test]
fn messages_of_every_size_come_back(rt: HostRuntime) -> Result<(), Fail> {
    expect_shapes::<Registration>(rt.alloc(), REGISTRATIONS)?;
    expect_shapes::<ActionQuery>(rt.alloc(), QUERIES)?;
    expect_shapes::<ActionAnswer>(rt.alloc(), ANSWERS)?;
    expect_shapes::<ReportMessage>(rt.alloc(), REPORTS)
}
