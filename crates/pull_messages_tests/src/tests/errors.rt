//! The texts of refusals.
use super::made::expect;
use pull_messages::*;
use std::test::Fail;

const TEXTS: &[(MessageError, &str)] = &[
    (MessageError::Json, "the body is no JSON value"),
    (
        MessageError::Missing(Field::JobId),
        "the member JobId is missing",
    ),
    (
        MessageError::Wrong(Field::Body),
        "the value of Body is wrong",
    ),
    (MessageError::Memory, "out of memory"),
];

#[test]
fn refusals_are_printed(rt: HostRuntime) -> Result<(), Fail> {
    for (error, wanted) in TEXTS {
        let text = format!(in rt.alloc(); "{error}")?;
        expect(text.as_str() == *wanted, wanted)?;
    }
    let bad = TargetError::BadTarget { at: 5 };
    let text = format!(in rt.alloc(); "{bad}")?;
    expect(
        text.as_str() == "no target goes on so from byte 5",
        "a target",
    )
}
