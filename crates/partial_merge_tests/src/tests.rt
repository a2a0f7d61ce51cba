//! What ample memory answers: parts, and what lists of them are merged to or refused for.
use dsc_document::DocError;
use mof_codec::MofError;
use mof_values::{Bytes, Items, Text};
use partial_merge::*;
use std::alloc::Global;
use std::test::Fail;

const HEADER: &str = "instance of OMI_ConfigurationDocument{Version=\"2.0.0\";};";

// Log resources by their ids, with what each depends on.
type Rows = &'static [(&'static str, &'static str)];

// Parts by their names, with their resources.
type List = &'static [(&'static str, Rows)];

#[derive(Clone, Copy)]
enum Wanted {
    Order(&'static [u32]),
    TwoNames(u32, u32),
    Part(u32),
    TooMany(u64),
    DuplicateId((u32, u32), (u32, u32)),
    Unknown((u32, u32), &'static str),
    Cycle(&'static [u32]),
}

// An answer for each order, unknown id and cycle.
const RESOURCES: &[(Rows, Wanted)] = &[
    (&[], Wanted::Order(&[])),
    (&[("[Log]A", "")], Wanted::Order(&[0])),
    (
        &[("[Log]A", "\"[Log]C\""), ("[Log]B", ""), ("[Log]C", "")],
        Wanted::Order(&[1, 2, 0]),
    ),
    (
        &[("[Log]A", "\"[LOG]b\",\"[Log]B\""), ("[Log]B", "")],
        Wanted::Order(&[1, 0]),
    ),
    (
        &[("[Log]A", "\"[Log]Z\"")],
        Wanted::Unknown((0, 0), "[Log]Z"),
    ),
    (
        &[
            ("[Log]A", "\"[Log]B\""),
            ("[Log]B", "\"[log]a\",\"[Log]Y\",\"[Log]Z\""),
        ],
        Wanted::Unknown((0, 1), "[Log]Y"),
    ),
    // an unknown id wins over a cycle
    (
        &[("[Log]A", "\"[Log]A\""), ("[Log]B", "\"Log]B\"")],
        Wanted::Unknown((0, 1), "Log]B"),
    ),
    (&[("[Log]A", "\"[log]a\"")], Wanted::Cycle(&[0])),
    (
        &[("[Log]A", "\"[Log]B\""), ("[Log]B", "\"[Log]A\"")],
        Wanted::Cycle(&[0, 1]),
    ),
    (
        &[
            ("[Log]A", ""),
            ("[Log]B", "\"[Log]C\""),
            ("[Log]C", "\"[Log]B\""),
        ],
        Wanted::Cycle(&[1, 2]),
    ),
];

const A: Rows = &[("[Log]A", "")];

const B: Rows = &[("[Log]B", "")];

const BAD: Rows = &[("Log", "")];

const LOST: Rows = &[("[Log]L", "\"[Log]Z\"")];

const ROUND: Rows = &[("[Log]R", "\"[log]r\"")];

// An answer for each list: the first reason that applies, where there are several.
const LISTS: &[(List, Wanted)] = &[
    (&[("p", A), ("q", B)], Wanted::Order(&[0, 1])),
    (&[("p", &[]), ("q", &[])], Wanted::Order(&[])),
    // a dependency on an earlier and on a later part
    (
        &[
            ("p", &[("[Log]X", "\"[Log]B\"")]),
            ("q", B),
            ("r", &[("[Log]Y", "\"[log]x\"")]),
        ],
        Wanted::Order(&[1, 0, 2]),
    ),
    // a cycle across two parts
    (
        &[
            ("p", A),
            ("q", &[("[Log]X", "\"[Log]Y\"")]),
            ("r", &[("[Log]Y", "\"[Log]X\"")]),
        ],
        Wanted::Cycle(&[1, 2]),
    ),
    // names and ids compare by fold
    (
        &[("p", &[("[File]X", "")]), ("q", &[("[file]x", "")])],
        Wanted::DuplicateId((0, 0), (1, 0)),
    ),
    (
        &[("p", &[("[File]X", "")]), ("p", &[("[file]x", "")])],
        Wanted::TwoNames(0, 1),
    ),
    (&[("p", A), ("q", B), ("P", &[])], Wanted::TwoNames(0, 2)),
    // of pairs the least second, and then the least first
    (
        &[("p", &[]), ("q", &[]), ("q", &[]), ("p", &[])],
        Wanted::TwoNames(1, 2),
    ),
    (
        &[
            ("p", &[("[Log]A", ""), ("[Log]B", "")]),
            ("q", &[("[Log]C", ""), ("[log]b", ""), ("[log]a", "")]),
        ],
        Wanted::DuplicateId((0, 1), (1, 1)),
    ),
    (
        &[("p", A), ("q", &[]), ("r", A), ("s", A)],
        Wanted::DuplicateId((0, 0), (2, 0)),
    ),
    (&[("p", A), ("q", LOST)], Wanted::Unknown((1, 0), "[Log]Z")),
    (&[("p", A), ("q", BAD), ("r", BAD)], Wanted::Part(1)),
    // names win over a part, a part over equal ids, equal ids over an unknown one, and that over a cycle
    (&[("p", BAD), ("P", A)], Wanted::TwoNames(0, 1)),
    (&[("p", A), ("q", A), ("r", BAD)], Wanted::Part(2)),
    (
        &[("p", LOST), ("q", A), ("r", A)],
        Wanted::DuplicateId((1, 0), (2, 0)),
    ),
    (
        &[("p", ROUND), ("q", LOST)],
        Wanted::Unknown((1, 0), "[Log]Z"),
    ),
    (&[("p", A), ("q", ROUND)], Wanted::Cycle(&[1])),
    (
        &[
            ("a", A),
            ("b", B),
            ("c", &[]),
            ("d", &[]),
            ("e", &[]),
            ("f", &[]),
            ("g", &[]),
            ("h", LOST),
        ],
        Wanted::Unknown((7, 0), "[Log]Z"),
    ),
];

// A log resource for each row, and then the header.
fn document(rt: &impl AllocGlobal, resources: Rows) -> Result<String, Fail> {
    let mut text = String::new(rt.alloc());
    for (id, depends) in resources {
        write!(
            text,
            "instance of MSFT_LogResource{{ResourceID=\"{id}\";Message=\"m\";DependsOn={{{depends}}};}};"
        )?;
    }
    text.push_str(HEADER)?;
    Ok(text)
}

// The part of this name and of these resources.
fn part(rt: &impl AllocGlobal, name: &str, resources: Rows) -> Result<Part, Fail> {
    let bytes = document(rt, resources)?.as_bytes().to_vec(rt.alloc())?;
    Ok(part_of(rt.alloc(), text(rt, name)?, Bytes::of(bytes))?)
}

fn parts(rt: &impl AllocGlobal, list: List) -> Result<Vec<Part>, Fail> {
    let mut parts = Vec::new(rt.alloc());
    for (name, resources) in list {
        parts.push(part(rt, name, *resources)?)?;
    }
    Ok(parts)
}

// That many log resources, whose ids hold the number of the part, and then the header.
fn numbered(rt: &impl AllocGlobal, number: usize, count: u32) -> Result<Part, Fail> {
    let mut text = String::new(rt.alloc());
    for place in 0..count {
        write!(
            text,
            "instance of MSFT_LogResource{{ResourceID=\"[Log]P{number}R{place}\";Message=\"m\";}};"
        )?;
    }
    text.push_str(HEADER)?;
    let mut name = String::new(rt.alloc());
    write!(name, "P{number}")?;
    let bytes = text.as_bytes().to_vec(rt.alloc())?;
    let name = Text::of(name.chars().collect(rt.alloc())?);
    Ok(part_of(rt.alloc(), name, Bytes::of(bytes))?)
}

// The header, and then that many log resources, each of which depends on the next.
fn chain(rt: &impl AllocGlobal, count: u32) -> Result<String, Fail> {
    let mut text = String::new(rt.alloc());
    text.push_str(HEADER)?;
    for place in 0..count {
        write!(
            text,
            "instance of MSFT_LogResource{{ResourceID=\"[Log]R{place}\";Message=\"m\";"
        )?;
        if place + 1 < count {
            write!(text, "DependsOn=\"[Log]R{}\";", place + 1)?;
        }
        text.push_str("};")?;
    }
    Ok(text)
}

fn text(rt: &impl AllocGlobal, word: &str) -> Result<Text, Fail> {
    Ok(Text::of(word.chars().collect(rt.alloc())?))
}

fn is_text(text: &Text, word: &str) -> bool {
    text.as_slice().iter().copied().eq(word.chars())
}

fn merged(
    rt: &impl AllocGlobal,
    bytes: &[u8],
) -> Result<Result<OrderedDocument, MergeError>, Fail> {
    let name = text(rt, "Base")?;
    Ok(merge_text(rt.alloc(), &name, bytes))
}

// A list of 1 to 8 parts; of another, which no row has, nothing is asked.
fn list_merged(alloc: Global, parts: &[Part]) -> Result<OrderedDocument, MergeError> {
    if parts.is_empty() || parts.len() > 8 {
        return Err(MergeError::Memory);
    }
    merge_ordered(alloc, parts)
}

// Whether the list is merged to a document of as many resources by the call that gives no order, or refused in the same way.
fn is_merged_so(
    alloc: Global,
    parts: &[Part],
    ordered: &Result<OrderedDocument, MergeError>,
) -> bool {
    if parts.is_empty() || parts.len() > 8 {
        return false;
    }
    match (merge(alloc, parts), ordered) {
        (Ok(document), Ok(merged)) => {
            document.resources.as_slice().len() == merged.order.as_slice().len()
        }
        (Err(error), Err(refusal)) => error == *refusal,
        _ => false,
    }
}

fn is_spot(spot: Spot, at: (u32, u32)) -> bool {
    spot.part == at.0 && spot.index == at.1
}

fn is_answer(found: &Result<OrderedDocument, MergeError>, wanted: &Wanted) -> bool {
    match found {
        Ok(merged) => is_order(merged.order.as_slice(), wanted),
        Err(error) => is_refusal(error, wanted),
    }
}

fn is_order(order: &[u32], wanted: &Wanted) -> bool {
    matches!(wanted, Wanted::Order(places) if order == *places)
}

fn is_refusal(error: &MergeError, wanted: &Wanted) -> bool {
    match error {
        MergeError::TwoNames { first, second } => {
            matches!(wanted, Wanted::TwoNames(one, other) if first == one && second == other)
        }
        MergeError::Part { index, .. } => {
            matches!(wanted, Wanted::Part(place) if index == place)
        }
        MergeError::TooMany { count } => {
            matches!(wanted, Wanted::TooMany(most) if count == most)
        }
        MergeError::DuplicateId { first, second } => are_spots(*first, *second, wanted),
        MergeError::DependsUnknown { spot, name } => is_unknown(*spot, name, wanted),
        MergeError::Cycle(walk) => is_cycle(walk.as_slice(), wanted),
        MergeError::Memory => false,
    }
}

fn are_spots(first: Spot, second: Spot, wanted: &Wanted) -> bool {
    match wanted {
        Wanted::DuplicateId(one, other) => is_spot(first, *one) && is_spot(second, *other),
        _ => false,
    }
}

fn is_unknown(spot: Spot, name: &Text, wanted: &Wanted) -> bool {
    match wanted {
        Wanted::Unknown(at, word) => is_spot(spot, *at) && is_text(name, word),
        _ => false,
    }
}

fn is_cycle(walk: &[u32], wanted: &Wanted) -> bool {
    matches!(wanted, Wanted::Cycle(places) if walk == *places)
}

#[test]
fn a_part_has_the_digest_of_its_bytes(rt: HostRuntime) -> Result<(), Fail> {
    // FIPS 180-4's examples: no bytes, and `abc`
    for (bytes, first, last) in [(&b""[..], 0xe3, 0x55), (b"abc", 0xba, 0xad)] {
        let bytes = Bytes::of(bytes.to_vec(rt.alloc())?);
        let part = part_of(rt.alloc(), text(&rt, "Base")?, bytes)?;
        assert!(rt; part.digest[0] == first && part.digest[31] == last);
        let copy = part.copy()?;
        assert!(rt;
            copy.name == part.name
                && copy.bytes.as_slice() == part.bytes.as_slice()
                && copy.digest == part.digest
        );
    }
    Ok(())
}

#[test]
fn one_part_has_an_order_or_is_refused(rt: HostRuntime) -> Result<(), Fail> {
    for (resources, wanted) in RESOURCES {
        let bytes = document(&rt, *resources)?;
        let found = merged(&rt, bytes.as_bytes())?;
        assert!(rt; is_answer(&found, wanted), "{bytes}");
    }
    Ok(())
}

#[test]
fn a_list_of_parts_is_merged_or_refused(rt: HostRuntime) -> Result<(), Fail> {
    for (list, wanted) in LISTS {
        let parts = parts(&rt, *list)?;
        let found = list_merged(rt.alloc(), &parts);
        assert!(rt; is_answer(&found, wanted), "{found:?}");
        assert!(rt; is_merged_so(rt.alloc(), &parts, &found), "{found:?}");
    }
    Ok(())
}

// How many resources each part has, and how many too many there are together; `None` where there are not.
const SIZES: &[(&[u32], Option<u64>)] = &[
    (&[512, 512, 512, 512, 512, 512, 512, 512], None),
    (&[0, 4096], None),
    (&[4096, 1], Some(4097)),
    (&[2048, 0, 2048, 1], Some(4097)),
    (&[4096, 4096], Some(8192)),
];

#[test]
fn parts_have_4096_resources_together(rt: HostRuntime) -> Result<(), Fail> {
    for (sizes, excess) in SIZES {
        let mut parts = Vec::new(rt.alloc());
        for (number, count) in sizes.iter().enumerate() {
            parts.push(numbered(&rt, number, *count)?)?;
        }
        let found = list_merged(rt.alloc(), &parts);
        assert!(rt; is_size(&found, *excess), "{sizes:?}");
    }
    Ok(())
}

// Too many resources win over equal ids.
#[test]
fn too_many_resources_win_over_equal_ids(rt: HostRuntime) -> Result<(), Fail> {
    let mut parts = Vec::new(rt.alloc());
    parts.push(numbered(&rt, 1, 4096)?)?;
    parts.push(part(&rt, "q", &[("[log]p1r0", "")])?)?;
    let found = list_merged(rt.alloc(), &parts);
    assert!(rt; is_answer(&found, &Wanted::TooMany(4097)));
    Ok(())
}

fn is_size(found: &Result<OrderedDocument, MergeError>, excess: Option<u64>) -> bool {
    match (found, excess) {
        (Ok(merged), None) => merged.order.as_slice().len() == 4096,
        (Err(MergeError::TooMany { count }), Some(most)) => *count == most,
        _ => false,
    }
}

#[test]
fn every_size_is_merged(rt: HostRuntime) -> Result<(), Fail> {
    for count in [0, 1, 2, 7, 63, 64, 65, 300] {
        let bytes = chain(&rt, count)?;
        let found = merged(&rt, bytes.as_bytes())?;
        assert!(rt; is_falling(&found, count), "{count}");
    }
    Ok(())
}

// Returns whether the order is `count` - 1 down to 0, and each resource but the last depends on the next.
fn is_falling(found: &Result<OrderedDocument, MergeError>, count: u32) -> bool {
    match found {
        Ok(merged) => {
            let order = merged.order.as_slice();
            let depends = merged.depends.as_slice();
            order.iter().copied().eq((0..count).rev())
                && depends.len() == order.len()
                && depends
                    .iter()
                    .zip(1..count)
                    .all(|(places, next)| places.as_slice() == [next].as_slice())
        }
        Err(_) => false,
    }
}

fn faults() -> [(&'static [u8], PartFault); 6] {
    [
        (b"x\xff", PartFault::Mof(MofError::Text { at: 1 })),
        (
            b"instance of A { X = \"ab",
            PartFault::Mof(MofError::Syntax { at: 23 }),
        ),
        (
            b"instance of A { X = 18446744073709551616; };",
            PartFault::Mof(MofError::NumberRange { at: 20 }),
        ),
        (b"", PartFault::Doc(DocError::NoHeader)),
        (
            b"instance of OMI_ConfigurationDocument{};instance of B{ResourceID=\"B\";};",
            PartFault::Doc(DocError::BadResourceId { index: 1 }),
        ),
        // a fault of the part wins over an unknown id
        (
            b"instance of OMI_ConfigurationDocument{};instance of B{ResourceID=\"[B]b\";DependsOn=\"[B]z\";};instance of B{ResourceID=\"[B]c\";DependsOn=7;};",
            PartFault::Doc(DocError::BadDependsOn { index: 2 }),
        ),
    ]
}

#[test]
fn a_part_with_a_fault_is_refused(rt: HostRuntime) -> Result<(), Fail> {
    for (bytes, wanted) in faults() {
        let found = merged(&rt, bytes)?;
        assert!(rt;
            matches!(&found, Err(MergeError::Part { index: 0, fault }) if *fault == wanted),
            "{wanted:?}"
        );
    }
    Ok(())
}

#[test]
fn a_text_with_a_fault_is_refused(rt: HostRuntime) {
    for (bytes, wanted) in faults() {
        let found = check_text(rt.alloc(), bytes);
        assert!(rt;
            matches!(&found, Err(MergeError::Part { index: 0, fault }) if *fault == wanted),
            "{wanted:?}"
        );
    }
}

// A text of a part may depend on what only another part declares.
const DEPENDENT: &str =
    "instance of OMI_ConfigurationDocument{};instance of B{ResourceID=\"[B]b\";DependsOn=\"[B]z\";};";

#[test]
fn a_text_without_a_fault_is_taken(rt: HostRuntime) {
    let found = check_text(rt.alloc(), DEPENDENT.as_bytes());
    assert!(rt; found == Ok(()), "{found:?}");
}
