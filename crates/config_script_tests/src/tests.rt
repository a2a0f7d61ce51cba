//! What ample memory answers: the document that a script gives a node, or the reason that wins.
use config_script::{CompileError, MAX_SCRIPT, compile};
use dsc_document::DocError;
use mof_codec::MofError;
use mof_values::Text;
use partial_merge::{MergeError, PartFault};
use std::test::Fail;

/// A script, the node, and what must come.
pub type Case = (&'static str, &'static str, Wanted);

#[derive(Clone, Copy)]
pub enum Wanted {
    Text(&'static str),
    NotText(usize),
    Shape(usize),
    UnknownKind(usize),
    Reserved(usize),
    NoNode,

    /// The text of the document has an integer out of range at this place.
    NumberRange(usize),

    BadDependsOn(u32),
}

const DEMO: &str = "Configuration Demo {
 Node 'web1', 'web2' {
  File A { DestinationPath = '/a'; Contents = 'it''s' }
 }
 Node 'web2' {
  Log B { Message = 'm'; DependsOn = '[File]A' }
 }
}
";

const FILE_A: &str = "instance of MSFT_FileDirectoryConfiguration
{
 ResourceID = \"[File]A\";
 DestinationPath = \"/a\";
 Contents = \"it's\";
 ModuleName = \"PSDesiredStateConfiguration\";
 ModuleVersion = \"1.0\";
 ConfigurationName = \"Demo\";
};
";

const LOG_B: &str = "instance of MSFT_LogResource
{
 ResourceID = \"[Log]B\";
 Message = \"m\";
 DependsOn = \"[File]A\";
 ModuleName = \"PSDesiredStateConfiguration\";
 ModuleVersion = \"1.0\";
 ConfigurationName = \"Demo\";
};
";

const HEADER: &str = "instance of OMI_ConfigurationDocument
{
 Version = \"2.0.0\";
 Name = \"Demo\";
};
";

const COMMAND_S: &str = "instance of DSC_CommandResource
{
 ResourceID = \"[Command]S\";
 TestArguments = {\"-a\", \"b\"};
 ModuleName = \"PSDesiredStateConfiguration\";
 ModuleVersion = \"1.0\";
 ConfigurationName = \"Demo\";
};
instance of OMI_ConfigurationDocument
{
 Version = \"2.0.0\";
 Name = \"Demo\";
};
";

// An answer for each reason, and for places at which one ends and another begins.
const ANSWERS: &[Case] = &[
    (DEMO, "web3", Wanted::NoNode),
    (
        "Configuration D { Node a { Service S { } } }",
        "a",
        Wanted::UnknownKind(0),
    ),
    (
        "Configuration Demo { Node a { command S { TestArguments = @('-a', 'b') } } }",
        "a",
        Wanted::Text(COMMAND_S),
    ),
    ("Configuration D { }", "a", Wanted::NoNode),
    ("Configuration D {", "a", Wanted::Shape(0)),
    ("", "a", Wanted::Shape(0)),
    ("# c\n#", "a", Wanted::Shape(1)),
    ("Configurations\n", "a", Wanted::Shape(0)),
    ("Configuration\n\nD\n{\n!\n", "a", Wanted::Shape(4)),
    (
        "Configuration D { Node a { File\n'x\n\n",
        "a",
        Wanted::Shape(3),
    ),
    (
        "Configuration D { Node a { File\n\"x\n$\n",
        "a",
        Wanted::Shape(2),
    ),
    (
        "Configuration D { Node a { Log x { ; A = 1 } } }\n",
        "a",
        Wanted::Shape(0),
    ),
    (
        "Configuration D { Node a { Log x { A = 1\n ; B = 2 C = 3 } } }\n",
        "a",
        Wanted::Shape(1),
    ),
    (
        "Configuration D { Node a { Log x { A = '\n' B = 2 } } }\n",
        "a",
        Wanted::Shape(1),
    ),
    (
        "Configuration D { Node a { Log x { A = 01\n } } }\n",
        "a",
        Wanted::Shape(0),
    ),
    (
        "Configuration D { Node a { Log x { A = @\n(1) } } }\n",
        "a",
        Wanted::Shape(0),
    ),
    (
        "\u{feff}Configuration D { Node a { } }\n",
        "a",
        Wanted::Shape(0),
    ),
    (
        "Configuration D { Node b { X y { }\n Z y { } } }",
        "a",
        Wanted::UnknownKind(0),
    ),
    (
        "Configuration D { Node b { Log y {\n\nResourceid = '' } } }",
        "a",
        Wanted::Reserved(2),
    ),
    (
        "Configuration D { Node b { Log y { A = '\n'\nModuleName = '' } X y { } } }",
        "a",
        Wanted::UnknownKind(2),
    ),
];

fn answer(
    rt: &impl AllocGlobal,
    script: &[u8],
    node: &str,
) -> Result<Result<Vec<u8>, CompileError>, Fail> {
    let node = Text::from_utf8(rt.alloc(), node)?;
    Ok(compile(rt.alloc(), script, &node))
}

fn is_fault(fault: &PartFault, wanted: Wanted) -> bool {
    match (fault, wanted) {
        (PartFault::Mof(MofError::NumberRange { at }), Wanted::NumberRange(place)) => *at == place,
        (PartFault::Doc(DocError::BadDependsOn { index }), Wanted::BadDependsOn(place)) => *index
            == place,
        _ => false,
    }
}

fn is_answer(found: &Result<Vec<u8>, CompileError>, wanted: Wanted) -> bool {
    match (found, wanted) {
        (Ok(bytes), Wanted::Text(text)) => bytes.as_slice() == text.as_bytes(),
        (Err(CompileError::NotText { at }), Wanted::NotText(place)) => *at == place,
        (Err(CompileError::Shape { line }), Wanted::Shape(number)) => *line == number,
        (Err(CompileError::UnknownKind { line }), Wanted::UnknownKind(number)) => *line == number,
        (Err(CompileError::Reserved { line }), Wanted::Reserved(number)) => *line == number,
        (Err(CompileError::NoNode), Wanted::NoNode) => true,
        (Err(CompileError::Merge(MergeError::Part { index: 0, fault })), _) => is_fault(
            fault, wanted,
        ),
        _ => false,
    }
}

fn check(rt: &impl AllocGlobal, cases: &[Case]) -> Result<(), Fail> {
    for (script, node, wanted) in cases {
        let found = answer(rt, script.as_bytes(), node)?;
        if !is_answer(&found, *wanted) {
            return Err(Fail::new(*script));
        }
    }
    Ok(())
}

fn joined(rt: &impl AllocGlobal, texts: &[&str]) -> Result<String, Fail> {
    let mut all = String::new(rt.alloc());
    for text in texts {
        all.push_str(text)?;
    }
    Ok(all)
}

#[test]
fn a_script_gives_each_node_the_resources_of_its_blocks(rt: HostRuntime) -> Result<(), Fail> {
    for (node, texts) in [
        ("web2", &[FILE_A, LOG_B, HEADER][..]),
        ("WEB1", &[FILE_A, HEADER]),
    ] {
        let wanted = joined(&rt, texts)?;
        let Ok(found) = answer(&rt, DEMO.as_bytes(), node)? else {
            return Err(Fail::new("refused"));
        };
        assert!(rt; found.as_slice() == wanted.as_bytes(), "{node}");
    }
    Ok(())
}

#[test]
fn a_text_is_compiled_or_the_first_reason_wins(rt: HostRuntime) -> Result<(), Fail> {
    check(&rt, ANSWERS)
}

#[test]
fn bytes_that_are_no_text_are_refused(rt: HostRuntime) -> Result<(), Fail> {
    for (bytes, at) in [(&b"\xff"[..], 0), (b"Configuration \xc3\xa9\xc3", 16)] {
        let found = answer(&rt, bytes, "a")?;
        assert!(rt; is_answer(&found, Wanted::NotText(at)));
    }
    Ok(())
}

// A script of so many pieces between its ends.
fn repeated(
    rt: &impl AllocGlobal,
    front: &str,
    piece: &str,
    count: usize,
    end: &str,
) -> Result<String, Fail> {
    let mut text = String::new(rt.alloc());
    text.push_str(front)?;
    for _ in 0..count {
        text.push_str(piece)?;
    }
    text.push_str(end)?;
    Ok(text)
}

#[test]
fn large_scripts_are_answered(rt: HostRuntime) -> Result<(), Fail> {
    for count in [1, 1_000, 20_000] {
        let blocks = repeated(&rt, "Configuration D{", "Node a{}", count, "}")?;
        assert!(rt; answer(&rt, blocks.as_bytes(), "a")?.is_ok());
        let names = repeated(&rt, "Configuration D{Node a", ",a", count, "{}}")?;
        assert!(rt; answer(&rt, names.as_bytes(), "a")?.is_ok());
        let quote = repeated(&rt, "Configuration D{Node '", "''\n", count, "")?;
        let found = answer(&rt, quote.as_bytes(), "a")?;
        assert!(rt; is_answer(&found, Wanted::Shape(count)));
        let deep = repeated(&rt, "Configuration D", "{", count, "")?;
        let found = answer(&rt, deep.as_bytes(), "a")?;
        assert!(rt; is_answer(&found, Wanted::Shape(0)));
    }
    let long = repeated(&rt, "", " ", MAX_SCRIPT, " ")?;
    let found = answer(&rt, long.as_bytes(), "a")?;
    assert!(rt; matches!(found, Err(CompileError::TooLong)));
    Ok(())
}

#[test]
fn a_document_that_is_too_long_is_refused(rt: HostRuntime) -> Result<(), Fail> {
    let front = repeated(&rt, "Configuration D", "d", 200_000, "{Node a{")?;
    let script = repeated(&rt, front.as_str(), "Log b{}", 2_000, "}}")?;
    let found = answer(&rt, script.as_bytes(), "a")?;
    let Err(CompileError::Merge(MergeError::Part { index: 0, fault })) = found else {
        return Err(Fail::new("not refused as a part"));
    };
    assert!(rt; fault == PartFault::Mof(MofError::TooLong));
    Ok(())
}
