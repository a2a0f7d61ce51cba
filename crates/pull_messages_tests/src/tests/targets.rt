//! What targets are, as they are written again, and where a text stops being one.
use super::made::{expect, joined};
use mof_values::Text;
use pull_messages::*;
use std::alloc::Global;
use std::test::Fail;

fn again(alloc: Global, text: &[u8]) -> Result<Vec<u8>, TargetError> {
    let target = target(alloc, text)?;
    written(alloc, &target)
}

fn written(alloc: Global, target: &Target) -> Result<Vec<u8>, TargetError> {
    let prefix = Text::from_latin1(alloc, b"/PSDSCPullServer.svc")?;
    match write_target(alloc, &prefix, target) {
        Ok(text) => Ok(text),
        Err(_) => Err(TargetError::Memory),
    }
}

// Returns whether the text is that target, or none from that byte on.
fn answers(alloc: Global, text: &[u8], wanted: &Result<&str, usize>) -> bool {
    match (&again(alloc, text), wanted) {
        (Ok(text), Ok(wanted)) => text.as_slice() == wanted.as_bytes(),
        (Err(TargetError::BadTarget { at }), Err(wanted)) => at == wanted,
        _ => false,
    }
}

#[test]
fn targets_are_read_in_their_five_forms_and_written(rt: HostRuntime) -> Result<(), Fail> {
    for (text, wanted) in TARGETS {
        expect(answers(rt.alloc(), text.as_bytes(), wanted), text)?;
    }
    Ok(())
}

const CONTENT: &str =
    "/PSDSCPullServer.svc/Nodes(AgentId='00000000-0000-0000-0000-000000000001')/Configurations(ConfigurationName='";

const END: &str = "')/ConfigurationContent";

// A value of that many pieces, which come back as that piece, or none from that byte on.
const VALUES: &[(&str, usize, Result<&str, usize>)] = &[
    ("a", 1, Ok("a")),
    ("a", 2, Ok("a")),
    ("a", 7, Ok("a")),
    ("a", 63, Ok("a")),
    ("a", 64, Ok("a")),
    ("a", 65, Ok("a")),
    ("a", 255, Ok("a")),
    ("%61", 255, Ok("a")),
    ("''", 255, Ok("%27%27")),
    ("\u{E9}", 127, Ok("%C3%A9")),
    ("a", 0, Err(110)),
    ("a", 256, Err(364)),
    ("a", 4096, Err(364)),
    ("%61", 256, Err(874)),
    ("''", 256, Err(620)),
    ("\u{E9}", 128, Err(363)),
    ("%C3%A9", 128, Err(871)),
];

fn expect_value(
    alloc: Global,
    piece: &str,
    count: usize,
    wanted: &Result<&str, usize>,
) -> Result<(), Fail> {
    let text = joined(alloc, &[(CONTENT, 1), (piece, count), (END, 1)])?;
    match wanted {
        Ok(back) => {
            let back = joined(alloc, &[(CONTENT, 1), (back, count), (END, 1)])?;
            expect(answers(alloc, text.as_bytes(), &Ok(&back)), &text)
        }
        Err(at) => expect(answers(alloc, text.as_bytes(), &Err(*at)), &text),
    }
}

#[test]
fn values_have_1_to_255_bytes(rt: HostRuntime) -> Result<(), Fail> {
    for (piece, count, wanted) in VALUES {
        expect_value(rt.alloc(), piece, *count, wanted)?;
    }
    Ok(())
}

const TARGETS: &[(&str, Result<&str, usize>)] = &[
    (
        "/PSDSCPullServer.svc/nodes(AgentId='00000000-0000-0000-0000-000000000001')",
        Ok("/PSDSCPullServer.svc/Nodes(AgentId='00000000-0000-0000-0000-000000000001')"),
    ),
    (
        "/PSDSCPullServer.svc/NODES(AGENTID='00000000-0000-0000-0000-000000000001')/getdscaction",
        Ok(
            "/PSDSCPullServer.svc/Nodes(AgentId='00000000-0000-0000-0000-000000000001')/GetDscAction",
        ),
    ),
    (
        "/PSDSCPullServer.svc/Nodes(AgentId='00000000-0000-0000-0000-000000000001')/SendReport",
        Ok("/PSDSCPullServer.svc/Nodes(AgentId='00000000-0000-0000-0000-000000000001')/SendReport"),
    ),
    (
        "/PSDSCPullServer.svc/Nodes(AgentId='00000000-0000-0000-0000-000000000001')/Configurations(ConfigurationName='Web')/ConfigurationContent",
        Ok(
            "/PSDSCPullServer.svc/Nodes(AgentId='00000000-0000-0000-0000-000000000001')/Configurations(ConfigurationName='Web')/ConfigurationContent",
        ),
    ),
    (
        "/PSDSCPullServer.svc/modules(ModuleName='xWeb',ModuleVersion='1.0')/ModuleContent",
        Ok("/PSDSCPullServer.svc/Modules(ModuleName='xWeb',ModuleVersion='1.0')/ModuleContent"),
    ),
    (
        "/PSDSCPullServer.svc/Nodes(AgentId='aBcDeF01-0000-0000-0000-00000000000F')",
        Ok("/PSDSCPullServer.svc/Nodes(AgentId='abcdef01-0000-0000-0000-00000000000f')"),
    ),
    (
        "/PSDSCPullServer.svc/%4eodes%28AgentId%3D%2700000000-0000-0000-0000-000000000001%27%29",
        Ok("/PSDSCPullServer.svc/Nodes(AgentId='00000000-0000-0000-0000-000000000001')"),
    ),
    (
        "/PSDSCPullServer.svc/Nodes(AgentId='%30%30000000-0000-0000-0000-000000000001')",
        Ok("/PSDSCPullServer.svc/Nodes(AgentId='00000000-0000-0000-0000-000000000001')"),
    ),
    (
        "/PSDSCPullServer.svc/Nodes(AgentId='00000000-0000-0000-0000-000000000001')/Configurations(ConfigurationName='a''b')/ConfigurationContent",
        Ok(
            "/PSDSCPullServer.svc/Nodes(AgentId='00000000-0000-0000-0000-000000000001')/Configurations(ConfigurationName='a%27%27b')/ConfigurationContent",
        ),
    ),
    (
        "/PSDSCPullServer.svc/Nodes(AgentId='00000000-0000-0000-0000-000000000001')/Configurations(ConfigurationName='a%27%27b')/ConfigurationContent",
        Ok(
            "/PSDSCPullServer.svc/Nodes(AgentId='00000000-0000-0000-0000-000000000001')/Configurations(ConfigurationName='a%27%27b')/ConfigurationContent",
        ),
    ),
    (
        "/PSDSCPullServer.svc/Nodes(AgentId='00000000-0000-0000-0000-000000000001')/Configurations(ConfigurationName='''')/ConfigurationContent",
        Ok(
            "/PSDSCPullServer.svc/Nodes(AgentId='00000000-0000-0000-0000-000000000001')/Configurations(ConfigurationName='%27%27')/ConfigurationContent",
        ),
    ),
    (
        "/PSDSCPullServer.svc/Nodes(AgentId='00000000-0000-0000-0000-000000000001')/Configurations(ConfigurationName='%25%34%31')/ConfigurationContent",
        Ok(
            "/PSDSCPullServer.svc/Nodes(AgentId='00000000-0000-0000-0000-000000000001')/Configurations(ConfigurationName='%2541')/ConfigurationContent",
        ),
    ),
    (
        "/PSDSCPullServer.svc/Nodes(AgentId='00000000-0000-0000-0000-000000000001')/Configurations(ConfigurationName=')')/ConfigurationContent",
        Ok(
            "/PSDSCPullServer.svc/Nodes(AgentId='00000000-0000-0000-0000-000000000001')/Configurations(ConfigurationName='%29')/ConfigurationContent",
        ),
    ),
    (
        "/PSDSCPullServer.svc/Nodes(AgentId='00000000-0000-0000-0000-000000000001')/Configurations(ConfigurationName='%C3%A9')/ConfigurationContent",
        Ok(
            "/PSDSCPullServer.svc/Nodes(AgentId='00000000-0000-0000-0000-000000000001')/Configurations(ConfigurationName='%C3%A9')/ConfigurationContent",
        ),
    ),
    (
        "/PSDSCPullServer.svc/Nodes(AgentId='00000000-0000-0000-0000-000000000001')/Configurations(ConfigurationName='\u{E9}%c3\u{E9}')/ConfigurationContent",
        Err(111),
    ),
    (
        "/PSDSCPullServer.svc/modules(ModuleName=',',ModuleVersion=')')/ModuleContent",
        Ok("/PSDSCPullServer.svc/Modules(ModuleName='%2C',ModuleVersion='%29')/ModuleContent"),
    ),
    (
        "/PSDSCPullServer.svc/Nodes(AgentId='00000000-0000-0000-0000-000000000001')/Configurations(ConfigurationName='WEB')/configurationcontent",
        Ok(
            "/PSDSCPullServer.svc/Nodes(AgentId='00000000-0000-0000-0000-000000000001')/Configurations(ConfigurationName='WEB')/ConfigurationContent",
        ),
    ),
    (
        "/PSDSCPullServer.svc/Nodes(AgentId='00000000-0000-0000-0000-000000000001')/GetDscAction",
        Ok(
            "/PSDSCPullServer.svc/Nodes(AgentId='00000000-0000-0000-0000-000000000001')/GetDscAction",
        ),
    ),
    (
        "/psdscpullserver.SVC/Nodes(AgentId='00000000-0000-0000-0000-000000000001')",
        Ok("/PSDSCPullServer.svc/Nodes(AgentId='00000000-0000-0000-0000-000000000001')"),
    ),
    (
        "%2FPSDSCPullServer%2Esvc%2fNodes(AgentId='00000000-0000-0000-0000-000000000001')",
        Ok("/PSDSCPullServer.svc/Nodes(AgentId='00000000-0000-0000-0000-000000000001')"),
    ),
    ("", Err(0)),
    ("*", Err(0)),
    ("PSDSCPullServer.svc", Err(0)),
    ("http://s/PSDSCPullServer.svc/", Err(0)),
    ("/", Err(1)),
    ("/PSDSCPullServer.svc", Err(20)),
    ("/PSDSCPullServer.svc/Node", Err(25)),
    ("/PSDSCPullServer.svc/Nods", Err(24)),
    ("/PSDSCPullServer.svcx", Err(20)),
    ("/%50SDSCPullServer.svd", Err(21)),
    ("%2", Err(0)),
    ("%", Err(0)),
    ("%4G", Err(0)),
    ("%2F%", Err(3)),
    ("/PSDSCPullServer.svc/M", Err(22)),
    ("/PSDSCPullServer.svc/%4", Err(21)),
    ("/PSDSCPullServer.svc/%4e", Err(24)),
    ("/PSDSCPullServer.svc/%zz", Err(21)),
    (
        "/PSDSCPullServer.svc/Nodes(AgentId='00000000-0000-0000-0000-000000000001",
        Err(72),
    ),
    (
        "/PSDSCPullServer.svc/Nodes(AgentId='00000000-0000-0000-0000-000000000001'",
        Err(73),
    ),
    (
        "/PSDSCPullServer.svc/Nodes(AgentId='00000000-0000-0000-0000-000000000001')/",
        Err(75),
    ),
    (
        "/PSDSCPullServer.svc/Nodes(AgentId='00000000-0000-0000-0000-000000000001')x",
        Err(74),
    ),
    (
        "/PSDSCPullServer.svc/Nodes(AgentId='00000000-0000-0000-0000-000000000001')?a=b",
        Err(74),
    ),
    (
        "/PSDSCPullServer.svc/Nodes(AgentId='00000000-0000-0000-0000-000000000001')/GetDscActions",
        Err(87),
    ),
    (
        "/PSDSCPullServer.svc/Nodes(AgentId='00000000-0000-0000-0000-000000000001')/Get",
        Err(78),
    ),
    (
        "/PSDSCPullServer.svc/Nodes(AgentId='00000000-0000-0000-0000-000000000001')/SendReports",
        Err(85),
    ),
    (
        "/PSDSCPullServer.svc/Nodes(AgentId='00000000-0000-0000-0000-000000000001')/Reports",
        Err(75),
    ),
    ("/PSDSCPullServer.svc/Nodes(AgentId='')", Err(36)),
    ("/PSDSCPullServer.svc/Nodes(AgentId='0000000G", Err(43)),
    (
        "/PSDSCPullServer.svc/Nodes(AgentId='00000000000000000000000000000001')",
        Err(44),
    ),
    (
        "/PSDSCPullServer.svc/Nodes(AgentId='{00000000-0000-0000-0000-000000000001}')",
        Err(36),
    ),
    (
        "/PSDSCPullServer.svc/Nodes(AgentId='00000000-0000-0000-0000-000000000001')/Configurations(ConfigurationName='')/ConfigurationContent",
        Err(110),
    ),
    (
        "/PSDSCPullServer.svc/Nodes(AgentId='00000000-0000-0000-0000-000000000001')/Configurations(ConfigurationName=''",
        Err(110),
    ),
    (
        "/PSDSCPullServer.svc/Nodes(AgentId='00000000-0000-0000-0000-000000000001')/Configurations(ConfigurationName='a'b",
        Err(111),
    ),
    (
        "/PSDSCPullServer.svc/Nodes(AgentId='00000000-0000-0000-0000-000000000001')/Configurations(ConfigurationName='a",
        Err(110),
    ),
    (
        "/PSDSCPullServer.svc/Nodes(AgentId='00000000-0000-0000-0000-000000000001')/Configurations(ConfigurationName=a",
        Err(108),
    ),
    (
        "/PSDSCPullServer.svc/Nodes(AgentId='00000000-0000-0000-0000-000000000001')/Configurations(ConfigurationName='%C3",
        Err(109),
    ),
    (
        "/PSDSCPullServer.svc/Nodes(AgentId='00000000-0000-0000-0000-000000000001')/Configurations(ConfigurationName='%C3%2",
        Err(109),
    ),
    (
        "/PSDSCPullServer.svc/Nodes(AgentId='00000000-0000-0000-0000-000000000001')/Configurations(ConfigurationName='%C3%A9%2",
        Err(115),
    ),
    (
        "/PSDSCPullServer.svc/Nodes(AgentId='00000000-0000-0000-0000-000000000001')/Configurations(ConfigurationName='%ff",
        Err(109),
    ),
    (
        "/PSDSCPullServer.svc/Nodes(AgentId='00000000-0000-0000-0000-000000000001')/Configurations(ConfigurationName='a')/ConfigurationContents",
        Err(133),
    ),
    ("/PSDSCPullServer.svc/Modules(ModuleName='m')", Err(43)),
    (
        "/PSDSCPullServer.svc/Modules(ModuleName='m',ModuleVersion='v')/ModuleContent/",
        Err(76),
    ),
    (
        "/PSDSCPullServer.svc/Modules(ModuleName='m',ModuleVersion='')",
        Err(60),
    ),
];
