//! Writing of targets.
ghost use Rattle.std.specs.Prelude.{◌≡◌, ◌<◌, ◌++◌, ◌∷◌, [], All, IfOk, OnOk, encode_utf8_all, string_bytes, codes};
ghost use Rattle.std.specs.Char.{IsScalar};
ghost use Rattle.pull_messages.specs.Targets.{doubled, HasValues, IsTarget};
ghost use Rattle.pull_messages.specs.TargetText.{agent_path, escaped, escaped_all, HasRanges, path_of, target_text, upper_digit as upper_digit_of, value_text};
ghost use Rattle.pull_messages.specs.Writing.{id_text};

use crate::Target;
use mof_values::{Memory, Text};
use std::alloc::{AllocError, Global};
use uuid::Uuid;

/// Writes a target after the prefix of a server's URL, such as `/PSDSCPullServer.svc`; after that prefix it reads
/// back, where its texts have 1 to `MAX_NAME_BYTES` bytes of UTF-8.
pub fn write_target(alloc: Global, prefix: &Text, target: &Target) -> Result<Vec<u8>, Memory>
    ensures text { IfOk result (λ text. text.items ≡ target_text prefix.now target.now) }
    ensures reads_back { IfOk result (λ text. prefix.now ≡ codes "/PSDSCPullServer.svc"
        → HasValues target.now → IsTarget text.items target.now) }
{
    Ok(text_of(alloc, prefix, target)?)
}

#[tactic(auto, unfolding(crate::specs::TargetText::target_text))]
fn text_of(alloc: Global, prefix: &Text, target: &Target) -> Result<Vec<u8>, AllocError>
    ensures text { IfOk result (λ text. text.items ≡ target_text prefix.now target.now) }
    ensures ranges { OnOk result (HasRanges target.now) }
{
    let mut out = Vec::new(alloc);
    out.extend_from_slice(prefix.to_utf8()?.as_bytes())?;
    push_path(&mut out, target)?;
    Ok(out)
}

fn push_path(out: &mut Vec<u8>, target: &Target) -> Result<(), AllocError>
    ensures text { OnOk result (out.new.items ≡ out.old.items ++ path_of target.now) }
    ensures ranges { OnOk result (HasRanges target.now) }
{
    match target {
        Target::Node(id) => push_agent(out, *id, ""),
        Target::Action(id) => push_agent(out, *id, "/GetDscAction"),
        Target::SendReport(id) => push_agent(out, *id, "/SendReport"),
        Target::Content(id, name) => push_content(out, *id, name),
        Target::Module(name, version) => push_module(out, name, version),
    }
}

fn push_content(out: &mut Vec<u8>, id: u128, name: &Text) -> Result<(), AllocError>
    ensures text { OnOk result (out.new.items ≡ out.old.items
        ++ (agent_path id (codes "/Configurations(ConfigurationName='") ++ value_text name.now
        ++ codes "')/ConfigurationContent")) }
    ensures scalars { OnOk result (All IsScalar name.now) }
{
    push_agent(out, id, "/Configurations(ConfigurationName='")?;
    push_value(out, name)?;
    push_word(out, "')/ConfigurationContent")
}

fn push_module(out: &mut Vec<u8>, name: &Text, version: &Text) -> Result<(), AllocError>
    ensures text { OnOk result (out.new.items ≡ out.old.items ++ (codes "/Modules(ModuleName='" ++ value_text name.now
        ++ codes "',ModuleVersion='" ++ value_text version.now ++ codes "')/ModuleContent")) }
    ensures scalars { OnOk result (All IsScalar name.now) }
    ensures version_scalars { OnOk result (All IsScalar version.now) }
{
    push_word(out, "/Modules(ModuleName='")?;
    push_value(out, name)?;
    push_word(out, "',ModuleVersion='")?;
    push_value(out, version)?;
    push_word(out, "')/ModuleContent")
}

fn push_agent(out: &mut Vec<u8>, id: u128, end: &str) -> Result<(), AllocError>
    ensures { OnOk result (out.new.items ≡ out.old.items ++ agent_path id end.now) }
{
    push_word(out, "/Nodes(AgentId='")?;
    push_id(out, id)?;
    push_word(out, "')")?;
    push_word(out, end)
}

fn push_word(out: &mut Vec<u8>, word: &str) -> Result<(), AllocError>
    ensures { OnOk result (out.new.items ≡ out.old.items ++ word.now) }
{
    out.extend_from_slice(word.as_bytes())
}

#[tactic(auto, unfolding(crate::specs::Writing::id_text))]
fn push_id(out: &mut Vec<u8>, id: u128) -> Result<(), AllocError>
    ensures { OnOk result (out.new.items ≡ out.old.items ++ id_text id) }
{
    let mut buffer = Uuid::encode_buffer();
    let id = Uuid::from_u128(id);
    let text = id.hyphenated().encode_lower(&mut buffer);
    push_word(out, text)
}

// A text with its quotes doubled, and each byte escaped that is not unreserved.
fn push_value(out: &mut Vec<u8>, text: &Text) -> Result<(), AllocError>
    ensures text { OnOk result (out.new.items ≡ out.old.items ++ value_text text.now) }
    ensures scalars { OnOk result (All IsScalar text.now) }
{
    let spelled = quotes_doubled(*out.allocator(), text.as_slice())?;
    push_escaped(out, spelled.as_bytes())
}

fn quotes_doubled(alloc: Global, chars: &[char]) -> Result<String, AllocError>
    ensures { IfOk result (λ s. string_bytes s ≡ encode_utf8_all (doubled chars.now)) }
{
    let mut text = String::new(alloc);
    for c in chars {
        push_doubled(&mut text, *c)?;
    }
    Ok(text)
}

fn push_doubled(text: &mut String, c: char) -> Result<(), AllocError>
    ensures { OnOk result (string_bytes text.new ≡ string_bytes text.old ++ encode_utf8_all (doubled (c ∷ []))) }
{
    if c == '\'' {
        text.push_str("''")
    } else {
        text.push(c)
    }
}

fn push_escaped(out: &mut Vec<u8>, bytes: &[u8]) -> Result<(), AllocError>
    ensures { OnOk result (out.new.items ≡ out.old.items ++ escaped_all bytes.now) }
{
    for byte in bytes {
        push_byte(out, *byte)?;
    }
    Ok(())
}

fn push_byte(out: &mut Vec<u8>, byte: u8) -> Result<(), AllocError>
    ensures { OnOk result (out.new.items ≡ out.old.items ++ escaped byte) }
{
    match byte {
        b'A'..=b'Z' | b'a'..=b'z' | b'0'..=b'9' | b'-' | b'.' | b'_' | b'~' =>
            out.extend_from_slice(&[byte]),
        _ => out.extend_from_slice(&[b'%', upper_digit(byte / 16), upper_digit(byte % 16)]),
    }
}

fn upper_digit(value: u8) -> u8
    requires { value < 16 }
    ensures { result ≡ upper_digit_of value }
{
    if value < 10 {
        b'0' + value
    } else {
        b'A' + value - 10
    }
}
