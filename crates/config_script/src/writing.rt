//! The canonical text of what the blocks of a node stand for.
ghost use Rattle.std.specs.Prelude.{◌≡◌, ◌++◌, [], false, true, IfOk, OnOk, Some, codes, nat_lt, string_bytes};
ghost use Rattle.std.specs.List.{flat_map, list_all};
ghost use Rattle.std.specs.Str.{chars};
ghost use Rattle.mof_syntax.specs.Canonical.{canonical_instance, canonical_literal, canonical_scalar, literal_char};
ghost use Rattle.mof_syntax.specs.Numerals.{signed_numeral};
ghost use Rattle.mof_codec.specs.Written.{Adds};
ghost use Rattle.config_script.specs.Checking.{kind_of};
ghost use Rattle.config_script.specs.Denoting.{header, kind_named};
ghost use Rattle.config_script.specs.Named.{name_chars, number_value};
ghost use Rattle.config_script.specs.Places.{event_of, scalar_of};
ghost use Rattle.config_script.specs.Reading.{Continues, Writes};
ghost use Rattle.config_script.specs.Writing.{closing, event_text, named_after, named_text, opening, sign_of, title_after};

use crate::kind::Kind;
use crate::name::Name;
use crate::number::Number;
use crate::part::{Part, Scalar};
use mof_codec::push_literal_char;
use mof_syntax::MAX_DOCUMENT;
use mof_syntax::text::first_char;
use std::alloc::{AllocError, Global};

/// The text of a node's document, as it is written while the script is read: the resources in the blocks that name the
/// node. Once it is longer than a document may be, nothing more is written.
#[derive(Drop)]
pub(crate) struct Writer<'a> {
    pub(crate) out: String,

    /// The name of the configuration, as far as it was read.
    pub(crate) title: &'a str,

    /// Whether the block that goes on names the node.
    pub(crate) is_named: bool,
}

impl<'a> Writer<'a> {
    pub(crate) fn new(alloc: Global) -> Writer<'a>
        ensures out { string_bytes result.out ≡ [] }
        ensures title { chars result.title.now ≡ [] }
        ensures named { result.is_named ≡ false }
    {
        Writer {
            out: String::new(alloc),
            title: "",
            is_named: false,
        }
    }

    /// Writes what a further part adds.
    pub(crate) fn take(&mut self, part: Part<'a>, node: &[char]) -> Result<(), AllocError>
        ensures { OnOk result (Writes node.now self.old self.new (event_of part.entry)) }
    {
        push_within(&mut self.out, self.is_named, &part, self.title)?;
        self.title = title_after(self.title, &part);
        self.is_named = named_after(self.is_named, &part, node);
        Ok(())
    }

    /// The text with the header, where that was the last part.
    pub(crate) fn finish(self) -> Result<String, AllocError>
        ensures { IfOk result (λ text. Continues (string_bytes self.entry.out) (string_bytes text)
            (canonical_instance (header (chars self.entry.title.now)))) }
    {
        let mut out = self.out;
        if out.len() > MAX_DOCUMENT {
            return Ok(out);
        }
        push_header(&mut out, self.title)?;
        Ok(out)
    }
}

// The name of the configuration, as far as it was read.
fn title_after<'a>(title: &'a str, part: &Part<'a>) -> &'a str
    ensures { chars result.now ≡ title_after (chars title.now) (event_of part.now) }
{
    match part {
        Part::Title(name) => name,
        _ => title,
    }
}

// Returns whether the block that goes on names the node.
fn named_after(named: bool, part: &Part<'_>, node: &[char]) -> bool
    ensures { result ≡ named_after node.now named (event_of part.now) }
{
    match part {
        Part::Node(name) => named || name.is_same(node),
        Part::BlockEnd => false,
        _ => named,
    }
}

// What is written of a part, where its block names the node and the text is not too long already.
fn push_within(
    out: &mut String,
    named: bool,
    part: &Part<'_>,
    title: &str,
) -> Result<(), AllocError>
    ensures { OnOk result (Continues (string_bytes out.old) (string_bytes out.new) (named_text (chars title.now) named (event_of part.now))) }
{
    if out.len() > MAX_DOCUMENT {
        return Ok(());
    }
    push_named(out, named, part, title)?;
    Ok(())
}

// What is written of a part, where its block names the node.
fn push_named(out: &mut String, named: bool, part: &Part<'_>, title: &str) -> Result<(), AllocError>
    ensures { OnOk result (Adds (string_bytes out.old) (string_bytes out.new) (named_text (chars title.now) named (event_of part.now))) }
{
    if named {
        push_part(out, part, title)
    } else {
        Ok(())
    }
}

fn push_part(out: &mut String, part: &Part<'_>, title: &str) -> Result<(), AllocError>
    ensures { OnOk result (Adds (string_bytes out.old) (string_bytes out.new) (event_text (chars title.now) (event_of part.now))) }
{
    match part {
        Part::Kind(word) => push_kind(out, word.text),
        Part::ResourceName(name) => push_resource_name(out, *name),
        Part::ResourceEnd => push_end(out, title),
        Part::Property(word) => push_property(out, word.text),
        Part::One(scalar) => push_one(out, scalar),
        Part::ArrayBegin => push_ascii(out, "{"),
        Part::Element(scalar) => push_scalar(out, scalar),
        Part::Further(scalar) => push_further(out, scalar),
        Part::ArrayEnd => push_ascii(out, "};\n"),
        Part::Title(_) | Part::Node(_) | Part::BlockEnd => Ok(()),
    }
}

// Appends the text.
fn push_text(out: &mut String, text: &str) -> Result<(), AllocError>
    ensures { OnOk result (Adds (string_bytes out.old) (string_bytes out.new) (chars text.now)) }
{
    out.push_str(text)?;
    Ok(())
}

// Appends a text of ASCII.
fn push_ascii(out: &mut String, text: &str) -> Result<(), AllocError>
    requires { list_all (λ c. nat_lt c 128) text.now ≡ true }
    ensures { OnOk result (Adds (string_bytes out.old) (string_bytes out.new) text.now) }
{
    out.push_str(text)?;
    Ok(())
}

// The first lines of a resource, up to its name.
fn push_kind(out: &mut String, word: &str) -> Result<(), AllocError>
    ensures { OnOk result (Adds (string_bytes out.old) (string_bytes out.new) (opening (kind_named (chars word.now)))) }
{
    match Kind::named(word) {
        Some(kind) => push_opening(out, kind),
        None => Ok(()),
    }
}

fn push_opening(out: &mut String, kind: Kind) -> Result<(), AllocError>
    ensures { OnOk result (Adds (string_bytes out.old) (string_bytes out.new) (opening (Some (kind_of kind)))) }
{
    push_ascii(out, kind.opening())
}

fn push_resource_name(out: &mut String, name: Name<'_>) -> Result<(), AllocError>
    ensures { OnOk result (Adds (string_bytes out.old) (string_bytes out.new) (flat_map literal_char (name_chars name.entry) ++ codes "\";\n")) }
{
    push_name(out, name)?;
    push_ascii(out, "\";\n")?;
    Ok(())
}

// The last lines of a resource.
fn push_end(out: &mut String, title: &str) -> Result<(), AllocError>
    ensures { OnOk result (Adds (string_bytes out.old) (string_bytes out.new) (closing (chars title.now))) }
{
    push_ascii(
        out,
        " ModuleName = \"PSDesiredStateConfiguration\";\n ModuleVersion = \"1.0\";\n ConfigurationName = \"",
    )?;
    push_name(out, Name::Plain(title))?;
    push_ascii(out, "\";\n};\n")?;
    Ok(())
}

fn push_header(out: &mut String, title: &str) -> Result<(), AllocError>
    ensures { OnOk result (Adds (string_bytes out.old) (string_bytes out.new) (canonical_instance (header (chars title.now)))) }
{
    push_ascii(
        out,
        "instance of OMI_ConfigurationDocument\n{\n Version = \"2.0.0\";\n Name = \"",
    )?;
    push_name(out, Name::Plain(title))?;
    push_ascii(out, "\";\n};\n")?;
    Ok(())
}

fn push_property(out: &mut String, name: &str) -> Result<(), AllocError>
    ensures { OnOk result (Adds (string_bytes out.old) (string_bytes out.new) (codes " " ++ (chars name.now ++ codes " = "))) }
{
    push_ascii(out, " ")?;
    push_text(out, name)?;
    push_ascii(out, " = ")?;
    Ok(())
}

fn push_one(out: &mut String, scalar: &Scalar<'_>) -> Result<(), AllocError>
    ensures { OnOk result (Adds (string_bytes out.old) (string_bytes out.new) (canonical_scalar (scalar_of scalar.now) ++ codes ";\n")) }
{
    push_scalar(out, scalar)?;
    push_ascii(out, ";\n")?;
    Ok(())
}

fn push_further(out: &mut String, scalar: &Scalar<'_>) -> Result<(), AllocError>
    ensures { OnOk result (Adds (string_bytes out.old) (string_bytes out.new) (codes ", " ++ canonical_scalar (scalar_of scalar.now))) }
{
    push_ascii(out, ", ")?;
    push_scalar(out, scalar)?;
    Ok(())
}

fn push_scalar(out: &mut String, scalar: &Scalar<'_>) -> Result<(), AllocError>
    ensures { OnOk result (Adds (string_bytes out.old) (string_bytes out.new) (canonical_scalar (scalar_of scalar.now))) }
{
    match scalar {
        Scalar::Text(text) => push_literal(out, *text),
        Scalar::Integer(number) => push_number(out, *number),
        Scalar::Bool(true) => push_ascii(out, "TRUE"),
        Scalar::Bool(false) => push_ascii(out, "FALSE"),
        Scalar::Null => push_ascii(out, "NULL"),
    }
}

fn push_literal(out: &mut String, text: Name<'_>) -> Result<(), AllocError>
    ensures { OnOk result (Adds (string_bytes out.old) (string_bytes out.new) (canonical_literal (name_chars text.entry))) }
{
    push_ascii(out, "\"")?;
    push_name(out, text)?;
    push_ascii(out, "\"")?;
    Ok(())
}

fn push_number(out: &mut String, number: Number<'_>) -> Result<(), AllocError>
    ensures { OnOk result (Adds (string_bytes out.old) (string_bytes out.new) (signed_numeral (number_value number.entry))) }
{
    push_ascii(out, sign(number))?;
    push_text(out, number.digits)?;
    Ok(())
}

// The sign as it is written: a 0 has none.
fn sign(number: Number<'_>) -> &'static str
    ensures { result.now ≡ sign_of number.entry.is_negative (chars number.entry.digits.now) }
{
    if !number.is_negative {
        return "";
    }
    match first_char(number.digits) {
        Some(('0', _)) => "",
        _ => "-",
    }
}

// The characters, each as itself or by its escape.
fn push_name(out: &mut String, name: Name<'_>) -> Result<(), AllocError>
    ensures { OnOk result (Adds (string_bytes out.old) (string_bytes out.new) (flat_map literal_char (name_chars name.entry))) }
{
    let mut left = name;
    while let Some((c, rest)) = left.first() {
        push_literal_char(out, c)?;
        left = rest;
    }
    Ok(())
}
