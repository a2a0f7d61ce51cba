//! The programs that a command names.
ghost use Rattle.std.specs.Prelude.{◌≡◌, ◌++◌, Ok, IfOk, OnOk, MatchResult, option_to_list, string_bytes};
ghost use Rattle.std.specs.List.{filter_map};
ghost use Rattle.std.specs.Option.{option_copied};
ghost use Rattle.mof_values.specs.Values.{text_of_scalar};
ghost use Rattle.command_kind.specs.Programs.{IsWhyNot, arguments_property, named_program, program_of, program_property, texts_in};

use crate::tables::{first_missing, first_wrong, name_of};
use mof_values::{Ident, Instance, Scalar, Text, Value};
use resource_kinds::Failure;
use std::alloc::{AllocError, Global};
use std::marker::Model;

/// What a program is for.
#[derive(Clone, Copy, Debug, PartialEq, Eq)]
pub enum Purpose {
    Test,
    Set,
}

impl Purpose {
    fn program_property(self) -> &'static str
        ensures { result.now ≡ program_property self }
    {
        match self {
            Purpose::Test => "TestProgram",
            Purpose::Set => "SetProgram",
        }
    }

    fn arguments_property(self) -> &'static str
        ensures { result.now ≡ arguments_property self }
    {
        match self {
            Purpose::Test => "TestArguments",
            Purpose::Set => "SetArguments",
        }
    }
}

/// A program with its arguments.
#[derive(Debug, Drop)]
pub struct Program {
    name: String,
    words: Vec<Text>,
}

impl Model for Program {
    ghost use Rattle.std.specs.Prelude.{string_bytes};
    ghost use Rattle.command_kind.specs.Programs.{Program as Named};

    ghost Value = { Named };

    ghost view = { λ p. record { name = string_bytes p.name; words = p.words.items } };
}

impl Program {
    pub fn name(&self) -> &str
        ensures { result.now ≡ self.now.name }
    {
        &self.name
    }

    pub fn words(&self) -> &[Text]
        ensures { result.now ≡ self.now.words }
    {
        &self.words
    }
}

/// Why it is not known which program a command names.
#[derive(Debug, Drop)]
pub enum ProgramError {
    /// It has this fault.
    Fault(Failure),
    Memory,
}

impl From<AllocError> for ProgramError {
    ghost use Rattle.command_kind.specs.declared.program.ProgramError.TheVariants as errors;

    ghost from_gives = { λ _ e. e ≡ errors.Memory };

    fn from(_: AllocError) -> Self {
        ProgramError::Memory
    }
}

/// The program of a command for its Test or its Set, or the command's fault.
///
/// The fault is the first of: the first property in the text that may not stand there, and the first that is missing of
/// Name, TestProgram and SetProgram.
pub fn program_of(
    alloc: Global,
    purpose: Purpose,
    instance: &Instance,
) -> Result<Program, ProgramError>
    ensures { MatchResult result (λ program. program_of purpose instance.now ≡ Ok program)
        (λ error. IsWhyNot (program_of purpose instance.now) error) }
{
    if let Some(property) = first_wrong(instance) {
        return Err(out_of_profile(property.name.clone()));
    }
    if let Some(needed) = first_missing(instance) {
        return Err(out_of_profile(name_of(alloc, needed)));
    }
    Ok(named_program(alloc, purpose, instance)?)
}

fn out_of_profile(name: Result<Ident, AllocError>) -> ProgramError
    ensures { MatchResult name (λ name. result ≡ ProgramError.Fault (Failure.OutOfProfile name))
        (λ _. result ≡ ProgramError.Memory) }
{
    match name {
        Ok(name) => ProgramError::Fault(Failure::OutOfProfile(name)),
        Err(AllocError) => ProgramError::Memory,
    }
}

fn named_program(
    alloc: Global,
    purpose: Purpose,
    instance: &Instance,
) -> Result<Program, AllocError>
    ensures { IfOk result (λ program. program ≡ named_program purpose instance.now) }
{
    let name = match instance.text_named(purpose.program_property()) {
        Some(text) => text.to_utf8()?,
        None => String::new(alloc),
    };
    let words = texts_in(alloc, instance.value_named(purpose.arguments_property()))?;
    Ok(Program { name, words })
}

// Copies of the texts of a value.
fn texts_in(alloc: Global, value: Option<&Value>) -> Result<Vec<Text>, AllocError>
    ensures { IfOk result (λ texts. texts.items ≡ texts_in (option_copied value.entry)) }
{
    match value {
        Some(value) => texts_among(alloc, value.scalars()),
        None => Ok(Vec::new(alloc)),
    }
}

fn texts_among(alloc: Global, scalars: &[Scalar]) -> Result<Vec<Text>, AllocError>
    ensures { IfOk result (λ texts. texts.items ≡ filter_map text_of_scalar scalars.now) }
{
    let mut texts = Vec::new(alloc);
    for scalar in scalars {
        push_text(&mut texts, scalar)?;
    }
    Ok(texts)
}

fn push_text(texts: &mut Vec<Text>, scalar: &Scalar) -> Result<(), AllocError>
    ensures { OnOk result
        (texts.new.items ≡ texts.old.items ++ option_to_list (text_of_scalar scalar.now)) }
{
    if let Scalar::Text(text) = scalar {
        texts.push(text.copy()?)?;
    }
    Ok(())
}
