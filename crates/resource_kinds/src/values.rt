//! The values of properties, and what an instance says by them.
ghost use Rattle.std.specs.Prelude.{◌≡◌, Some};
ghost use Rattle.std.specs.Option.{option_copied};
ghost use Rattle.mof_values.specs.Fold.{same_name};
ghost use Rattle.mof_values.specs.Values.{text_of, value_named, text_named};
ghost use Rattle.resource_kinds.specs.Tables.{is_absent, is_directory, is_either, is_given, is_filled_text, is_kind_of_file, is_null, is_presence, is_text, is_truth_value, is_word, is_true, says, says_yes};

use mof_values::{Instance, Scalar, Text, Value, is_named};

pub fn is_null(value: &Value) -> bool
    ensures { result ≡ is_null value.now }
{
    matches!(value, Value::One(Scalar::Null))
}

pub fn is_text(value: &Value) -> bool
    ensures { result ≡ is_text value.now }
{
    value.as_text().is_some()
}

pub fn is_filled_text(value: &Value) -> bool
    ensures { result ≡ is_filled_text value.now }
{
    match value.as_text() {
        Some(text) => is_given(text),
        None => false,
    }
}

fn is_given(text: &Text) -> bool
    ensures { result ≡ is_given (Some text.now) }
{
    match text.as_slice() {
        [_, ..] => true,
        [] => false,
    }
}

pub fn is_kind_of_file(value: &Value) -> bool
    ensures { result ≡ is_kind_of_file value.now }
{
    is_either(value, "File", "Directory")
}

pub fn is_presence(value: &Value) -> bool
    ensures { result ≡ is_presence value.now }
{
    is_either(value, "Present", "Absent")
}

fn is_either(value: &Value, first: &str, second: &str) -> bool
    ensures { result ≡ is_either first.now second.now value.now }
{
    is_word(value.as_text(), first) || is_word(value.as_text(), second)
}

pub fn is_truth_value(value: &Value) -> bool
    ensures { result ≡ is_truth_value value.now }
{
    matches!(value, Value::One(Scalar::Bool(_)))
}

/// Returns whether the property of that name is this word, by fold.
pub fn says(instance: &Instance, name: &str, word: &str) -> bool
    ensures { result ≡ says name.now word.now instance.now }
{
    is_word(instance.text_named(name), word)
}

/// Returns whether the property of that name is true.
pub fn says_yes(instance: &Instance, name: &str) -> bool
    ensures { result ≡ says_yes name.now instance.now }
{
    match instance.value_named(name) {
        Some(value) => is_true(value),
        None => false,
    }
}

fn is_true(value: &Value) -> bool
    ensures { result ≡ is_true value.now }
{
    match value {
        Value::One(Scalar::Bool(yes)) => *yes,
        _ => false,
    }
}

fn is_word(text: Option<&Text>, word: &str) -> bool
    ensures { result ≡ is_word word.now (option_copied text.entry) }
{
    match text {
        Some(text) => is_named(text.as_slice(), word),
        None => false,
    }
}
