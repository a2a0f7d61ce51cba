//! What resources are about, found without memory.
ghost use Rattle.std.specs.Prelude.{◌≡◌, ◌↔◌, IfOk, IsTrue, None, Some, option_map};
ghost use Rattle.std.specs.Result.{is_err, result_ok};
ghost use Rattle.resource_kinds.specs.Paths.{path_of};
ghost use Rattle.resource_kinds.specs.Apart.{MattersMeet, matter_of};
ghost use Rattle.resource_kinds.specs.Subjects.{AsksMeeting, entry_matter, is_closed, path_matter, subject_matter, variable_matter};
ghost use Rattle.mof_values.specs.Values.{text_named};
ghost use Rattle.resource_kinds.specs.Tables.{key_of};
ghost use Rattle.resource_kinds.specs.Wanted.{by_key, by_table, on_path, wanted_of};

use crate::path_order::{PathOrder, PathRest, compare, path_in};
use crate::paths::is_path;
use crate::tables::{Kind, first_wrong, key_of, kind_of};
use crate::values::says;
use dsc_document::Resource;
use mof_values::{Instance, Text, same_text};

/// What a resource is about.
#[derive(Clone, Copy)]
pub enum Subject<'a> {
    /// A path, and the instance, which says whether a folder is asked for there.
    Path {
        path: PathRest<'a>,
        instance: &'a Instance,
    },
    Variable {
        name: &'a Text,
    },

    /// An entry of the log.
    Logged {
        id: &'a Text,
        message: &'a Text,
    },
}

/// What the resource is about, where it has no fault.
pub fn subject_of<'a>(resource: &'a Resource) -> Option<Subject<'a>>
    ensures { option_map subject_matter result ≡
        option_map matter_of (result_ok (wanted_of resource.now)) }
{
    if has_fault(resource) {
        return None;
    }
    named_subject(resource)
}

/// Returns whether the resource has no fault and is about what meets the subject.
pub fn meets(resource: &Resource, subject: Subject) -> bool
    ensures { IsTrue result ↔ AsksMeeting (result_ok (wanted_of resource.now))
        (subject_matter subject.entry) }
{
    match named_subject(resource) {
        Some(own) => meet(own, subject) && !has_fault(resource),
        None => false,
    }
}

fn has_fault(resource: &Resource) -> bool
    ensures { result ≡ is_err (wanted_of resource.now) }
{
    match kind_of(&resource.instance) {
        Some(kind) => first_wrong(kind, &resource.instance).is_some() || lacks_key(kind, resource),
        None => true,
    }
}

// Returns whether the key is missing, or no path where it should be one.
fn lacks_key(kind: Kind, resource: &Resource) -> bool
    ensures { result ≡
        is_err (by_table kind resource.now None (text_named (key_of kind) resource.now.instance)) }
{
    match resource.instance.text_named(key_of(kind)) {
        Some(text) => kind == Kind::File && !is_path(text),
        None => true,
    }
}

// What the resource is about by its class and its key alone, whatever else is wrong with it.
fn named_subject<'a>(resource: &'a Resource) -> Option<Subject<'a>>
    ensures { IfOk (wanted_of resource.now) (λ wanted. option_map subject_matter result ≡
        Some (matter_of wanted)) }
{
    match kind_of(&resource.instance) {
        Some(kind) => match resource.instance.text_named(key_of(kind)) {
            Some(text) => by_key(kind, resource, text),
            None => None,
        },
        None => None,
    }
}

fn by_key<'a>(kind: Kind, resource: &'a Resource, text: &'a Text) -> Option<Subject<'a>>
    ensures { IfOk (by_key kind resource.now text.now)
        (λ wanted. option_map subject_matter result ≡ Some (matter_of wanted)) }
{
    match kind {
        Kind::File => on_path(&resource.instance, text),
        Kind::Environment => Some(Subject::Variable { name: text }),
        Kind::Log => Some(Subject::Logged {
            id: &resource.id,
            message: text,
        }),
    }
}

fn on_path<'a>(instance: &'a Instance, text: &'a Text) -> Option<Subject<'a>>
    ensures { IfOk (on_path instance.now (path_of text.now))
        (λ wanted. option_map subject_matter result ≡ Some (matter_of wanted)) }
{
    match path_in(text.as_slice()) {
        Some(path) => Some(Subject::Path { path, instance }),
        None => None,
    }
}

fn meet(a: Subject, b: Subject) -> bool
    ensures { IsTrue result ↔ MattersMeet (subject_matter a.entry) (subject_matter b.entry) }
{
    match (a, b) {
        (
            Subject::Path { path, instance },
            Subject::Path {
                path: other,
                instance: other_instance,
            },
        ) => paths_meet(path, instance, other, other_instance),
        (Subject::Variable { name }, Subject::Variable { name: other }) => names_meet(name, other),
        (
            Subject::Logged { id, message },
            Subject::Logged {
                id: other_id,
                message: other,
            },
        ) => entries_meet(id, message, other_id, other),
        _ => false,
    }
}

fn paths_meet(
    path: PathRest,
    instance: &Instance,
    other: PathRest,
    other_instance: &Instance,
) -> bool
    ensures { IsTrue result ↔ MattersMeet (path_matter path.entry instance.now)
        (path_matter other.entry other_instance.now) }
{
    match compare(path, other) {
        PathOrder::Same => true,
        PathOrder::Above => is_closed(instance),
        PathOrder::Below => is_closed(other_instance),
        PathOrder::Apart => false,
    }
}

// Returns whether the instance asks for no folder.
fn is_closed(instance: &Instance) -> bool
    ensures { result ≡ is_closed instance.now }
{
    says(instance, "Ensure", "Absent") || !says(instance, "Type", "Directory")
}

#[tactic(auto, using(crate::proofs::SubjectsMeet::same_names_meet, crate::proofs::SubjectsMeet::met_names_same))]
fn names_meet(name: &Text, other: &Text) -> bool
    ensures { IsTrue result ↔ MattersMeet (variable_matter name.now) (variable_matter other.now) }
{
    same_text(name, other)
}

fn entries_meet(id: &Text, message: &Text, other_id: &Text, other: &Text) -> bool
    ensures { IsTrue result ↔ MattersMeet (entry_matter id.now message.now)
        (entry_matter other_id.now other.now) }
{
    message.as_slice() == other.as_slice() && same_text(id, other_id)
}
