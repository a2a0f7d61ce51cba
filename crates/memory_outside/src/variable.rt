//! Variables of a host in memory.
ghost use Rattle.std.specs.Prelude.{◌≡◌, ◌≤◌, ◌<◌, ◌++◌, ◌∷◌, [], IfOk, None, OnErr, OnOk, Some, vec_capacity, vec_len};
ghost use Rattle.std.specs.Map.{update};
ghost use Rattle.std.specs.Option.{option_copied};
ghost use Rattle.std.specs.Str.{bytes_eq};
ghost use Rattle.memory_outside.specs.MemoryHost.{value_of};

use mof_values::Bytes;
use std::alloc::{AllocError, Global};

/// An environment variable.
#[derive(Debug, Drop, PartialEq)]
pub struct Variable {
    /// The UTF-8 of its folded name; who makes it folds it.
    pub name: Bytes,

    pub value: Bytes,
}

/// The value of the first variable of that name.
pub fn find_value<'a>(variables: &'a [Variable], name: &[u8]) -> Option<&'a [u8]>
    ensures { option_copied result ≡ value_of variables.now name.now }
{
    for variable in variables {
        if variable.name.as_slice() == name {
            return Some(variable.value.as_slice());
        }
    }
    None
}

/// Gives the variable of that name this value. Without memory the variables stay.
pub fn put_value(variables: &mut Vec<Variable>, name: &[u8], value: &[u8]) -> Result<(), AllocError>
    ensures ok { OnOk result (value_of variables.new.items ≡
        update bytes_eq (value_of variables.old.items) name.now (Some value.now)) }
    ensures err { OnErr result (variables.new.items ≡ variables.old.items) }
{
    let variable = new_variable(*variables.allocator(), name, value)?;
    variables.reserve(1)?;
    remove_value(variables, name);
    push(variables, variable);
    Ok(())
}

/// Takes the variables of that name away.
pub fn remove_value(variables: &mut Vec<Variable>, name: &[u8])
    ensures removed { value_of variables.new.items ≡
        update bytes_eq (value_of variables.old.items) name.now None }
    ensures count { vec_len variables.new ≤ vec_len variables.old }
    ensures capacity { vec_capacity variables.new ≡ vec_capacity variables.old }
{
    variables.retain(|variable| variable.name.as_slice() != name);
}

fn new_variable(alloc: Global, name: &[u8], value: &[u8]) -> Result<Variable, AllocError>
    ensures { IfOk result (λ v. v ≡ record { name = name.now; value = value.now }) }
{
    Ok(Variable {
        name: Bytes::of(name.to_vec(alloc)?),
        value: Bytes::of(value.to_vec(alloc)?),
    })
}

// Adds a variable for which capacity is reserved.
fn push(variables: &mut Vec<Variable>, variable: Variable)
    requires { vec_len variables.old < vec_capacity variables.old }
    ensures { variables.new.items ≡ variables.old.items ++ variable ∷ [] }
{
    match variables.push(variable) {
        Ok(()) => {}
        Err(_) => unreachable!(),
    }
}
