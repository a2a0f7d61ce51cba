//! The commands that start the node.
ghost use Rattle.std.specs.Prelude.{◌≡◌, []};
ghost use Rattle.dsc_outside.specs.Link.{GoesOn};
ghost use Rattle.dsc_outside.specs.LinkView.{view_of};
ghost use Rattle.dsc_node.specs.Commands.{IsTaken};
ghost use Rattle.dsc_node.specs.Start.{outside};
ghost use Rattle.dsc_node.specs.Work.{known};
ghost use Rattle.lcm_program.specs.Further.{nothing_further};
ghost use Rattle.lcm_program.specs.Started.{IsStart, MetaEnds, PartEnds, PushEnds, RegisterEnds};

use crate::input::{read_bytes, read_meta};
use crate::printing::{print_start, print_unread};
use dsc_node::{Command, Status, start_over};
use dsc_outside::{Clock, Disk, Link, Sink, Source};
use mof_values::{Bytes, Text};
use resource_kinds::Machine;
use std::alloc::{AllocError, Global};

/// Starts the node with the command, and prints how that ended.
pub fn start_node<K: Sink, D: Disk, M: Machine, L: Link, C: Clock>(
    alloc: Global,
    command: Command,
    output: &mut K,
    disk: &mut D,
    machine: &mut M,
    link: &mut L,
    clock: &mut C,
) -> Status
    requires taken { IsTaken command }
    requires fresh { M.trace machine.old ≡ [] }
    ensures starts { IsStart K.Ends (known D.Disk M.Resources M.Machine.own C.Clock) nothing_further
        command result output.old output.new
        (outside disk.old machine.old (view_of L.Link link.old) clock.old)
        (outside disk.new machine.new (view_of L.Link link.new) clock.new) }
    ensures becomes { L.may_become link.old link.new }
    ensures goes_on { GoesOn (view_of L.Link link.old) (view_of L.Link link.new) }
{
    print_start(
        alloc,
        output,
        start_over(alloc, command, disk, machine, link, clock),
    )
}

/// Starts the node with its registration under this name.
pub fn register<K: Sink, D: Disk, M: Machine, L: Link, C: Clock>(
    alloc: Global,
    name: &str,
    output: &mut K,
    disk: &mut D,
    machine: &mut M,
    link: &mut L,
    clock: &mut C,
) -> Status
    requires fresh { M.trace machine.old ≡ [] }
    ensures ends { RegisterEnds K.Ends (known D.Disk M.Resources M.Machine.own C.Clock)
        nothing_further name.now result output.old output.new
        (outside disk.old machine.old (view_of L.Link link.old) clock.old)
        (outside disk.new machine.new (view_of L.Link link.new) clock.new) }
    ensures becomes { L.may_become link.old link.new }
    ensures goes_on { GoesOn (view_of L.Link link.old) (view_of L.Link link.new) }
{
    match Text::from_utf8(alloc, name) {
        Ok(text) => start_node(
            alloc,
            Command::Register(text),
            output,
            disk,
            machine,
            link,
            clock,
        ),
        Err(AllocError) => Status::Memory,
    }
}

/// Reads the input to its end, and starts the node with it as the document that is pushed, under a name as the part of the partial
/// configuration that has the name; where it is not read nothing else is touched.
pub fn push<S: Source, K: Sink, D: Disk, M: Machine, L: Link, C: Clock>(
    alloc: Global,
    name: Option<Text>,
    input: &mut S,
    output: &mut K,
    disk: &mut D,
    machine: &mut M,
    link: &mut L,
    clock: &mut C,
) -> Status
    requires fresh { M.trace machine.old ≡ [] }
    ensures ends { PushEnds S.Ends K.Ends (known D.Disk M.Resources M.Machine.own C.Clock)
        nothing_further name result input.old input.new output.old output.new
        (outside disk.old machine.old (view_of L.Link link.old) clock.old)
        (outside disk.new machine.new (view_of L.Link link.new) clock.new) }
    ensures becomes { L.may_become link.old link.new }
    ensures goes_on { GoesOn (view_of L.Link link.old) (view_of L.Link link.new) }
{
    match read_bytes(alloc, input) {
        Ok(bytes) => start_node(
            alloc,
            Command::Push(name, Bytes::of(bytes)),
            output,
            disk,
            machine,
            link,
            clock,
        ),
        Err(unread) => print_unread(alloc, output, unread),
    }
}

/// Reads the input to its end, and starts the node with it as the part of the partial configuration that has the name; where it is
/// not read nothing else is touched.
pub fn push_part<S: Source, K: Sink, D: Disk, M: Machine, L: Link, C: Clock>(
    alloc: Global,
    name: &str,
    input: &mut S,
    output: &mut K,
    disk: &mut D,
    machine: &mut M,
    link: &mut L,
    clock: &mut C,
) -> Status
    requires fresh { M.trace machine.old ≡ [] }
    ensures ends { PartEnds S.Ends K.Ends (known D.Disk M.Resources M.Machine.own C.Clock)
        nothing_further name.now result input.old input.new output.old output.new
        (outside disk.old machine.old (view_of L.Link link.old) clock.old)
        (outside disk.new machine.new (view_of L.Link link.new) clock.new) }
    ensures becomes { L.may_become link.old link.new }
    ensures goes_on { GoesOn (view_of L.Link link.old) (view_of L.Link link.new) }
{
    match Text::from_utf8(alloc, name) {
        Ok(text) => push(alloc, Some(text), input, output, disk, machine, link, clock),
        Err(AllocError) => Status::Memory,
    }
}

/// Reads the input to its end, and starts the node with the meta-configuration that it declares; where it is not read nothing else
/// is touched.
pub fn set_meta<S: Source, K: Sink, D: Disk, M: Machine, L: Link, C: Clock>(
    alloc: Global,
    input: &mut S,
    output: &mut K,
    disk: &mut D,
    machine: &mut M,
    link: &mut L,
    clock: &mut C,
) -> Status
    requires fresh { M.trace machine.old ≡ [] }
    ensures ends { MetaEnds S.Ends K.Ends (known D.Disk M.Resources M.Machine.own C.Clock)
        nothing_further result input.old input.new output.old output.new
        (outside disk.old machine.old (view_of L.Link link.old) clock.old)
        (outside disk.new machine.new (view_of L.Link link.new) clock.new) }
    ensures becomes { L.may_become link.old link.new }
    ensures goes_on { GoesOn (view_of L.Link link.old) (view_of L.Link link.new) }
{
    match read_meta(alloc, input) {
        Ok(meta) => start_node(
            alloc,
            Command::Meta(meta),
            output,
            disk,
            machine,
            link,
            clock,
        ),
        Err(unread) => print_unread(alloc, output, unread),
    }
}
