//! The classes of all agents, and how many there are of each.
ghost use Rattle.std.specs.Prelude.{◌≡◌, ◌<◌, ◌≤◌, ◌++◌, ◌∷◌, [], IfOk, OnOk, length};
ghost use Rattle.std.specs.Fmt.{decimal};
ghost use Rattle.fleet_view.specs.Counting.{counts_of, summary_text};
ghost use Rattle.fleet_view.specs.Members.{classes_in, members_of, place_of, with_class};

use crate::counts::Counts;
use crate::member::Member;
use agent_class::{Class, class_of_row};
use itoa::Buffer;
use mof_values::Memory;
use pull_store::Row;
use std::alloc::{AllocError, Global};
use std::marker::Model;

/// The agents of a pull server with their classes, and how many there are of each class.
#[derive(Drop)]
pub struct Fleet {
    members: Vec<Member>,
    counts: Counts,
}

impl Model for Fleet {
    ghost use Rattle.std.specs.Prelude.{◌≡◌, vec_capacity};
    ghost use Rattle.fleet_view.specs.Counting.{counts_of};
    ghost use Rattle.fleet_view.specs.Members.{FleetTerm, classes_in};

    ghost Value = { FleetTerm };

    ghost view = { λ f. record { members = f.members.items; capacity = vec_capacity f.members } };

    ghost invariant = { λ f. f.counts ≡ counts_of (classes_in f.members.items) };
}

impl Fleet {
    /// The fleet of some rows.
    pub fn of(alloc: Global, rows: &[Row]) -> Result<Fleet, Memory>
        ensures { IfOk result (λ fleet. fleet.members ≡ members_of rows.now) }
    {
        let mut fleet = Fleet {
            members: Vec::new(alloc),
            counts: Counts::none(),
        };
        for row in rows {
            let class = class_of_row(alloc, row)?;
            fleet.reserve()?;
            fleet.add(row.agent, class);
        }
        Ok(fleet)
    }

    /// How many agents are of each class. Takes no memory.
    pub fn counts(&self) -> Counts
        ensures { result ≡ counts_of (classes_in self.now.members) }
    {
        self.counts
    }

    /// Takes the memory for one more agent.
    pub fn reserve(&mut self) -> Result<(), Memory>
        ensures members { self.new.members ≡ self.old.members }
        ensures capacity { OnOk result (length self.new.members < self.new.capacity) }
    {
        self.members.reserve(1)?;
        Ok(())
    }

    /// The agent is of that class from now on; a new one comes last. Takes no memory.
    pub fn put(&mut self, agent: u128, class: Class)
        requires { length self.old.members < self.old.capacity }
        ensures { self.new.members ≡ with_class agent class self.old.members }
    {
        let at = place_of(&self.members, agent);
        if at < self.members.len() {
            let member = self.members[at];
            self.counts.less(member.class);
            self.counts.more(class);
            self.members[at] = Member { agent, class };
        } else {
            self.add(agent, class);
        }
    }

    fn add(&mut self, agent: u128, class: Class)
        requires { length self.old.members < self.old.capacity }
        ensures { self.new.members ≡ self.old.members ++ record { agent = agent; class = class } ∷ [] }
    {
        self.counts.more(class);
        match self.members.push(Member { agent, class }) {
            Ok(()) => {}
            Err(_) => unreachable!(),
        }
    }

    /// The numbers of agents as JSON, with its members in byte order.
    #[tactic(auto, unfolding(crate::specs::Counting::summary_text))]
    pub fn summary(&self, alloc: Global) -> Result<Vec<u8>, Memory>
        ensures { IfOk result (λ text. text.items
            ≡ summary_text (length self.now.members) (counts_of (classes_in self.now.members))) }
    {
        let mut text = Vec::new(alloc);
        push_number(&mut text, "{\"Agents\":", self.members.len())?;
        push_number(&mut text, ",\"Compliant\":", self.counts.compliant)?;
        push_number(&mut text, ",\"Failed\":", self.counts.failed)?;
        push_number(&mut text, ",\"Other\":", self.counts.other)?;
        push_number(&mut text, ",\"Silent\":", self.counts.silent)?;
        text.push(b'}')?;
        Ok(text)
    }
}

// The place of an agent, or the number of agents.
fn place_of(members: &[Member], agent: u128) -> usize
    ensures place { result ≡ place_of agent members.now }
    ensures within { result ≤ length members.now }
{
    match members {
        [] => 0,
        [first, rest @ ..] => {
            if first.agent == agent {
                0
            } else {
                place_of(rest, agent) + 1
            }
        }
    }
}

fn push_number(text: &mut Vec<u8>, name: &str, number: usize) -> Result<(), AllocError>
    ensures { OnOk result (text.new.items ≡ text.old.items ++ name.now ++ decimal number) }
{
    let mut digits = Buffer::new();
    text.extend_from_slice(name.as_bytes())?;
    text.extend_from_slice(digits.format(number as u64).as_bytes())
}
