//! A text as a script, in one pass: what was found in it, and what it gives a node.
ghost use Rattle.std.specs.Prelude.{IfOk, IfSome, IfNone, OnOk, option_map};
ghost use Rattle.std.specs.Str.{chars};
ghost use Rattle.config_script.specs.Places.{event_of};
ghost use Rattle.config_script.specs.Reading.{IsNew, IsReadOf, Takes};
ghost use Rattle.config_script.specs.Scripts.{IsScript};

use crate::checks::Findings;
use crate::part::Part;
use crate::place::Place;
use crate::token::{first_token, separators_rest};
use crate::writing::Writer;
use mof_values::Memory;
use std::alloc::Global;

/// What was read of a script.
#[derive(Drop)]
pub(crate) struct Reading<'a> {
    pub(crate) findings: Findings<'a>,

    /// What it gives the node.
    pub(crate) writer: Writer<'a>,
}

/// Reads the text, which is a script; none where it is no script.
pub(crate) fn read<'a>(
    alloc: Global,
    text: &'a str,
    node: &[char],
) -> Result<Option<Reading<'a>>, Memory>
    ensures some { IfOk result (λ found. IfSome found (IsReadOf (chars text.now) node.now)) }
    ensures none { IfOk result (λ found. IfNone found (IsScript (chars text.now) → ⊥)) }
{
    let mut reading = Reading::new(alloc);
    let mut place = Place::Start;
    let (mut fed, mut left) = separators_rest(text);
    while !left.is_empty() {
        let Some((token, rest)) = first_token(left) else {
            return Ok(None);
        };
        let Some(step) = place.after(fed, token, left) else {
            return Ok(None);
        };
        reading.take(step.part, node)?;
        place = step.place;
        (fed, left) = separators_rest(rest);
    }
    match place {
        Place::End => Ok(Some(reading)),
        _ => Ok(None),
    }
}

impl<'a> Reading<'a> {
    // Before the first token.
    fn new(alloc: Global) -> Reading<'a>
        ensures { IsNew result }
    {
        Reading {
            findings: Findings::none(),
            writer: Writer::new(alloc),
        }
    }

    // Reads on over a token that adds this.
    fn take(&mut self, part: Option<Part<'a>>, node: &[char]) -> Result<(), Memory>
        ensures { OnOk result (Takes node.now self.old self.new (option_map event_of part.entry)) }
    {
        match part {
            None => Ok(()),
            Some(part) => {
                self.findings = self.findings.with(part, node);
                self.writer.take(part, node)?;
                Ok(())
            }
        }
    }
}
