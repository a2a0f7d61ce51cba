//! A line of a script.
ghost use Rattle.std.specs.Prelude.{◌≡◌, ◌∷◌, ◌<◌, ◌≤◌, [], List, ℕ, Option, Some, IfOk, IfSome, IfNone, MatchOption, length};
ghost use Rattle.rehearsal.specs.Script.{IsLine, IsStart, text_named};
ghost use Rattle.rehearsal.specs.declared.line.Line.TheVariants.{TextBegins, Does};
ghost use Rattle.rehearsal.specs.declared.step.Step.TheVariants.{Shelf, Key, Wants, Start};
ghost use Rattle.rehearsal.specs.declared.step.StopAt.{StopAt};
ghost use Rattle.rehearsal.specs.declared.line.Line.{Line};
ghost use Rattle.rehearsal.specs.declared.limits.TheConstants.{MAX_SCRIPT};

use crate::start_line::{StartLine, read_start};
use crate::step::Step;
use crate::texts::{NamedText, ScriptText, find_text};
use crate::words::{Word, after, words_of};
use mof_values::Memory;
use std::alloc::Global;

/// What a line is.
#[derive(Debug, Drop)]
pub enum Line<'a> {
    Empty,

    /// The text of this name begins after it.
    TextBegins { name: Word<'a> },

    Does { step: Step<'a> },
}

/// What the line is, where these texts stand above it; none, where it is in no form or names an unknown text.
pub fn read_line<'a>(
    alloc: Global,
    texts: &[NamedText<'a>],
    line: &'a str,
) -> Result<Option<Line<'a>>, Memory>
    requires { length line.now ≤ MAX_SCRIPT }
    ensures { IfOk result (λ read. MatchOption read
        ((other : Line) → IsLine texts.now line.now other → ⊥)
        (IsLine texts.now line.now)) }
{
    if line.is_empty() {
        return Ok(Some(Line::Empty));
    }
    if let Some(key) = after(line, "key ") {
        return Ok(read_key(key));
    }
    if let Some(id) = after(line, "wants ") {
        return Ok(read_wants(id));
    }
    if let Some(rest) = after(line, "doc ") {
        let all = words_of(alloc, rest)?;
        return Ok(read_doc(&all));
    }
    if let Some(rest) = after(line, "shelf ") {
        let all = words_of(alloc, rest)?;
        return Ok(read_shelf(texts, &all));
    }
    if let Some(rest) = after(line, "start ") {
        let all = words_of(alloc, rest)?;
        return Ok(read_start_line(texts, all));
    }
    Ok(None)
}

fn read_key<'a>(key: &'a str) -> Option<Line<'a>>
    requires { length key.now ≤ MAX_SCRIPT }
    ensures some { IfSome result (λ read. (read ≡ Does (Key key.now)) × (0 < length key.now)) }
    ensures none { IfNone result (length key.now ≡ 0) }
{
    if key.is_empty() {
        return None;
    }
    let key = ScriptText::of(key.as_bytes());
    Some(Line::Does {
        step: Step::Key { key },
    })
}

fn read_wants<'a>(id: &'a str) -> Option<Line<'a>>
    ensures some { IfSome result (λ read. (read ≡ Does (Wants id.now)) × (0 < length id.now)) }
    ensures none { IfNone result (length id.now ≡ 0) }
{
    if id.is_empty() {
        return None;
    }
    let id = Word::of(id);
    Some(Line::Does {
        step: Step::Wants { id },
    })
}

fn read_doc<'a>(all: &[Word<'a>]) -> Option<Line<'a>>
    ensures some { IfSome result (λ read. (name : List ℕ) × (read ≡ TextBegins name)
        × (all.now ≡ name ∷ []) × (0 < length name)) }
    ensures none { IfNone result ((name : List ℕ) → all.now ≡ name ∷ [] → 0 < length name → ⊥) }
{
    let [name] = all else {
        return None;
    };
    let name = name.as_str();
    if name.is_empty() {
        return None;
    }
    Some(Line::TextBegins {
        name: Word::of(name),
    })
}

fn read_shelf<'a>(texts: &[NamedText<'a>], all: &[Word<'a>]) -> Option<Line<'a>>
    ensures some { IfSome result (λ read. (configuration content name : List ℕ)
        × (read ≡ Does (Shelf configuration content))
        × (all.now ≡ configuration ∷ name ∷ []) × (0 < length configuration)
        × (text_named name texts.now ≡ Some content)) }
    ensures none { IfNone result ((configuration content name : List ℕ)
        → all.now ≡ configuration ∷ name ∷ [] → 0 < length configuration
        → text_named name texts.now ≡ Some content → ⊥) }
{
    let [configuration, name] = all else {
        return None;
    };
    let configuration = configuration.as_str();
    if configuration.is_empty() {
        return None;
    }
    let content = find_text(texts, name.as_str())?;
    Some(Line::Does {
        step: Step::Shelf {
            configuration: Word::of(configuration),
            content,
        },
    })
}

fn read_start_line<'a>(texts: &[NamedText<'a>], all: Vec<Word<'a>>) -> Option<Line<'a>>
    ensures some { IfSome result (λ read. (own : List (List ℕ)) × (input : Option (List ℕ))
        × (stop : Option StopAt) × (read ≡ Does (Start own input stop))
        × IsStart texts.now all.entry.items own input stop) }
    ensures none { IfNone result ((own : List (List ℕ)) (input : Option (List ℕ))
        (stop : Option StopAt) → IsStart texts.now all.entry.items own input stop → ⊥) }
{
    let StartLine { words, input, stop } = read_start(texts, all)?;
    Some(Line::Does {
        step: Step::Start { words, input, stop },
    })
}
