//! The line of a start.
ghost use Rattle.std.specs.Prelude.{◌≡◌, ◌≤◌, ◌∷◌, ℕ, Option, List, IfSome, IfNone, codes, length};
ghost use Rattle.rehearsal.specs.Script.{IsCall, IsEnd, IsStart, IsStop, are_start_words, is_mark, is_start_word, mark_place, part_word};
ghost use Rattle.rehearsal.specs.declared.step.StopAt.{StopAt};
ghost use Rattle.rehearsal.specs.declared.step.StopPart.{StopPart};

use crate::step::{StopAt, StopPart};
use crate::texts::{NamedText, ScriptText, find_text};
use crate::words::Word;
use mof_values::Items;

/// What a start has: words, an input and a stop.
#[derive(Debug, Drop)]
pub struct StartLine<'a> {
    pub words: Items<Word<'a>>,
    pub input: Option<ScriptText<'a>>,
    pub stop: Option<StopAt>,
}

/// What the words after `start` are.
pub fn read_start<'a>(texts: &[NamedText<'a>], all: Vec<Word<'a>>) -> Option<StartLine<'a>>
    ensures some { IfSome result (λ line. IsStart texts.now all.entry.items
        line.words line.input line.stop) }
    ensures none { IfNone result ((own : List (List ℕ)) (input : Option (List ℕ))
        (stop : Option StopAt) → IsStart texts.now all.entry.items own input stop → ⊥) }
{
    let mut own = all;
    let at = mark_place(&own);
    let end = read_end(texts, &own[at..])?;
    own.truncate(at);
    if !are_start_words(&own) {
        return None;
    }
    Some(StartLine {
        words: Items::of(own),
        input: end.input,
        stop: end.stop,
    })
}

fn mark_place(all: &[Word]) -> usize
    ensures place { result ≡ mark_place all.now }
    ensures within { result ≤ length all.now }
{
    let mut at = 0;
    while at < all.len() && !is_mark(&all[at]) {
        at += 1;
    }
    at
}

fn is_mark(word: &Word) -> bool
    ensures { result ≡ is_mark word.now }
{
    word.as_str() == "<" || word.as_str() == "stop"
}

fn are_start_words(all: &[Word]) -> bool
    ensures { result ≡ are_start_words all.now }
{
    for word in all {
        if !is_start_word(word) {
            return false;
        }
    }
    !all.is_empty()
}

fn is_start_word(word: &Word) -> bool
    ensures { result ≡ is_start_word word.now }
{
    let text = word.as_str();
    !text.is_empty() && text != "generate" && text != "rehearse"
}

// What stands after the words of a start.
#[derive(Debug, Drop)]
struct End<'a> {
    input: Option<ScriptText<'a>>,
    stop: Option<StopAt>,
}

fn read_end<'a>(texts: &[NamedText<'a>], all: &[Word<'a>]) -> Option<End<'a>>
    ensures some { IfSome result (λ end. IsEnd texts.now all.now end.input end.stop) }
    ensures none { IfNone result ((input : Option (List ℕ)) (stop : Option StopAt)
        → IsEnd texts.now all.now input stop → ⊥) }
{
    if let [mark, name, more @ ..] = all {
        if mark.as_str() == "<" {
            return read_input(texts, name, more);
        }
    }
    let stop = read_stop(all)?;
    Some(End { input: None, stop })
}

fn read_input<'a>(texts: &[NamedText<'a>], name: &Word<'a>, more: &[Word<'a>]) -> Option<End<'a>>
    ensures some { IfSome result (λ end. IsEnd texts.now (codes "<" ∷ name.now ∷ more.now) end.input end.stop) }
    ensures none { IfNone result ((input : Option (List ℕ)) (stop : Option StopAt)
        → IsEnd texts.now (codes "<" ∷ name.now ∷ more.now) input stop → ⊥) }
{
    let input = find_text(texts, name.as_str())?;
    let stop = read_stop(more)?;
    Some(End {
        input: Some(input),
        stop,
    })
}

fn read_stop(all: &[Word]) -> Option<Option<StopAt>>
    ensures some { IfSome result (IsStop all.now) }
    ensures none { IfNone result ((stop : Option StopAt) → IsStop all.now stop → ⊥) }
{
    match all {
        [] => Some(None),
        [mark, call, part] => {
            if mark.as_str() != "stop" {
                return None;
            }
            let call = read_call(call.as_str())?;
            let part = read_part(part.as_str())?;
            Some(Some(StopAt { call, part }))
        }
        _ => None,
    }
}

fn read_part(word: &str) -> Option<StopPart>
    ensures some { IfSome result (λ part. word.now ≡ part_word part) }
    ensures none { IfNone result ((part : StopPart) → word.now ≡ part_word part → ⊥) }
{
    match word {
        "0" => Some(StopPart::Old),
        "1" => Some(StopPart::New),
        "2" => Some(StopPart::Filled),
        _ => None,
    }
}

// The number of a call: in decimal, without a sign or a zero in front.
fn read_call(word: &str) -> Option<u32>
    ensures some { IfSome result (IsCall word.now) }
    ensures none { IfNone result ((call : ℕ) → IsCall word.now call → ⊥) }
{
    match word.as_bytes() {
        [b'1'..=b'9', ..] => {}
        _ => return None,
    }
    match word.parse::<u32>() {
        Ok(call) => Some(call),
        Err(_) => None,
    }
}
