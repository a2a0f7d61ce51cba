//! A stage is shown.
ghost use Rattle.std.specs.Prelude.{◌≡◌, IfNone, IfSome};
ghost use Rattle.dsc_outside.specs.Disk.{Still};
ghost use Rattle.node_state.specs.declared.event.Stage.{Stage};
ghost use Rattle.staged_text.specs.Endings.{Ends, Prints, line_of, name_of};

use crate::ending::{Ending, Unshown};
use crate::image::text_on;
use arrayvec::ArrayString;
use dsc_outside::{Disk, Failed, Sink, write_all};
use itoa::Buffer;
use node_state::Stage;
use std::alloc::Global;

/// The stage that the word names.
pub fn stage_named(word: &str) -> Option<Stage>
    ensures some { IfSome result (λ stage. word.now ≡ name_of stage) }
    ensures none { IfNone result ((stage : Stage) → word.now ≡ name_of stage → ⊥) }
{
    match word {
        "pending" => Some(Stage::Pending),
        "current" => Some(Stage::Current),
        "previous" => Some(Stage::Previous),
        _ => None,
    }
}

/// Prints the text of a stage of the store that the disk holds, or the line that says why there is none; the disk is left as it was.
pub fn show_stage<D: Disk, K: Sink>(
    alloc: Global,
    stage: Stage,
    disk: &mut D,
    output: &mut K,
) -> Ending
    ensures still { Still D.shown D.images D.moment D.left_since disk.old disk.new }
    ensures ends { Ends D.Disk K.Ends stage disk.old disk.new output.old output.new result }
{
    let text = match text_on(alloc, disk, stage) {
        Ok(text) => text,
        Err(why) => {
            print_line(output, why);
            return Ending::Unshown(why);
        }
    };
    match write_all(output, &text) {
        Ok(()) => Ending::Done,
        Err(Failed) => Ending::WriteFault,
    }
}

/// Prints that the arguments are not a store and a stage.
pub fn print_usage<K: Sink>(output: &mut K) -> Ending
    ensures { result ≡ Ending.Usage }
{
    let _ = write_all(output, b"refused Usage\n");
    Ending::Usage
}

// A line, which has at most 64 bytes.
type Line = ArrayString<64>;

fn print_line<K: Sink>(output: &mut K, why: Unshown)
    ensures { Prints K.Ends (line_of why) output.old output.new }
{
    let _ = write_all(output, line_of(why).as_str().as_bytes());
}

fn line_of(why: Unshown) -> Line
    ensures { result.bytes ≡ line_of why }
{
    let mut line = Line::new();
    match why {
        Unshown::DiskFault => line.push_str("refused DiskFault\n"),
        Unshown::NotAStore { at } => {
            let mut digits = Buffer::new();
            line.push_str("refused NotAStore ");
            line.push_str(digits.format(at));
            line.push_str("\n");
        }
        Unshown::Empty => line.push_str("refused Empty\n"),
        Unshown::Memory => {}
    }
    line
}
