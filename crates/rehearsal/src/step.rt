//! A step of a script.
use crate::texts::ScriptText;
use crate::words::Word;
use mof_values::Items;

/// What a line of a script does.
#[derive(Debug, Drop)]
pub enum Step<'a> {
    /// The server's shelf holds this content as the configuration of that name; the latest counts.
    Shelf {
        configuration: Word<'a>,
        content: ScriptText<'a>,
    },

    /// The shelf's next key.
    Key {
        key: ScriptText<'a>,
    },

    /// The folded id is added to those of the resources that want a reboot.
    Wants {
        id: Word<'a>,
    },

    /// The node is started with these words and this input; without one, the input is empty.
    Start {
        words: Items<Word<'a>>,
        input: Option<ScriptText<'a>>,
        stop: Option<StopAt>,
    },
}

/// A start is stopped in a call of its disk or its host.
#[derive(Clone, Copy, Debug, PartialEq, Eq)]
pub struct StopAt {
    /// The number of the call, counted from 1 over both.
    pub call: u32,

    pub part: StopPart,
}

/// What a stop leaves.
#[derive(Clone, Copy, Debug, PartialEq, Eq)]
pub enum StopPart {
    /// What was written since the last sync holds the old bytes; a change of the host is not done.
    Old,

    /// It holds the new bytes, and a change of the host is done.
    New,

    /// It holds the byte 0x57 in each place; of a file that is put, the first half of its bytes is there, and any other change of the host is done.
    Filled,
}
