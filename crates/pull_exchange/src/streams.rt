//! Writing of two pieces, one after the other.
ghost use Rattle.std.specs.Prelude.{◌≡◌, ◌++◌, OnOk, OnErr};
ghost use Rattle.std.specs.Io.KnownBytes.{Appends};
ghost use Rattle.dsc_outside.specs.Causes.{HasCause};
ghost use Rattle.dsc_outside.specs.Streams.{AppendsPart};

use dsc_outside::{Failed, Sink, write_all};

/// Writes the first piece and then the second, or where the sink fails a part from the front of both.
pub fn write_both<K: Sink>(sink: &mut K, first: &[u8], second: &[u8]) -> Result<(), Failed>
    ensures ok { OnOk result
        (Appends (K.held sink.old) (K.held sink.new) (first.now ++ second.now)) }
    ensures err { OnErr result
        (AppendsPart (K.held sink.old) (K.held sink.new) (first.now ++ second.now)) }
    ensures left { K.left sink.new ≡ K.left sink.old }
    ensures cause { HasCause (K.faults sink.old) (K.faults sink.new) result }
{
    write_all(sink, first)?;
    write_all(sink, second)
}
