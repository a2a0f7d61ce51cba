//! That the digests in an event have 32 bytes each, as their type says.
ghost use Rattle.std.specs.Prelude.{All};
ghost use Rattle.store_fields.specs.Fields.{IsDigest};
ghost use Rattle.node_store.specs.Bodies.{HaveDigests};

use node_state::Event;
use report_log::PartMark;

/// Looks at each digest of the event's report, so that its length is known. Nothing else is done.
pub fn look_at_digests(event: &Event)
    ensures { HaveDigests event.now }
{
    match event {
        Event::Promote(report) | Event::Note(report) | Event::AskReboot(report) => {
            look_at_marks(report.parts.as_slice());
        }
        _ => {}
    }
}

fn look_at_marks(marks: &[PartMark])
    ensures { All (λ mark. IsDigest mark.digest) marks.now }
{
    for mark in marks {
        look_at(&mark.digest);
    }
}

fn look_at(digest: &[u8; 32])
    ensures { IsDigest digest.now }
{
    let _first = digest[31];
}
