//! That the name of each part of a report is of characters, and that its digest has 32 bytes, as their types say.
ghost use Rattle.std.specs.Prelude.{◌≡◌, All, length};
ghost use Rattle.hex.specs.Hex.{IsBytes};
ghost use Rattle.pull_client.specs.Fitting.{IsMark};

use report_log::PartMark;

// Looks at each part. Nothing else is done.
pub(crate) fn look_at_marks(parts: &[PartMark])
    ensures { All IsMark parts.now }
{
    for part in parts {
        look_at_mark(part);
    }
}

fn look_at_mark(part: &PartMark)
    ensures { IsMark part.now }
{
    let _name = part.name.as_slice();
    look_at_digest(&part.digest);
}

fn look_at_digest(digest: &[u8; 32])
    ensures bytes { IsBytes digest.now }
    ensures size { length digest.now ≡ 32 }
{
    let _last = digest[31];
}
