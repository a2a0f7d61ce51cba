//! Which reports are in size.
ghost use Rattle.std.specs.Prelude.{◌↔◌, All, IsTrue};
ghost use Rattle.dsc_document.specs.Sizes.{Fits};
ghost use Rattle.dsc_document.specs.declared.limits.TheConstants.{MAX_ID};
ghost use Rattle.mof_values.specs.declared.limits.TheConstants.{MAX_NAME_BYTES};
ghost use Rattle.report_log.specs.Sizes.{PartsInSize, ReportInSize, TimesInSize};

use crate::limits::{LISTED_LIMIT, MAX_PARTS};
use crate::report::{Missed, PartMark, Report};
use dsc_document::{MAX_ID, MAX_VERSION};
use dsc_outside::LAST_MOMENT;
use mof_values::MAX_NAME_BYTES;

/// Returns whether a report is in size: its version has at most `MAX_VERSION` characters, it lists at most `LISTED_LIMIT`
/// ids of at most `MAX_ID` bytes in UTF-8 and has at most `MAX_PARTS` parts with names of at most `MAX_NAME_BYTES` bytes,
/// and its times are at most `LAST_MOMENT`. Takes no memory.
pub fn is_in_size(report: &Report) -> bool
    ensures { IsTrue result ↔ ReportInSize report.now }
{
    let listed = report.listed.as_slice();
    report.version.as_slice().len() <= MAX_VERSION
        && listed.len() <= LISTED_LIMIT
        && ids_fit(listed)
        && are_parts_in_size(report.parts.as_slice())
        && are_times_in_size(report.start, report.end)
}

fn ids_fit(listed: &[Missed]) -> bool
    ensures { IsTrue result ↔ All (λ missed. Fits MAX_ID missed.id) listed.now }
{
    listed.iter().all(|missed| missed.id.fits_utf8(MAX_ID))
}

fn are_parts_in_size(parts: &[PartMark]) -> bool
    ensures { IsTrue result ↔ PartsInSize parts.now }
{
    parts.len() <= MAX_PARTS && names_fit(parts)
}

fn names_fit(parts: &[PartMark]) -> bool
    ensures { IsTrue result ↔ All (λ part. Fits MAX_NAME_BYTES part.name) parts.now }
{
    parts.iter().all(|part| part.name.fits_utf8(MAX_NAME_BYTES))
}

fn are_times_in_size(start: u64, end: u64) -> bool
    ensures { IsTrue result ↔ TimesInSize start end }
{
    start <= LAST_MOMENT && end <= LAST_MOMENT
}
