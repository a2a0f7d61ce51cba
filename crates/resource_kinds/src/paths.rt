//! The path that a text means as the destination of a file.
ghost use Rattle.std.specs.Prelude.{◌≡◌, ◌≢◌, ◌<◌, true, length, IfOk, IfSome, OnErr, OnOk, is_some, option_map, string_bytes};
ghost use Rattle.std.specs.List.{list_any};
ghost use Rattle.resource_kinds.specs.Paths.{IsHostPath, all_segments, drive_segments, ends_drive, if_filled, is_kept, is_parent, is_separator, joined_path, kept_segments, names_of, path_of, put, rooted, segments, separated};

use crate::path_order::skipped;
use mof_values::Text;
use std::alloc::{AllocError, Global};

/// What a path text begins with, and what is after it: a drive, by its letter in upper case, or the first `/`.
#[derive(Clone, Copy)]
pub struct PathText<'a> {
    pub drive: Option<char>,
    pub rest: &'a [char],
}

/// The path below the root of the machine that a text means, names with `/` between, in UTF-8; `None` where it means
/// none.
///
/// `\` and `/` both separate. `C:\a\b` means `C/a/b`, with the letter in upper case, and `/a/b` means `a/b`. Empty
/// segments and `.` are dropped. A segment `..`, a NUL, a text of another form or no segment left is no path. Want of
/// memory is answered only of a text that means one.
pub fn path_of(alloc: Global, text: &Text) -> Result<Option<String>, AllocError>
    ensures path { IfOk result (λ path. option_map string_bytes path ≡ path_of text.now) }
    ensures host { IfOk result (λ path. IfSome path (λ path. IsHostPath (string_bytes path))) }
    ensures memory { OnErr result (is_some (path_of text.now) ≡ true) }
{
    let chars = text.as_slice();
    if chars.contains(&'\0') {
        return Ok(None);
    }
    match rooted(chars) {
        Some(parts) => path_after(alloc, &parts),
        None => Ok(None),
    }
}

/// Returns whether the text means a path.
pub fn is_path(text: &Text) -> bool
    ensures { result ≡ is_some (path_of text.now) }
{
    let chars = text.as_slice();
    match rooted(chars) {
        Some(parts) => !chars.contains(&'\0') && !has_parent(parts.rest) && has_name(&parts),
        None => false,
    }
}

fn has_name(parts: &PathText) -> bool
    requires { IfSome parts.now.drive (λ letter. letter ≢ 46) }
    ensures { result ≡ is_some (if_filled (kept_segments (all_segments parts.now))) }
{
    parts.drive.is_some() || !skipped(parts.rest).is_empty()
}

/// The beginning of a path text.
pub fn rooted<'a>(text: &'a [char]) -> Option<PathText<'a>>
    ensures segments { option_map all_segments result ≡ rooted text.now }
    ensures letter { IfSome result (λ parts. IfSome parts.drive (λ letter. letter ≢ 46)) }
{
    match text {
        ['/', rest @ ..] => Some(PathText { drive: None, rest }),
        [letter, ':', rest @ ..] if letter.is_ascii_alphabetic() && ends_drive(rest) => {
            Some(PathText {
                drive: Some(letter.to_ascii_uppercase()),
                rest,
            })
        }
        _ => None,
    }
}

fn ends_drive(rest: &[char]) -> bool
    ensures { result ≡ ends_drive rest.now }
{
    match rest {
        [] => true,
        [c, ..] => is_separator(*c),
    }
}

pub fn is_separator(c: char) -> bool
    ensures { result ≡ is_separator c }
{
    c == '/' || c == '\\'
}

fn is_kept(segment: &[char]) -> bool
    ensures { result ≡ is_kept segment.now }
{
    !(segment.is_empty() || segment == ['.'].as_slice())
}

fn is_parent(segment: &[char]) -> bool
    ensures { result ≡ is_parent segment.now }
{
    segment == ['.', '.'].as_slice()
}

fn has_parent(rest: &[char]) -> bool
    ensures { result ≡ list_any is_parent (segments rest.now) }
{
    rest.split(|c| is_separator(*c)).any(is_parent)
}

// The path of the names after a root.
fn path_after(alloc: Global, parts: &PathText) -> Result<Option<String>, AllocError>
    requires { IfSome parts.now.drive (λ letter. letter ≢ 46) }
    ensures path { IfOk result (λ path. option_map string_bytes path ≡
        option_map joined_path (names_of (all_segments parts.now))) }
    ensures memory { OnErr result
        (is_some (option_map joined_path (names_of (all_segments parts.now))) ≡ true) }
{
    if has_parent(parts.rest) {
        return Ok(None);
    }
    let path = joined(alloc, parts)?;
    Ok(if path.is_empty() { None } else { Some(path) })
}

// The segments that are kept, with `/` between.
fn joined(alloc: Global, parts: &PathText) -> Result<String, AllocError>
    requires { IfSome parts.now.drive (λ letter. letter ≢ 46) }
    ensures path { IfOk result (λ path. string_bytes path ≡
        joined_path (kept_segments (all_segments parts.now))) }
    ensures memory { OnErr result (0 < length (kept_segments (all_segments parts.now))) }
{
    let mut path = begun(alloc, parts.drive)?;
    for name in parts
        .rest
        .split(|c| is_separator(*c))
        .filter(|segment| is_kept(segment))
    {
        put(&mut path, name)?;
    }
    Ok(path)
}

fn begun(alloc: Global, drive: Option<char>) -> Result<String, AllocError>
    ensures path { IfOk result (λ path. string_bytes path ≡ joined_path (drive_segments drive)) }
    ensures memory { OnErr result (is_some drive ≡ true) }
{
    let mut path = String::new(alloc);
    if let Some(letter) = drive {
        path.push(letter)?;
    }
    Ok(path)
}

// One more name after the path.
fn put(path: &mut String, name: &[char]) -> Result<(), AllocError>
    ensures { OnOk result (string_bytes path.new ≡ put (string_bytes path.old) name.now) }
{
    separate(path)?;
    path.extend(name.iter().copied())
}

fn separate(path: &mut String) -> Result<(), AllocError>
    ensures { OnOk result (string_bytes path.new ≡ separated (string_bytes path.old)) }
{
    if path.is_empty() {
        return Ok(());
    }
    path.push('/')
}
