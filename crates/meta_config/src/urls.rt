//! The URLs of servers.
ghost use Rattle.std.specs.Prelude.{◌≡◌, ◌≤◌, ◌++◌, IfOk, OnOk, length};
ghost use Rattle.std.specs.List.{list_all, prefix_len};
ghost use Rattle.mof_values.specs.Fold.{fold_case};
ghost use Rattle.meta_config.specs.Urls.{default_port, if_short, is_host_char, is_in_name, is_path_char, number_after, port_after, port_of, same_site, scheme_of, site_at, site_after, site_in, site_named, site_of, url_of, without_slashes};

use crate::Site;
use crate::limits::MAX_URL;
use crate::words::after;
use dsc_outside::Peer;
use mof_values::{Text, front, is_named};
use std::alloc::{AllocError, Global};

/// The site of a URL that has at most `MAX_URL` bytes, as it is given and as it is written.
pub fn site_named(alloc: Global, text: &Text) -> Result<Option<Site>, AllocError>
    ensures { IfOk result (λ site. site ≡ site_named text.now) }
{
    if !text.fits_utf8(MAX_URL) {
        return Ok(None);
    }
    match site_of(alloc, text.as_slice())? {
        Some(site) => if_short(alloc, site),
        None => Ok(None),
    }
}

fn if_short(alloc: Global, site: Site) -> Result<Option<Site>, AllocError>
    ensures { IfOk result (λ short. short ≡ if_short site) }
{
    let url = url_of(alloc, site.https, &site.peer, &site.prefix)?;
    if url.fits_utf8(MAX_URL) {
        Ok(Some(site))
    } else {
        Ok(None)
    }
}

fn site_of(alloc: Global, text: &[char]) -> Result<Option<Site>, AllocError>
    ensures { IfOk result (λ site. site ≡ site_of text.now) }
{
    if is_named(front(text, 7), "http://") {
        site_after(alloc, false, after(text, 7))
    } else if is_named(front(text, 8), "https://") {
        site_after(alloc, true, after(text, 8))
    } else {
        Ok(None)
    }
}

// The site of what stands after the scheme.
fn site_after(alloc: Global, https: bool, rest: &[char]) -> Result<Option<Site>, AllocError>
    ensures { IfOk result (λ site. site ≡ site_after https rest.now) }
{
    let (authority, path) = rest.split_at(name_len(rest));
    site_in(alloc, https, authority, path)
}

fn site_in(
    alloc: Global,
    https: bool,
    authority: &[char],
    path: &[char],
) -> Result<Option<Site>, AllocError>
    ensures { IfOk result (λ site. site ≡ site_in https authority.now path.now) }
{
    let (host, port) = authority.split_at(host_len(authority));
    site_at(alloc, https, host, port, path)
}

fn site_at(
    alloc: Global,
    https: bool,
    host: &[char],
    port: &[char],
    path: &[char],
) -> Result<Option<Site>, AllocError>
    ensures { IfOk result (λ site. site ≡ site_at https host.now port.now path.now) }
{
    if host.is_empty() || !are_path_chars(path) {
        return Ok(None);
    }
    match port_after(https, port) {
        Some(port) => Ok(Some(Site {
            https,
            peer: Peer {
                host: folded(alloc, host)?,
                port,
            },
            prefix: Text::of(without_slashes(path).to_vec(alloc)?),
        })),
        None => Ok(None),
    }
}

fn folded(alloc: Global, chars: &[char]) -> Result<Text, AllocError>
    ensures { IfOk result (λ folded. folded ≡ fold_case chars.now) }
{
    let lower: Vec<char> = chars.iter().map(|c| c.to_ascii_lowercase()).collect(alloc)?;
    Ok(Text::of(lower))
}

// How many characters stand before the first slash.
fn name_len(chars: &[char]) -> usize
    ensures value { result ≡ prefix_len is_in_name chars.now }
    ensures within { result ≤ length chars.now }
{
    let (mut len, mut left) = (0, chars);
    while let [c, rest @ ..] = left {
        if *c == '/' {
            return len;
        }
        (len, left) = (len + 1, rest);
    }
    len
}

// How many characters of a host stand in front.
fn host_len(chars: &[char]) -> usize
    ensures value { result ≡ prefix_len is_host_char chars.now }
    ensures within { result ≤ length chars.now }
{
    let (mut len, mut left) = (0, chars);
    while let [c, rest @ ..] = left {
        if !is_host_char(*c) {
            return len;
        }
        (len, left) = (len + 1, rest);
    }
    len
}

fn is_host_char(c: char) -> bool
    ensures { result ≡ is_host_char c }
{
    matches!(c, 'a'..='z' | 'A'..='Z' | '0'..='9' | '.' | '-')
}

fn are_path_chars(chars: &[char]) -> bool
    ensures { result ≡ list_all is_path_char chars.now }
{
    chars.iter().all(|c| is_path_char(*c))
}

fn is_path_char(c: char) -> bool
    ensures { result ≡ is_path_char c }
{
    matches!(c, '!'..='~') && c != '?' && c != '#'
}

// The port of what stands after the host.
fn port_after(https: bool, chars: &[char]) -> Option<u16>
    ensures { result ≡ port_after https chars.now }
{
    match chars {
        [] => Some(if https { 443 } else { 80 }),
        [':', digits @ ..] => port_of(digits),
        _ => None,
    }
}

fn port_of(digits: &[char]) -> Option<u16>
    ensures { result ≡ port_of digits.now }
{
    match digits {
        [] | ['0', ..] => None,
        _ => number_of(digits),
    }
}

// The number of at most 65535 that the digits write.
fn number_of(digits: &[char]) -> Option<u16>
    ensures { result ≡ number_after 0 digits.now }
{
    let (mut number, mut left): (u32, &[char]) = (0, digits);
    while let [c, rest @ ..] = left {
        let Some(digit) = c.to_digit(10) else {
            return None;
        };
        number = number * 10 + digit;
        if number > 65_535 {
            return None;
        }
        left = rest;
    }
    Some(number as u16)
}

// The characters without the slashes at their end.
fn without_slashes(chars: &[char]) -> &[char]
    ensures { result.now ≡ without_slashes chars.now }
{
    let mut end = chars.len();
    while end > 0 && chars[end - 1] == '/' {
        end -= 1;
    }
    chars.split_at(end).0
}

/// The URL of a site, with its port.
pub fn url_of(alloc: Global, https: bool, peer: &Peer, prefix: &Text) -> Result<Text, AllocError>
    ensures { IfOk result (λ url.
        url ≡ url_of (record { https = https; peer = peer.now; prefix = prefix.now })) }
{
    let port = peer.port;
    let port = format!(in alloc; "{port}")?;
    let mut url = Vec::new(alloc);
    push_ascii(&mut url, scheme_of(https))?;
    url.extend_from_slice(peer.host.as_slice())?;
    push_ascii(&mut url, ":")?;
    push_ascii(&mut url, &port)?;
    url.extend_from_slice(prefix.as_slice())?;
    Ok(Text::of(url))
}

fn scheme_of(https: bool) -> &'static str
    ensures { result.now ≡ scheme_of https }
{
    if https { "https://" } else { "http://" }
}

/// Appends the characters of an ASCII text.
pub fn push_ascii(chars: &mut Vec<char>, text: &str) -> Result<(), AllocError>
    ensures { OnOk result (chars.new.items ≡ chars.old.items ++ text.now) }
{
    let more = Text::from_latin1(*chars.allocator(), text.as_bytes())?;
    chars.extend_from_slice(more.as_slice())
}

/// Returns whether two sites are one server.
pub fn same_site(a: &Site, b: &Site) -> bool
    ensures { result ≡ same_site a.now b.now }
{
    a.https == b.https
        && a.peer.host == b.peer.host
        && a.peer.port == b.peer.port
        && a.prefix == b.prefix
}
