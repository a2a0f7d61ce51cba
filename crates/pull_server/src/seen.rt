//! What was seen of contents within one request.
ghost use Rattle.std.specs.Prelude.{◌≡◌, ℕ, List, IfSome, Some};
ghost use Rattle.std.specs.List.{AllByRecursion};
ghost use Rattle.sha2.specs.Sha256.{sha256};
ghost use Rattle.pull_outside.specs.Shelf.{Contents};
ghost use Rattle.pull_server.specs.Actions.{is_digest};
ghost use Rattle.pull_server.specs.SeenContents.{IsKnown, IsSeen};

use mof_values::Text;

/// A content that is on the shelf, and its digest where it was asked for.
#[derive(Drop)]
pub struct Seen {
    pub name: Text,
    pub digest: Option<[u8; 32]>,
}

/// Whether the content of a name is of the digest that is held, where what was seen says it. Nothing held is that of no content.
pub fn known(seen: &[Seen], name: &Text, held: Option<[u8; 32]>) -> Option<bool>
    ensures { IfSome result (λ same. (contents : Contents) (names : List (List ℕ))
        → AllByRecursion (IsSeen contents names) seen.now
        → IsKnown contents names name.now held same) }
{
    match seen {
        [] => None,
        [first, rest @ ..] => match known_by(first, name, held) {
            Some(same) => Some(same),
            None => known(rest, name, held),
        },
    }
}

fn known_by(seen: &Seen, name: &Text, held: Option<[u8; 32]>) -> Option<bool>
    ensures { IfSome result (λ same. (contents : Contents) (names : List (List ℕ))
        → IsSeen contents names seen.now
        → IsKnown contents names name.now held same) }
{
    if seen.name != *name {
        return None;
    }
    if held.is_some() && seen.digest.is_none() {
        return None;
    }
    Some(is_same(held, seen.digest))
}

/// Whether a digest is held and is this one.
pub fn is_same(held: Option<[u8; 32]>, digest: Option<[u8; 32]>) -> bool
    ensures { (content : List ℕ) → IfSome held (λ held. digest ≡ Some (sha256 content)) → result ≡ is_digest held content }
{
    match (held, digest) {
        (Some(held), Some(digest)) => held == digest,
        _ => false,
    }
}
