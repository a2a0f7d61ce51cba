//! The kinds of bodies, by their first byte.
ghost use Rattle.std.specs.Prelude.{◌≡◌, ◌↔◌, IsTrue};
ghost use Rattle.node_store.specs.Digests.{format_body, is_plain, kind_of};
ghost use Rattle.node_store.specs.Resolving.{after_kind};

/// The first byte of a body: its kind.
pub fn kind_of(body: &[u8]) -> u8
    ensures { result ≡ kind_of body.now }
{
    match body {
        [kind, ..] => *kind,
        [] => 0,
    }
}

/// What stands after the first byte.
pub fn after_kind(body: &[u8]) -> &[u8]
    ensures { result.now ≡ after_kind body.now }
{
    match body {
        [_, rest @ ..] => rest,
        [] => body,
    }
}

/// Whether it is another kind than those in which parts stand: Stage, Slot, Format, Blob, Stage by digests and Slot by digests.
pub fn is_plain(kind: u8) -> bool
    ensures { result ≡ is_plain kind }
{
    kind != 4 && kind != 13 && kind != 15 && kind != 16 && kind != 17 && kind != 18
}

/// Whether the body is a Format.
pub fn is_format(body: &[u8]) -> bool
    ensures { IsTrue result ↔ (body.now ≡ format_body) }
{
    match body {
        [15, 2] => true,
        _ => false,
    }
}
