//! Signatures under a shared key.
ghost use Rattle.std.specs.Prelude.{◌≡◌, ◌<◌, ◌^◌, ◌∷◌, ◌++◌, length, IfSome, position, bytes_eq};
ghost use Rattle.shared_key.specs.Signature.{base64_of, code_of, signature_of, first_signer};

use crate::digest;
use crate::keyed_hash::KeyedHash;
use base64::engine::general_purpose::STANDARD;
use mof_values::Bytes;

/// The signature of a body and a date: the base64 of HMAC with SHA-256 under the key, over the base64 of the body's
/// digest, a line feed and the date.
#[tactic(auto, unfolding(crate::specs::Signature::signature_of))]
pub fn sign(key: &[u8], body: &[u8], date: &[u8]) -> [u8; 44]
    ensures { result ≡ signature_of key.now body.now date.now }
{
    sign_digest(key, &base64_text(&digest(body)), date)
}

/// The place of the first key whose signature of the body and the date is the one given, `None` where there is no
/// such key.
#[tactic(auto, unfolding(crate::specs::Signature::signature_of))]
pub fn verify(keys: &[Bytes], body: &[u8], date: &[u8], signature: &[u8]) -> Option<u32>
    requires { length keys.now < 2 ^ 32 }
    ensures { result ≡ first_signer keys.now body.now date.now signature.now }
{
    let digest_text = base64_text(&digest(body));
    let place = first_fitting(keys, &digest_text, date, signature)?;
    Some(place as u32)
}

// The place of the first key whose signature it is, of the text of a body's digest and the date.
fn first_fitting(
    keys: &[Bytes],
    digest_text: &[u8; 44],
    date: &[u8],
    signature: &[u8],
) -> Option<usize>
    ensures place { let text = digest_text.now ++ 10 ∷ date.now in
        result ≡ position (λ key. bytes_eq (code_of key text) signature.now) keys.now }
    ensures within { IfSome result (λ place. place < length keys.now) }
{
    keys.iter().position(|key| is_equal(&sign_digest(key.as_slice(), digest_text, date), signature))
}

// The signature, of the text of a body's digest and the date.
fn sign_digest(key: &[u8], digest_text: &[u8; 44], date: &[u8]) -> [u8; 44]
    ensures { result ≡ code_of key.now (digest_text.now ++ 10 ∷ date.now) }
{
    let mut hash = KeyedHash::new(key);
    hash.update(digest_text);
    hash.update(b"\n");
    hash.update(date);
    base64_text(&hash.finalize())
}

#[tactic(auto, unfolding(crate::specs::Signature::base64_of))]
fn base64_text(bytes: &[u8; 32]) -> [u8; 44]
    ensures { result ≡ base64_of bytes.now }
{
    let mut text = [0u8; 44];
    STANDARD.encode_slice(bytes, &mut text).unwrap();
    text
}

// Whether the two are equal. Where their lengths are, it looks at every byte.
fn is_equal(signature: &[u8; 44], given: &[u8]) -> bool
    ensures { result ≡ bytes_eq signature.now given.now }
{
    if given.len() != signature.len() {
        return false;
    }
    let (mut left, mut right) = (signature.as_slice(), given);
    let mut difference = 0;
    while let ([a, rest @ ..], [b, after @ ..]) = (left, right) {
        difference |= *a ^ *b;
        (left, right) = (rest, after);
    }
    difference == 0
}
