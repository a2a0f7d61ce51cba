//! Values that other programs and the standards give.
use mof_values::Bytes;
use shared_key::*;
use std::alloc::{AllocError, Global};
use std::test::Fail;

// The empty message, NIST's example messages of one block and of two for SHA-256, and their checksums.
fn digests() -> &'static [(&'static str, &'static str)] {
    &[
        (
            "",
            "E3B0C44298FC1C149AFBF4C8996FB92427AE41E4649B934CA495991B7852B855",
        ),
        (
            "abc",
            "BA7816BF8F01CFEA414140DE5DAE2223B00361A396177A9CB410FF61F20015AD",
        ),
        (
            "abcdbcdecdefdefgefghfghighijhijkijkljklmklmnlmnomnopnopq",
            "248D6A61D20638B8E5C026930C3E6039A33CE45964FF2167F6ECEDD419DB06C1",
        ),
    ]
}

#[test]
fn digests_are_those_of_the_standard(rt: HostRuntime) -> Result<(), Fail> {
    for (message, checksum) in digests() {
        let found = digest(message.as_bytes());
        expect(
            checksum_text(&found).as_slice() == checksum.as_bytes(),
            checksum,
        )?;
        expect(read_checksum(checksum.as_bytes()) == Some(found), checksum)?;
    }
    Ok(())
}

// A key, a text and its code: RFC 4231, sections 4.2 to 4.8; of section 4.6 the whole code, which begins with the one
// truncated there.
fn codes() -> &'static [(&'static [u8], &'static [u8], &'static str)] {
    &[
        (
            &[0x0b; 20],
            b"Hi There",
            "B0344C61D8DB38535CA8AFCEAF0BF12B881DC200C9833DA726E9376C2E32CFF7",
        ),
        (
            b"Jefe",
            b"what do ya want for nothing?",
            "5BDCC146BF60754E6A042426089575C75A003F089D2739839DEC58B964EC3843",
        ),
        (
            &[0xaa; 20],
            &[0xdd; 50],
            "773EA91E36800E46854DB8EBD09181A72959098B3EF8C122D9635514CED565FE",
        ),
        (
            &[
                1, 2, 3, 4, 5, 6, 7, 8, 9, 10, 11, 12, 13, 14, 15, 16, 17, 18, 19, 20, 21, 22, 23,
                24, 25,
            ],
            &[0xcd; 50],
            "82558A389A443C0EA4CC819899F2083A85F0FAA3E578F8077A2E3FF46729665B",
        ),
        (
            &[0x0c; 20],
            b"Test With Truncation",
            "A3B6167473100EE06E0C796C2955552BFA6F7C0A6A8AEF8B93F860AAB0CD20C5",
        ),
        (
            &[0xaa; 131],
            b"Test Using Larger Than Block-Size Key - Hash Key First",
            "60E431591EE0B67F0D8A26AACBF5B77F8E0BC6213728C5140546040F0EE37F54",
        ),
        (
            &[0xaa; 131],
            b"This is a test using a larger than block-size key and a larger than block-size data. The key \
            needs to be hashed before being used by the HMAC algorithm.",
            "9B09FFA71B942FCB27635FBCD5B0E944BFDC63644F0713938A7F51535C3A35E2",
        ),
    ]
}

#[test]
fn codes_are_those_of_the_standard(rt: HostRuntime) -> Result<(), Fail> {
    for (key, text, code) in codes() {
        expect(
            checksum_text(&hmac(key, text)).as_slice() == code.as_bytes(),
            code,
        )?;
    }
    Ok(())
}

// A size, and the signature under a key of that many letters `a` of a body that is the same. Python's `hmac`, `hashlib`
// and `base64` made them.
fn signatures() -> &'static [(usize, &'static str)] {
    &[
        (0, "365S829S5WKXKsOUS4xZeKwQznMGEd65uWmHy8JU4CU="),
        (1, "4nYG4L+F+po8nLr3Vhbo14AEMyvMvf7mwgucQ4dt6gA="),
        (2, "uMRaJofGYkh54roRr6MHZhfj87x0LtS5jmFy+BeK4y0="),
        (7, "bFSCuRpLveo7dF5P/T96WjxJ7xe152Nfhjc0V7qzJ/k="),
        (63, "F5MZ9Urny6kLkRMoMT5ashr74iXleXKiHI+yaMU3Lls="),
        (64, "QtaRO+WAQwE7wp7aQfDkNBJ35Ckjeu3lW/gRl0g1qvc="),
        (65, "EnzTDgXsUM/yiV/JcV5wP0S6p2uHA0opWicqBghvqg4="),
        (4096, "5lQjeicYrh1P0OuGN1e1lIIke8K+ztaaT9vUF6yoYG0="),
    ]
}

const DATE: &[u8] = b"2026-01-01T00:00:00.0000000Z";

#[test]
fn signatures_are_those_of_another_program(rt: HostRuntime) -> Result<(), Fail> {
    for (size, signature) in signatures() {
        expect(is_signed(rt.alloc(), *size, signature)?, signature)?;
    }
    Ok(())
}

// Whether it is the signature, and `verify` finds it under the second of three keys.
fn is_signed(alloc: Global, size: usize, signature: &str) -> Result<bool, AllocError> {
    let body = letters(alloc, size)?;
    Ok(
        sign(&body, &body, DATE).as_slice() == signature.as_bytes()
            && is_found(&keys(alloc, size)?, &body, signature),
    )
}

fn is_found(keys: &[Bytes; 3], body: &[u8], signature: &str) -> bool {
    verify(keys, body, DATE, signature.as_bytes()) == Some(1)
}

// A key one longer than the size, and two of the size.
fn keys(alloc: Global, size: usize) -> Result<[Bytes; 3], AllocError> {
    let long = key(alloc, size.saturating_add(1))?;
    let fitting = key(alloc, size)?;
    Ok([long, fitting, key(alloc, size)?])
}

fn key(alloc: Global, size: usize) -> Result<Bytes, AllocError> {
    Ok(Bytes::of(letters(alloc, size)?))
}

fn letters(alloc: Global, size: usize) -> Result<Vec<u8>, AllocError> {
    let mut letters = Vec::new(alloc);
    for _ in 0..size {
        letters.push(b'a')?;
    }
    Ok(letters)
}

// Expects that it is so of that row.
fn expect(is_so: bool, row: &str) -> Result<(), Fail> {
    if is_so {
        return Ok(());
    }
    Err(Fail::new(format_args!("{row} is answered otherwise")))
}
