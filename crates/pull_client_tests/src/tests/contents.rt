//! Contents, with the headers that announce them.
use super::calls::{Call, Wanted, answers};
use super::made::PLAIN;
use std::alloc::Global;

const MISMATCH: Wanted = Err(
    "Mismatch { announced: [186, 120, 22, 191, 143, 1, 207, 234, 65, 65, 64, 222, 93, 174, 34, 35, 176, 3, 97, 163, 150, 23, 122, 156, 180, 16, 255, 97, 242, 0, 21, 173], found: [227, 176, 196, 66, 152, 252, 28, 20, 154, 251, 244, 200, 153, 111, 185, 36, 39, 174, 65, 228, 100, 155, 147, 76, 164, 149, 153, 27, 120, 82, 184, 85] }",
);

const OTHER: Wanted = Err(
    "Mismatch { announced: [227, 176, 196, 66, 152, 252, 28, 20, 154, 251, 244, 200, 153, 111, 185, 36, 39, 174, 65, 228, 100, 155, 147, 76, 164, 149, 153, 27, 120, 82, 184, 85], found: [186, 120, 22, 191, 143, 1, 207, 234, 65, 65, 64, 222, 93, 174, 34, 35, 176, 3, 97, 163, 150, 23, 122, 156, 180, 16, 255, 97, 242, 0, 21, 173] }",
);

// Lines of headers, the body, and what comes of it. The digests of the empty text and of `abc` are those of FIPS 180-4.
const CONTENTS: &[(&'static str, &'static str, Wanted)] = &[
    (
        "Checksum: BA7816BF8F01CFEA414140DE5DAE2223B00361A396177A9CB410FF61F20015AD\r\n",
        "abc",
        Ok("abc"),
    ),
    (
        "cHECKSUM:ba7816bf8f01cfea414140de5dae2223b00361a396177a9cb410ff61f20015AD\r\n",
        "abc",
        Ok("abc"),
    ),
    (
        "Checksum: E3B0C44298FC1C149AFBF4C8996FB92427AE41E4649B934CA495991B7852B855\r\n",
        "",
        Ok(""),
    ),
    (
        "Checksum: BA7816BF8F01CFEA414140DE5DAE2223B00361A396177A9CB410FF61F20015AD\r\n",
        "",
        MISMATCH,
    ),
    (
        "Checksum: E3B0C44298FC1C149AFBF4C8996FB92427AE41E4649B934CA495991B7852B855\r\n",
        "abc",
        OTHER,
    ),
    ("", "abc", Err("NoChecksum")),
    ("Checksum:\r\n", "abc", Err("NoChecksum")),
    (
        "Checksum: BA7816BF8F01CFEA414140DE5DAE2223B00361A396177A9CB410FF61F20015A\r\n",
        "abc",
        Err("NoChecksum"),
    ),
    (
        "Checksum: BA7816BF8F01CFEA414140DE5DAE2223B00361A396177A9CB410FF61F20015ADA\r\n",
        "abc",
        Err("NoChecksum"),
    ),
    (
        "Checksum: GA7816BF8F01CFEA414140DE5DAE2223B00361A396177A9CB410FF61F20015AD\r\n",
        "abc",
        Err("NoChecksum"),
    ),
    (
        "Checksums: BA7816BF8F01CFEA414140DE5DAE2223B00361A396177A9CB410FF61F20015AD\r\n",
        "abc",
        Err("NoChecksum"),
    ),
    (
        "Checksum: BA7816BF8F01CFEA414140DE5DAE2223B00361A396177A9CB410FF61F20015AD\r\nChecksum: E3B0C44298FC1C149AFBF4C8996FB92427AE41E4649B934CA495991B7852B855\r\n",
        "abc",
        Ok("abc"),
    ),
    (
        "Checksum: E3B0C44298FC1C149AFBF4C8996FB92427AE41E4649B934CA495991B7852B855\r\nChecksum: BA7816BF8F01CFEA414140DE5DAE2223B00361A396177A9CB410FF61F20015AD\r\n",
        "abc",
        OTHER,
    ),
    (
        "Checksum: none\r\nChecksum: BA7816BF8F01CFEA414140DE5DAE2223B00361A396177A9CB410FF61F20015AD\r\n",
        "abc",
        Ok("abc"),
    ),
    (
        "ChecksumAlgorithm: SHA-256\r\nChecksum: BA7816BF8F01CFEA414140DE5DAE2223B00361A396177A9CB410FF61F20015AD\r\n",
        "abc",
        Ok("abc"),
    ),
    (
        "checksumalgorithm: sha-256\r\nChecksum: BA7816BF8F01CFEA414140DE5DAE2223B00361A396177A9CB410FF61F20015AD\r\nChecksumAlgorithm: Sha-256\r\n",
        "abc",
        Ok("abc"),
    ),
    (
        "ChecksumAlgorithm: SHA-256\r\nChecksum: BA7816BF8F01CFEA414140DE5DAE2223B00361A396177A9CB410FF61F20015AD\r\nChecksumAlgorithm: MD5\r\n",
        "abc",
        Err("NoChecksum"),
    ),
    (
        "ChecksumAlgorithm: SHA256\r\nChecksum: BA7816BF8F01CFEA414140DE5DAE2223B00361A396177A9CB410FF61F20015AD\r\n",
        "",
        Err("NoChecksum"),
    ),
    (
        "ChecksumAlgorithm:\r\nChecksum: BA7816BF8F01CFEA414140DE5DAE2223B00361A396177A9CB410FF61F20015AD\r\n",
        "abc",
        Err("NoChecksum"),
    ),
];

// Returns whether both calls for a content give that of the headers and the body.
fn gives(alloc: Global, headers: &str, body: &str, wanted: &Wanted) -> bool {
    let Ok(answer) = format!(in alloc; "HTTP/1.1 200 OK\r\n{headers}\r\n{body}") else {
        return false;
    };
    answers(alloc, Call::Fetch("Web"), &PLAIN, answer.as_bytes(), wanted)
        && answers(alloc, Call::FetchModule, &PLAIN, answer.as_bytes(), wanted)
}

#[test]
fn contents_are_accepted_under_their_digest(rt: HostRuntime) {
    for (headers, body, wanted) in CONTENTS {
        assert!(rt; gives(rt.alloc(), headers, body, wanted), "{headers}");
    }
}

// How long a content is, its digest, and what comes of a configuration. The digests are another program's.
const LONG_CONTENTS: &[(usize, &'static str, Wanted)] = &[
    (
        8_388_608,
        "0C77BC0A0795A93612D45256897456D0FCB24F151C44C150D07ECD03F4EF5168",
        Ok("8388608 bytes"),
    ),
    (
        8_388_609,
        "942D6013EDF5B8BF6C141EADD970AFB4D1DEC9F2D6D92DBE93F4BE90748037ED",
        Err("TooLong"),
    ),
    (
        8_388_609,
        "0C77BC0A0795A93612D45256897456D0FCB24F151C44C150D07ECD03F4EF5168",
        Err(
            "Mismatch { announced: [12, 119, 188, 10, 7, 149, 169, 54, 18, 212, 82, 86, 137, 116, 86, 208, 252, 178, 79, 21, 28, 68, 193, 80, 208, 126, 205, 3, 244, 239, 81, 104], found: [148, 45, 96, 19, 237, 245, 184, 191, 108, 20, 30, 173, 217, 112, 175, 180, 209, 222, 201, 242, 214, 217, 45, 190, 147, 244, 190, 144, 116, 128, 55, 237] }",
        ),
    ),
];

// Returns whether a content of that many bytes comes to that.
fn gives_long(alloc: Global, size: usize, digest: &str, wanted: &Wanted) -> bool {
    let Ok(head) = format!(in alloc; "HTTP/1.1 200 OK\r\nChecksum: {digest}\r\n\r\n") else {
        return false;
    };
    let mut answer = head.into_bytes();
    let whole = answer.len().saturating_add(size);
    answer.resize(whole, b'x').is_ok()
        && answers(alloc, Call::Fetch("Web"), &PLAIN, &answer, wanted)
}

#[test]
fn a_configuration_has_a_limit(rt: HostRuntime) {
    for (size, digest, wanted) in LONG_CONTENTS {
        assert!(rt; gives_long(rt.alloc(), *size, digest, wanted), "{size}");
    }
}
