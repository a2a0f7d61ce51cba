//! The lines of a script.
ghost use Rattle.std.specs.Prelude.{◌≡◌, ◌<◌, ◌≤◌, ◌∷◌, ◌++◌, ◌+◌, [], length, take, drop};
ghost use Rattle.rehearsal.specs.Script.{line_length};

/// How many bytes stand before the first line feed; all of them, where there is none.
pub fn line_length(bytes: &[u8]) -> usize
    ensures length { result ≡ line_length bytes.now }
    ensures within { result ≤ length bytes.now }
    ensures feed { result < length bytes.now
        → take (result + 1) bytes.now ≡ take result bytes.now ++ 10 ∷ [] }
{
    let mut at = 0;
    while at < bytes.len() && bytes[at] != b'\n' {
        at += 1;
    }
    at
}

/// The place after the line that ends at that place: after its line feed, where it has one.
pub fn after_line(bytes: &[u8], end: usize) -> usize
    requires { end ≤ length bytes.now }
    ensures same { drop result bytes.now ≡ drop (end + 1) bytes.now }
    ensures within { result ≤ length bytes.now }
    ensures after { end ≤ result }
    ensures feed { end < length bytes.now → result ≡ end + 1 }
    ensures last { length bytes.now ≤ end → result ≡ length bytes.now }
{
    if end < bytes.len() { end + 1 } else { end }
}
