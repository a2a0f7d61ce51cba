//! The text of the keys.
ghost use Rattle.std.specs.Prelude.{◌≡◌, ◌≤◌, ◌-◌, IfSome, length, slice_get};
ghost use Rattle.std.specs.List.{position};
ghost use Rattle.std.specs.Option.{option_copied};
ghost use Rattle.std.specs.Str.Lines.{strip_carriage_return};
ghost use Rattle.shelf_layout.specs.Keys.{is_line_feed, keys_in, with_line};

/// The key of that index, counted from 0: the lines that are not empty are the keys. A line ends with a line feed, before
/// which one carriage return is left out, or with the text.
pub fn key_at(text: &[u8], index: u32) -> Option<&[u8]>
    ensures key { option_copied result ≡ slice_get (keys_in text.now) index }
    ensures length { IfSome result (λ key. length key.now ≤ length text.now) }
{
    let mut rest = text;
    let mut left = index;
    for _ in 0..text.len() {
        let (line, after) = split_line(rest);
        if !line.is_empty() {
            if left == 0 {
                return Some(line);
            }
            left -= 1;
        }
        rest = after;
    }
    None
}

// The first line, without its end, and what stands after it.
fn split_line(text: &[u8]) -> (&[u8], &[u8])
    ensures keys { keys_in text.now ≡ with_line result.0.now (keys_in result.1.now) }
    ensures line { length result.0.now ≤ length text.now }
    ensures after { length result.1.now ≤ length text.now - 1 }
{
    match line_feed(text) {
        None => (text, &[]),
        Some(end) => (without_return(&text[..end]), &text[end + 1..]),
    }
}

fn line_feed(text: &[u8]) -> Option<usize>
    ensures { result ≡ position is_line_feed text.now }
{
    text.iter().position(|b| *b == b'\n')
}

fn without_return(line: &[u8]) -> &[u8]
    ensures stripped { result.now ≡ strip_carriage_return line.now }
    ensures length { length result.now ≤ length line.now }
{
    if !line.is_empty() && line[line.len() - 1] == b'\r' {
        &line[..line.len() - 1]
    } else {
        line
    }
}
