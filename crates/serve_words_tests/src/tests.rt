//! Which arguments are taken, and with which values.
use serve_words::{ServeWords, WordsError, serve_words};
use std::alloc::{AllocError, Global};
use std::test::Fail;

// Command lines, arguments apart by one blank, and what comes of them: the values, or `refused`.
fn lines() -> &'static [(&'static str, &'static str)] {
    &[
        (
            "serve --store a --shelf b --listen c --connections 12",
            "a b c 12",
        ),
        (
            "serve --connections 12 --listen c --shelf b --store a",
            "a b c 12",
        ),
        (
            "serve --store=a --shelf=b --listen=c --connections=12",
            "a b c 12",
        ),
        (
            "serve --listen c --store=a --connections=1 --shelf b",
            "a b c 1",
        ),
        (
            "serve --store=a=b --shelf=--x --listen=-1 --connections 1000000",
            "a=b --x -1 1000000",
        ),
        (
            "serve --store a --shelf b --listen c --connections +5",
            "a b c 5",
        ),
        (
            "serve --store a --shelf b --listen c --connections 007",
            "a b c 7",
        ),
        (
            "serve --store  --shelf b --listen c --connections 1",
            " b c 1",
        ),
        (
            "serve --store= --shelf b --listen c --connections 1",
            " b c 1",
        ),
        (
            "serve --store - --shelf b --listen c --connections 1",
            "- b c 1",
        ),
        (
            "serve --store é --shelf 🜨 --listen c --connections 1",
            "é 🜨 c 1",
        ),
        ("serve", "refused"),
        ("serve --store a --shelf b --listen c", "refused"),
        (
            "serve --store a --shelf b --listen c --connections",
            "refused",
        ),
        ("serve --shelf b --listen c --connections 1", "refused"),
        (
            "serve --store --shelf b --listen c --connections 1",
            "refused",
        ),
        (
            "serve --store a --shelf b --listen c --connections 0",
            "refused",
        ),
        (
            "serve --store a --shelf b --listen c --connections 1000001",
            "refused",
        ),
        (
            "serve --store a --shelf b --listen c --connections 99999999999999999999",
            "refused",
        ),
        (
            "serve --store a --shelf b --listen c --connections -1",
            "refused",
        ),
        (
            "serve --store a --shelf b --listen c --connections=-1",
            "refused",
        ),
        (
            "serve --store a --shelf b --listen c --connections x",
            "refused",
        ),
        (
            "serve --store a --shelf b --listen c --connections 1x",
            "refused",
        ),
        (
            "serve --store a --shelf b --listen c --connections ",
            "refused",
        ),
        (
            "serve --store a --shelf b --listen c --connections=",
            "refused",
        ),
        (
            "serve --store a --store a --shelf b --listen c --connections 1",
            "refused",
        ),
        (
            "serve --store a --shelf b --listen c --connections 1 --connections 1",
            "refused",
        ),
        (
            "serve --store -a --shelf b --listen c --connections 1",
            "refused",
        ),
        (
            "serve --store a --shelf b --listen c --connections 1 x",
            "refused",
        ),
        (
            "serve x --store a --shelf b --listen c --connections 1",
            "refused",
        ),
        (
            "serve --store a --shelf b --listen c --connections 1 --",
            "a b c 1",
        ),
        (
            "serve --store a --shelf b --listen c -- --connections 1",
            "refused",
        ),
        (
            "serve --stor a --shelf b --listen c --connections 1",
            "refused",
        ),
        (
            "serve --Store a --shelf b --listen c --connections 1",
            "refused",
        ),
        ("serve --help", "refused"),
        ("serve -h", "refused"),
        (
            "serve --store a --shelf b --listen c --connections 1 --help",
            "refused",
        ),
        ("serve --version", "refused"),
    ]
}

#[test]
fn words_are_taken_or_refused(rt: HostRuntime) -> Result<(), Fail> {
    let alloc = rt.alloc();
    for (line, wanted) in lines() {
        let mut words = Vec::new(alloc);
        for word in line.split(' ').skip(1) {
            words.push(String::from_str(alloc, word)?)?;
        }
        let found = told(alloc, words.as_slice())?;
        expect(found.as_str() == *wanted, line)?;
    }
    Ok(())
}

fn told(alloc: Global, words: &[String]) -> Result<String, AllocError> {
    match serve_words(alloc, words) {
        Ok(values) => shown(alloc, &values),
        Err(WordsError::Usage) => String::from_str(alloc, "refused"),
        Err(WordsError::Memory) => String::from_str(alloc, "out of memory"),
    }
}

fn shown(alloc: Global, values: &ServeWords) -> Result<String, AllocError> {
    let store = values.store.to_utf8()?;
    let shelf = values.shelf.to_utf8()?;
    let listen = values.listen.to_utf8()?;
    let connections = values.connections;
    Ok(format!(in alloc; "{store} {shelf} {listen} {connections}")?)
}

// Expects that it is so of that row.
fn expect(is_so: bool, row: &str) -> Result<(), Fail> {
    if is_so {
        return Ok(());
    }
    Err(Fail::new(format_args!("{row} is answered otherwise")))
}
