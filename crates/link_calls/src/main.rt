//! Makes exchanges over TCP, and prints what came of each: a tool for `checks/link`.
//!
//! The arguments are HOST, PORT and two limits in milliseconds, of connecting and of an exchange. Each line of standard
//! input is a request, which is sent with a line feed after it. Of an answer it prints `answer`, how many bytes it has
//! and its SHA-256 digest; else `failed`, `the answer is too long` or `out of memory`. Where the bytes that the buffer
//! had before were changed, or some were added without an answer, it prints `the buffer was changed`. It ends with 0,
//! and with 2 where it cannot go on.
#![tactic(auto)]

use dsc_network::{LinkLimits, TcpLink};
use dsc_outside::{Link, LinkError, Peer};
use mof_values::Text;
use sha2::{Digest, Sha256};
use std::alloc::{AllocError, Global};
use std::process::ExitCode;
use std::time::Duration;
use std::{env, io};

fn main(rt: HostRuntime) -> ExitCode {
    match make_exchanges(&rt) {
        Ok(()) => ExitCode::from(0),
        Err(_) => ExitCode::from(2),
    }
}

fn make_exchanges(rt: &HostRuntime) -> io::Result<()> {
    let Some((peer, limits)) = read_arguments(rt) else {
        return Err(io::Error::from(io::ErrorKind::InvalidInput));
    };
    let mut link = TcpLink::with_limits(rt, limits);
    for line in rt.lines(rt.alloc()) {
        let line = line?;
        let mut answer = b"kept".to_vec(rt.alloc())?;
        let outcome = match request_of(rt.alloc(), line.as_str()) {
            Ok(request) => link.exchange(&peer, &request, &mut answer),
            Err(AllocError) => Err(LinkError::Memory),
        };
        let whole = answer.as_slice().starts_with(b"kept");
        match outcome {
            Ok(()) if whole => print_answer(rt, &answer[4..])?,
            Err(error) if answer.len() == 4 && whole => println!(rt; "{error}")?,
            _ => println!(rt; "the buffer was changed")?,
        }
    }
    Ok(())
}

fn read_arguments(rt: &HostRuntime) -> Option<(Peer, LinkLimits)> {
    let mut arguments = env::args(rt).ok()?;
    let _program = arguments.next();
    let host = arguments.next()?;
    let port = arguments.next()?.as_str().parse::<u16>().ok()?;
    let connect = arguments.next()?.as_str().parse::<u32>().ok()?;
    let exchange = arguments.next()?.as_str().parse::<u32>().ok()?;
    let host = Text::from_latin1(rt.alloc(), host.as_str().as_bytes()).ok()?;
    let limits = LinkLimits {
        connect: Duration::from_millis(u64::from(connect)),
        exchange: Duration::from_millis(u64::from(exchange)),
    };
    Some((Peer { host, port }, limits))
}

fn request_of(alloc: Global, line: &str) -> Result<Vec<u8>, AllocError> {
    let mut request = line.as_bytes().to_vec(alloc)?;
    request.push(b'\n')?;
    Ok(request)
}

fn print_answer(rt: &HostRuntime, answer: &[u8]) -> io::Result<()> {
    let digest = hex::encode(rt.alloc(), Sha256::digest(answer))?;
    println!(rt; "answer {} {digest}", answer.len())
}
