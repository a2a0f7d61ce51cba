//! Single connections over the store and the disk of a server, and how each ends.
use crate::calls::new_link;
use pull_outside::MemoryConn;
use pull_serving::{ConnectionEnd, serve_connection};
use std::alloc::Global;
use std::rt::HostRuntime;

const FETCH: &str =
    "GET /PSDSCPullServer.svc/Nodes(AgentId='00000000-0000-0000-0000-000000000001')/Configurations(ConfigurationName='Web')/ConfigurationContent HTTP/1.1\r\nHost: s\r\n\r\n";

const NOT_FOUND: &str =
    "HTTP/1.1 404 Not Found\r\nConnection: close\r\nProtocolVersion: 2.0\r\nContent-Length: 0\r\n\r\n";

// How many bytes of the request come, the calls of the connection that fail, how it ends and what it takes.
type Row = (usize, &'static [u64], ConnectionEnd, &'static str);

const ROWS: &[Row] = &[
    (1000, &[], ConnectionEnd::Answered { code: 404 }, NOT_FOUND),
    (30, &[], ConnectionEnd::Torn { at: 30 }, ""),
    (0, &[], ConnectionEnd::Torn { at: 0 }, ""),
    (30, &[0], ConnectionEnd::ReadFault, ""),
    (1000, &[1], ConnectionEnd::WriteFault, ""),
];

// Whether the connection of the row ends so over a new server.
fn ends_so(alloc: Global, row: &Row) -> bool {
    let (count, failing, wanted, taken) = *row;
    let sent = FETCH.as_bytes().get(..count).unwrap_or(FETCH.as_bytes());
    let (Ok(bytes), Ok(failing)) = (sent.to_vec(alloc), failing.to_vec(alloc)) else {
        return false;
    };
    let Ok(link) = new_link(alloc, b"abc") else {
        return false;
    };
    let (mut store, mut disk, mut shelf) = link.into_parts();
    let mut conn = MemoryConn::new(alloc, bytes, 8192, failing);
    let end = serve_connection(alloc, &mut conn, &mut store, &mut disk, &mut shelf);
    end == wanted && conn.taken() == taken.as_bytes()
}

#[test]
fn a_connection_ends_in_one_way(rt: HostRuntime) {
    for row in ROWS {
        assert!(rt; ends_so(rt.alloc(), row), "{} bytes", row.0);
    }
}
