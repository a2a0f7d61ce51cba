use pull_exchange::{Received, receive};
use pull_outside::{Door, MemoryConn, MemoryDoor, Parting};
use std::alloc::{AllocError, Global};
use std::rt::HostRuntime;
use std::test::Fail;

// A door with two connections, of no byte and of one, whose call of that number fails.
fn two(alloc: Global, failing: u64) -> Result<MemoryDoor, AllocError> {
    let mut coming = Vec::new(alloc);
    coming.push(MemoryConn::new(alloc, Vec::new(alloc), 1, Vec::new(alloc)))?;
    let mut bytes = Vec::new(alloc);
    bytes.push(b'G')?;
    coming.push(MemoryConn::new(alloc, bytes, 1, Vec::new(alloc)))?;
    let mut numbers = Vec::new(alloc);
    numbers.push(failing)?;
    match MemoryDoor::new(alloc, coming, numbers) {
        Ok(door) => Ok(door),
        Err(_) => Err(AllocError),
    }
}

// What the next connection gives, which is then handed back; none where no connection comes.
fn served(alloc: Global, door: &mut MemoryDoor) -> Option<u64> {
    let Ok(mut conn) = door.next() else {
        return None;
    };
    let end = match receive(alloc, &mut conn) {
        Received::Torn { at } => at,
        _ => 100,
    };
    door.close(conn, Parting::AfterPeer);
    Some(end)
}

#[test]
fn connections_come_in_order_and_are_kept(rt: HostRuntime) -> Result<(), Fail> {
    let mut door = two(rt.alloc(), 100)?;
    assert_eq!(rt; served(rt.alloc(), &mut door), Some(0));
    assert_eq!(rt; served(rt.alloc(), &mut door), Some(1));
    assert_eq!(rt; served(rt.alloc(), &mut door), None);
    assert_eq!(rt; door.back().len(), 2);
    Ok(())
}

#[test]
fn a_call_that_fails_gives_no_connection_away(rt: HostRuntime) -> Result<(), Fail> {
    let mut door = two(rt.alloc(), 0)?;
    assert_eq!(rt; served(rt.alloc(), &mut door), None);
    assert_eq!(rt; served(rt.alloc(), &mut door), Some(0));
    assert_eq!(rt; served(rt.alloc(), &mut door), Some(1));
    Ok(())
}
