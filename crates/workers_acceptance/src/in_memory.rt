use crate::{Greeting, Nothing, Tally};
use connections::{Finished, ServeEnd};
use desk_io::OutOfMemory;
use desk_net::{Door, MemoryDoor, MemoryLink};
use std::alloc::Global;
use std::sync::Wait;
use std::test::Fail;
use std::thread::Threads;
use workers::stay;

fn links(alloc: Global, count: usize) -> Result<Vec<MemoryLink>, OutOfMemory> {
    let mut made = Vec::new(alloc);
    for _ in 0..count {
        made.push(MemoryLink::new(alloc, Vec::new(alloc), 4, Vec::new(alloc)))?;
    }
    Ok(made)
}

fn are_greeted(links: &[MemoryLink]) -> bool {
    links
        .iter()
        .all(|link| link.written() == b"hello".as_slice())
}

// Whether every lane is that of a worker.
fn are_lanes_of(lanes: &[u32], workers: u32) -> bool {
    lanes.iter().all(|lane| 1 <= *lane && *lane <= workers)
}

#[tactic(auto, using(desk_net::proofs::Crossing::MemoryDoor_send, desk_net::proofs::Crossing::MemoryLink_send))]
fn run<R: Threads + Wait + Sync>(
    rt: &R,
    alloc: Global,
    door: MemoryDoor,
    workers: u32,
) -> Finished<Tally, MemoryDoor> {
    stay(
        rt,
        alloc,
        Tally::new(alloc),
        &Greeting,
        &Nothing,
        door,
        80,
        workers.clamp(1, 32),
    )
}

#[test]
fn three_workers_serve_seven_links(rt: HostRuntime) -> Result<(), Fail> {
    let alloc = rt.alloc();
    let door = MemoryDoor::new(alloc, links(alloc, 7)?, Vec::new(alloc));
    let Finished { value, door, end } = run(&rt, alloc, door, 3);
    assert!(rt; end == ServeEnd::DoorFault && door.port() == Some(80));
    assert!(rt; door.ended().len() == 7 && are_greeted(door.ended()));
    let lanes = value.lanes.as_slice();
    assert!(rt; lanes.len() == 7);
    assert!(rt; are_lanes_of(lanes, 3));
    Ok(())
}

#[test]
fn a_door_that_cannot_open_ends_the_workers(rt: HostRuntime) -> Result<(), Fail> {
    let alloc = rt.alloc();
    let door = MemoryDoor::new(alloc, links(alloc, 2)?, vec![in alloc; 0]?);
    let Finished { value, door, end } = run(&rt, alloc, door, 2);
    assert!(rt; end == ServeEnd::DoorFault && door.port() == None);
    assert!(rt; value.lanes.is_empty() && door.ended().is_empty() && door.faults() == 1);
    Ok(())
}

#[test]
fn a_fault_of_the_door_ends_the_workers(rt: HostRuntime) -> Result<(), Fail> {
    let alloc = rt.alloc();
    let door = MemoryDoor::new(alloc, links(alloc, 5)?, vec![in alloc; 3]?);
    let Finished { value, door, end } = run(&rt, alloc, door, 2);
    assert!(rt; end == ServeEnd::DoorFault && door.faults() == 1);
    assert!(rt; value.lanes.len() == 2 && door.ended().len() == 2 && are_greeted(door.ended()));
    Ok(())
}
