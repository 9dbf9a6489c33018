use crate::failing::{FailingFolder, FailingOutput};
use desk_io::{
    Copied, FileShelf, LineFeeds, Listed, MemoryShelf, MemorySink, OutOfMemory, PutFault, Shelf,
    Sink, StdoutSink, Text, WholeFault, copied_items, copied_option, push_all, read_whole,
    runs_between,
};
use std::alloc::Global;
use std::fs;
use std::test::Fail;

fn source(alloc: Global, name: &[u8], text: Vec<u8>) -> Result<(Text, Text), OutOfMemory> {
    Ok((Text::of(alloc, name)?, Text::from_vec(text)))
}

// A short source `a` and a long one `b`.
fn two_sources(alloc: Global) -> Result<Vec<(Text, Text)>, OutOfMemory> {
    let mut sources = Vec::new(alloc);
    sources.push(source(alloc, b"a", Vec::from_slice(alloc, b"first")?)?)?;
    sources.push(source(alloc, b"b", vec![in alloc; 7u8; 5000]?)?)?;
    Ok(sources)
}

// How long the source is, or why it wasn't read, and the faults counted since.
fn reads(alloc: Global, shelf: &mut MemoryShelf, name: &str) -> (Result<usize, WholeFault>, u64) {
    let length = match read_whole(alloc, shelf, name) {
        Ok(text) => Ok(text.bytes().len()),
        Err(fault) => Err(fault),
    };
    (length, shelf.faults())
}

// What a sink in memory holds whose second write fails, and the faults that it counts.
fn written(alloc: Global) -> Result<MemorySink, OutOfMemory> {
    let mut failing = Vec::new(alloc);
    failing.push(1)?;
    let mut sink = MemorySink::new(alloc, failing);
    for (text, wanted) in [
        (b"one".as_slice(), Ok(())),
        (b"two", Err(PutFault::Failed)),
        (b"three", Ok(())),
    ] {
        if sink.write(text) != wanted {
            return Err(OutOfMemory);
        }
    }
    Ok(sink)
}

#[test]
fn sources_and_sinks_in_memory(rt: HostRuntime) -> Result<(), Fail> {
    let alloc = rt.alloc();
    // Calls 0 and 1 read the first source and its end, and call 3 is the second of the long one.
    let mut shelf = MemoryShelf::new(two_sources(alloc)?, vec![in alloc; 3]?);
    for (name, wanted) in [
        ("a", (Ok(5), 0)),
        ("b", (Err(WholeFault::ReadFault), 1)),
        ("b", (Ok(5000), 1)),
        ("c", (Err(WholeFault::ReadFault), 2)),
    ] {
        assert!(rt; reads(alloc, &mut shelf, name) == wanted);
    }
    let sink = written(alloc)?;
    assert!(rt; sink.written() == b"onethree".as_slice() && sink.faults() == 1);
    Ok(())
}

fn joined(alloc: Global, texts: &[Text]) -> Result<Vec<u8>, OutOfMemory> {
    let mut joined = Vec::new(alloc);
    for text in texts {
        joined.extend_from_slice(text.bytes())?;
        joined.push(b',')?;
    }
    Ok(joined)
}

// Two texts in a list, of which the second is a copy.
fn listed(alloc: Global) -> Result<Listed<Text>, OutOfMemory> {
    let mut list = Listed::new(alloc);
    list.push(Text::of(alloc, b"KJFK")?)?;
    list.push(Text::of(alloc, b"KBOS")?.copy(alloc)?)?;
    Ok(list)
}

// They are copied as a list, and then as its items.
fn copied(alloc: Global) -> Result<Vec<u8>, OutOfMemory> {
    let list = listed(alloc)?.copy(alloc)?;
    let items = copied_items(list.as_slice(), alloc)?;
    joined(alloc, &items)
}

fn cut(alloc: Global, text: &[u8]) -> Result<Vec<u8>, OutOfMemory> {
    let mut joined = Vec::new(alloc);
    for line in &runs_between::<LineFeeds>(alloc, text)? {
        push_all(&mut joined, &[line.bytes(), b","])?;
    }
    Ok(joined)
}

#[test]
fn texts_and_lists_are_copied_and_cut(rt: HostRuntime) -> Result<(), Fail> {
    let alloc = rt.alloc();
    assert!(rt; copied(alloc)?.as_slice() == b"KJFK,KBOS,".as_slice());
    assert!(rt; cut(alloc, b"\n a bc\r\n\n d")?.as_slice() == b" a bc\r, d,".as_slice());
    let one = copied_option(&Some(Text::of(alloc, b"x")?), alloc)?;
    assert!(rt; matches!(&one, Some(text) if text.bytes() == b"x".as_slice()));
    Ok(())
}

fn length_of<S: Shelf>(alloc: Global, shelf: &mut S) -> Result<usize, WholeFault> {
    Ok(
        read_whole(alloc, shelf, "operations_acceptance_source")?
            .bytes()
            .len(),
    )
}

// The disk and standard output tell no contents, so only a run shows what passes through them.
#[test]
fn files_and_standard_output(rt: HostRuntime) -> Result<(), Fail> {
    let alloc = rt.alloc();
    let long = vec![in alloc; b'x'; 5000]?;
    fs::write(&rt, "operations_acceptance_source", long.as_slice())?;
    let mut shelf = FileShelf::new(rt);
    let read = length_of(alloc, &mut shelf);
    fs::remove_file(&rt, "operations_acceptance_source")?;
    assert!(rt; read == Ok(5000) && shelf.faults() == 0);
    let missing = length_of(alloc, &mut shelf);
    assert!(rt; missing == Err(WholeFault::ReadFault) && shelf.faults() == 1);
    let mut out = StdoutSink::new(rt);
    assert!(rt; out.write(b"written\n") == Ok(()) && out.faults() == 0);
    Ok(())
}

// An error in the middle of a file isn't its end, and bytes that weren't written are a fault.
#[test]
fn errors_of_the_system_are_faults(rt: HostRuntime) -> Result<(), Fail> {
    let mut shelf = FileShelf::new((FailingFolder, rt.alloc()));
    let read = length_of(rt.alloc(), &mut shelf);
    assert!(rt; read == Err(WholeFault::ReadFault) && shelf.faults() == 1);
    let mut out = StdoutSink::new(FailingOutput);
    assert!(rt; out.write(b"abc") == Ok(()) && out.faults() == 0);
    assert!(rt; out.write(b"abcd") == Err(PutFault::Failed) && out.faults() == 1);
    Ok(())
}
