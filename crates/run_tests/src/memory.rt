//! Shelves and sinks in memory: their room, and the calls that fail.

use crate::shelves::shelf;
use outer_io::{MemorySink, Shelf, Sink, Slot, read_all, write_shelf, write_sink};
use std::test::Fail;

// The second write fails, and one for which there is no room.
#[test]
fn a_sink_takes_what_it_has_room_for(rt: HostRuntime) -> Result<(), Fail> {
    let alloc = rt.alloc();
    let mut sink = MemorySink::make(alloc, 8, vec![in alloc; 2]?)?;
    write_sink(&mut sink, b"abc")?;
    assert!(rt; write_sink(&mut sink, b"def").is_err());
    assert_eq!(rt; sink.bytes(), b"abc".as_slice());
    write_sink(&mut sink, b"ghi")?;
    assert_eq!(rt; sink.bytes(), b"abcghi".as_slice());
    assert!(rt; write_sink(&mut sink, b"jkl").is_err());
    assert_eq!(rt; sink.bytes(), b"abcghijk".as_slice());
    assert_eq!(rt; sink.write(b""), Ok(0));
    Ok(())
}

#[test]
fn a_shelf_in_memory_keeps_its_log(rt: HostRuntime) -> Result<(), Fail> {
    let alloc = rt.alloc();
    let mut shelf = shelf(alloc, "old", "a.log", 5, 0)?;
    assert!(rt; shelf.create("b.log", Slot::Log).is_err());
    assert_eq!(rt; shelf.file("b.log"), None);
    assert_eq!(rt; shelf.file("a.log"), Some(b"old".as_slice()));
    shelf.create("a.log", Slot::Log)?;
    assert_eq!(rt; shelf.file("a.log"), Some(b"".as_slice()));
    assert!(rt; write_shelf(&mut shelf, Slot::Log, b"one two").is_err());
    assert_eq!(rt; shelf.file("a.log"), Some(b"one t".as_slice()));
    shelf.begin("a.log", Slot::Nav)?;
    let read = read_all(alloc, &mut shelf, Slot::Nav, 9)?;
    assert_eq!(rt; read.as_slice(), b"one t".as_slice());
    Ok(())
}

// The file is begun by call 1, read by call 2 and read to its end by call 3; the log is created by
// call 1 and written by call 2.
#[test]
fn each_listed_call_fails(rt: HostRuntime) -> Result<(), Fail> {
    let alloc = rt.alloc();
    for failing in 1..5u64 {
        let mut read = shelf(alloc, "old", "a.log", 5, failing)?;
        let begun = read.begin("a.log", Slot::Log);
        assert_eq!(rt; begun.is_err(), failing == 1);
        if begun.is_ok() {
            let bytes = read_all(alloc, &mut read, Slot::Log, 3);
            assert_eq!(rt; bytes.is_err(), failing < 4);
        }
        let mut written = shelf(alloc, "old", "a.log", 5, failing)?;
        let created = written.create("a.log", Slot::Log);
        assert_eq!(rt; created.is_err(), failing == 1);
        if created.is_ok() {
            let wrote = write_shelf(&mut written, Slot::Log, b"new");
            assert_eq!(rt; wrote.is_err(), failing == 2);
        }
        let bytes: &[u8] = match failing {
            1 => b"old",
            2 => b"",
            _ => b"new",
        };
        assert_eq!(rt; written.file("a.log"), Some(bytes));
    }
    Ok(())
}
