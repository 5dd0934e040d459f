use k_edge::{Failed, MemShelf, MemSink, SureShelf, SureSink};
use std::alloc::{AllocError, Global};
use std::test::Fail;
use whole_files::{Unread, read_file, write_all};

fn long_file(alloc: Global) -> Result<Vec<u8>, AllocError> {
    (0..5_000_u32).map(|at| (at % 251) as u8).collect(alloc)
}

fn files(alloc: Global) -> Result<Vec<(String, Vec<u8>)>, AllocError> {
    let mut files = Vec::new(alloc);
    files.push(("long.k".to_string(alloc)?, long_file(alloc)?))?;
    files.push(("empty.k".to_string(alloc)?, Vec::new(alloc)))?;
    Ok(files)
}

// What is read of a shelf of which the call with this number fails.
fn read_with_fault(
    alloc: Global,
    name: &str,
    limit: usize,
    failing: u64,
) -> Result<Result<Vec<u8>, Unread>, AllocError> {
    let mut shelf = MemShelf::new(files(alloc)?, vec![in alloc; failing]?);
    Ok(read_file(alloc, &mut shelf, name, limit))
}

#[test]
fn a_file_is_read_to_its_end_or_past_its_limit(rt: HostRuntime) -> Result<(), Fail> {
    let long = long_file(rt.alloc())?;
    // A call that fails shows how many calls a reading takes.
    let reads: [(&str, usize, u64, Result<usize, Unread>); 8] = [
        ("long.k", 5_000, 4, Ok(5_000)),
        ("long.k", 5_000, 3, Err(Unread::Fault)),
        ("long.k", 5_000, 2, Err(Unread::Fault)),
        ("long.k", 4_999, 3, Ok(5_000)),
        ("long.k", 4_095, 2, Ok(4_096)),
        ("empty.k", 0, 2, Ok(0)),
        ("empty.k", 0, 1, Err(Unread::Fault)),
        ("none.k", 9, 2, Err(Unread::Fault)),
    ];
    for (name, limit, failing, expected) in reads {
        let read = read_with_fault(rt.alloc(), name, limit, failing)?;
        match (&read, expected) {
            (Ok(bytes), Ok(count)) => {
                assert_eq!(rt;
                    Some(bytes.as_slice()),
                    long.get(..count),
                    "{name} within {limit}"
                );
            }
            (Err(unread), Err(expected)) => {
                assert_eq!(rt; *unread, expected, "{name} within {limit}");
            }
            _ => panic!(rt; "{name} within {limit}, failing at {failing}"),
        }
    }
    Ok(())
}

#[test]
fn a_sure_shelf_is_read(rt: HostRuntime) -> Result<(), Fail> {
    let long = long_file(rt.alloc())?;
    let mut shelf = SureShelf::new(files(rt.alloc())?);
    let read = read_file(rt.alloc(), &mut shelf, "long.k", 65_536);
    assert!(rt; read.is_ok_and(|bytes| bytes == long));
    Ok(())
}

#[test]
fn a_text_is_written_whole_or_in_front(rt: HostRuntime) -> Result<(), Fail> {
    let text = b"0123456789abcdef0123456789ABCDEF01234567".as_slice();
    let writes: [(&[u8], u64, Result<(), Failed>, &[u8]); 4] = [
        (text, 4, Ok(()), text),
        (text, 2, Err(Failed), b"0123456789abcdef"),
        (text, 1, Err(Failed), b""),
        (b"", 1, Ok(()), b""),
    ];
    for (text, failing, expected, taken) in writes {
        let mut sink = MemSink::new(rt.alloc(), 16, vec![in rt.alloc(); failing]?)?;
        assert_eq!(rt;
            write_all(&mut sink, text),
            expected,
            "failing at {failing}"
        );
        assert_eq!(rt; sink.bytes(), taken, "failing at {failing}");
    }
    Ok(())
}

#[test]
fn a_sure_sink_takes_the_text(rt: HostRuntime) {
    let mut sink = SureSink::new();
    assert_eq!(rt; write_all(&mut sink, &[7; 40]), Ok(()));
}
