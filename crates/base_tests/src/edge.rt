use k_edge::{Failed, MemShelf, MemSink, Shelf, Sink, SureShelf, SureSink};
use std::alloc::{AllocError, Global};
use std::test::Fail;

// Two files, of which the second is hidden behind the first by its name, and a third.
fn files(alloc: Global) -> Result<Vec<(String, Vec<u8>)>, AllocError> {
    let mut files = Vec::new(alloc);
    for (name, bytes) in [("a.k", "module"), ("a.k", "hidden"), ("b.k", "xyz")] {
        files.push((name.to_string(alloc)?, bytes.as_bytes().to_vec(alloc)?))?;
    }
    Ok(files)
}

fn read_piece<'a, S: Shelf>(
    shelf: &mut S,
    name: &str,
    at: u64,
    buf: &'a mut [u8; 4],
) -> Result<&'a [u8], Failed> {
    let count = shelf.read(name, at, buf)?;
    Ok(&buf[..count])
}

fn write_front<S: Sink>(sink: &mut S, text: &[u8; 40]) -> Result<usize, Failed> {
    sink.write(text)
}

#[test]
fn a_shelf_in_memory_reads_and_fails(rt: HostRuntime) -> Result<(), Fail> {
    let fail = vec![in rt.alloc(); 3]?;
    let mut shelf = MemShelf::new(files(rt.alloc())?, fail);
    let reads: [(&str, u64, Result<&[u8], Failed>); 7] = [
        ("a.k", 0, Ok(b"modu")),
        ("a.k", 4, Ok(b"le")),
        ("a.k", 6, Err(Failed)),
        ("a.k", 6, Ok(b"")),
        ("a.k", u64::MAX, Ok(b"")),
        ("b.k", 1, Ok(b"yz")),
        ("c.k", 0, Err(Failed)),
    ];
    for (name, at, expected) in reads {
        let mut buf = [0; 4];
        let piece = read_piece(&mut shelf, name, at, &mut buf);
        assert_eq!(rt; piece, expected, "{name} at {at}");
    }
    Ok(())
}

#[test]
fn a_sure_shelf_has_no_bytes_of_other_names(rt: HostRuntime) -> Result<(), Fail> {
    let mut shelf = SureShelf::new(files(rt.alloc())?);
    let reads: [(&str, u64, &[u8]); 3] = [("a.k", 2, b"dule"), ("a.k", 6, b""), ("c.k", 0, b"")];
    for (name, at, expected) in reads {
        let mut buf = [0; 4];
        let piece = read_piece(&mut shelf, name, at, &mut buf);
        assert_eq!(rt; piece, Ok(expected), "{name} at {at}");
    }
    Ok(())
}

#[test]
fn a_sink_in_memory_takes_pieces_and_fails(rt: HostRuntime) -> Result<(), Fail> {
    let text: &[u8; 40] = b"0123456789abcdef0123456789ABCDEF01234567";
    let fail = vec![in rt.alloc(); 2]?;
    let mut sink = MemSink::new(rt.alloc(), 16, fail)?;
    for expected in [Ok(16), Err(Failed), Ok(16)] {
        assert_eq!(rt; write_front(&mut sink, text), expected);
    }
    assert_eq!(rt;
        sink.bytes(),
        b"0123456789abcdef0123456789abcdef".as_slice()
    );
    Ok(())
}

#[test]
fn a_sure_sink_takes_all(rt: HostRuntime) {
    let mut sink = SureSink::new();
    assert_eq!(rt; write_front(&mut sink, &[7; 40]), Ok(40));
}
