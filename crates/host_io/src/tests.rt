//! The files, the output and the gates, by one table each.

use crate::{
    FileFault, Files, Gate, MeetGate, MemFiles, MemOut, NamedFile, NamedFiles, OpenGate, Out,
    OutFailed, Stream,
};
use abl_base::{Bytes, Items};
use std::alloc::{AllocError, Global};
use std::test::Fail;
use std::thread::join;

fn named(alloc: Global, name: &[u8], bytes: &[u8]) -> Result<NamedFile, AllocError> {
    Ok(NamedFile {
        name: Bytes::of(alloc, name)?,
        bytes: Bytes::of(alloc, bytes)?,
    })
}

/// Three files: `a` with `one`, `b` with nothing, and `a` again.
fn three_files(alloc: Global) -> Result<NamedFiles, AllocError> {
    let mut files = Vec::new(alloc);
    files.push(named(alloc, b"a", b"one")?)?;
    files.push(named(alloc, b"b", b"")?)?;
    files.push(named(alloc, b"a", b"two")?)?;
    Ok(Items::from_vec(files))
}

/// What a read of the name gives, and the count of faults after it.
fn answer(
    files: &mut MemFiles,
    alloc: Global,
    name: &[u8],
    most: u64,
) -> Result<(Result<Bytes, FileFault>, u64), AllocError> {
    let given = files.read(&Bytes::of(alloc, name)?, most);
    Ok((given, files.faults()))
}

#[test]
fn reads_fail_by_number_and_for_missing_names(rt: HostRuntime) -> Result<(), Fail> {
    let alloc = rt.alloc();
    let mut files = MemFiles::new(alloc, &three_files(alloc)?, &[2, 5])?;
    let table: [(&[u8], u64, Result<&[u8], FileFault>, u64); 6] = [
        (b"a", 3, Ok(b"one"), 0),
        (b"a", 3, Err(FileFault::Failed), 1),
        (b"a", 2, Err(FileFault::TooLong), 1),
        (b"b", 0, Ok(b""), 1),
        (b"b", 0, Err(FileFault::Failed), 2),
        (b"c", 9, Err(FileFault::Failed), 3),
    ];
    for (name, most, want, faults) in table {
        let (given, count) = answer(&mut files, alloc, name, most)?;
        assert_eq!(rt; count, faults);
        match (given, want) {
            (Ok(bytes), Ok(wanted)) => assert_eq!(rt; bytes.as_slice(), wanted),
            (Err(fault), Err(wanted)) => assert_eq!(rt; fault, wanted),
            _ => assert!(rt; false, "an answer of the other kind"),
        }
    }
    Ok(())
}

#[test]
fn writes_fail_by_number_and_past_the_most(rt: HostRuntime) -> Result<(), Fail> {
    let mut out = MemOut::new(rt.alloc(), 5, &[2])?;
    let table: [(Stream, &[u8], Result<(), OutFailed>, u64); 6] = [
        (Stream::Output, b"ab", Ok(()), 0),
        (Stream::Output, b"x", Err(OutFailed), 1),
        (Stream::Diagnostics, b"cd", Ok(()), 1),
        (Stream::Output, b"ef", Err(OutFailed), 2),
        (Stream::Output, b"g", Ok(()), 2),
        (Stream::Diagnostics, b"", Ok(()), 2),
    ];
    for (stream, piece, want, faults) in table {
        assert_eq!(rt; out.write(stream, piece), want);
        assert_eq!(rt; out.faults(), faults);
    }
    assert_eq!(rt; out.text(Stream::Output), b"abg".as_slice());
    assert_eq!(rt; out.text(Stream::Diagnostics), b"cd".as_slice());
    Ok(())
}

#[test]
fn one_client_alone_does_not_meet(rt: HostRuntime) {
    OpenGate.at(0, 5);
    let gate = MeetGate::new(2, 5, 1000);
    gate.at(0, 5);
    gate.at(0, 5);
    assert!(rt; !gate.met());
    gate.at(1, 5);
    assert!(rt; !gate.met(), "the first has spent its turns");
}

#[test]
fn two_clients_meet(rt: HostRuntime) {
    let gate = MeetGate::new(2, 5, 1_000_000_000);
    gate.at(0, 4);
    assert!(rt; !gate.met());
    join(&rt, || gate.at(0, 5), || gate.at(1, 5));
    assert!(rt; gate.met());
}
