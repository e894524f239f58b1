use crate::{MemStore, Reader, Stage, Store, StoreFault};
use hb_text::Digest;
use std::alloc::{AllocError, Global};
use std::test::Fail;

const NOW: u64 = 1_700_000_000;

// Stages these bytes in two pieces, and places them.
fn put_blob(store: &mut MemStore, bytes: &[u8], digest: &Digest) -> Result<(), StoreFault> {
    let mut stage = store.stage(7, 0, NOW)?;
    let half = bytes.len() / 2;
    stage.append(&bytes[..half])?;
    stage.append(&bytes[half..])?;
    store.place(7, stage, digest, NOW)
}

// What is held under the digest, read in pieces of at most 3 bytes.
fn get_blob(alloc: Global, store: &mut MemStore, digest: &Digest) -> Result<Vec<u8>, StoreFault> {
    let mut reader = store.fetch(digest, NOW)?;
    let mut got = Vec::new(alloc);
    let mut piece = [0u8; 3];
    for _ in 0..6 {
        let count = reader.read(&mut piece)?;
        got.extend_from_slice(&piece[..count])?;
    }
    Ok(got)
}

fn empty_store(alloc: Global) -> MemStore {
    MemStore::new(alloc, Vec::new(alloc))
}

// A store whose own calls never fail, and whose every stage and reader fails at these calls.
fn store_of_failing(alloc: Global, fails: &[u64]) -> Result<MemStore, AllocError> {
    Ok(MemStore::with_scripts(
        alloc,
        Vec::new(alloc),
        fails.to_vec(alloc)?,
        fails.to_vec(alloc)?,
    ))
}

#[test]
fn blobs_go_in_and_out(rt: HostRuntime) -> Result<(), Fail> {
    let mut store = empty_store(rt.alloc());
    let (one, other) = (Digest::of(b"one"), Digest::of(b"other"));
    let turns: [(&Digest, &[u8], &[u8]); 4] = [
        (&one, b"layer of bytes", b""),
        (&other, b"", b"layer of bytes"),
        (&other, b"config", b"layer of bytes"),
        (&one, b"x", b"x"),
    ];
    for (digest, bytes, of_one) in turns {
        put_blob(&mut store, bytes, digest)?;
        assert_eq!(rt; get_blob(rt.alloc(), &mut store, digest)?.as_slice(), bytes);
        if of_one.len() > 0 {
            assert_eq!(rt; get_blob(rt.alloc(), &mut store, &one)?.as_slice(), of_one);
        }
    }
    assert_eq!(rt; store.script.faults(), 0);
    Ok(())
}

#[test]
fn stages_read_from_any_place(rt: HostRuntime) -> Result<(), Fail> {
    let mut store = empty_store(rt.alloc());
    let mut stage = store.stage(7, 0, NOW)?;
    stage.append(b"abc")?;
    stage.append(b"de")?;
    assert_eq!(rt; stage.len(), 5);
    let rows: [(u64, &[u8]); 5] = [(0, b"abc"), (2, b"cde"), (4, b"e"), (5, b""), (9, b"")];
    for (place, want) in rows {
        let mut into = [0u8; 3];
        let count = stage.read(place, &mut into)?;
        assert_eq!(rt; count, want.len());
        assert!(rt; count <= 3);
        assert_eq!(rt; &into[..count], want, "from {place}");
    }
    Ok(())
}

#[test]
fn what_is_not_there_is_a_fault(rt: HostRuntime) -> Result<(), Fail> {
    let mut store = empty_store(rt.alloc());
    assert!(rt; store.fetch(&Digest::of(b"none"), NOW).is_err());
    assert_eq!(rt; store.script.faults(), 1);
    let mut stage = store.stage(7, 0, NOW)?;
    stage.append(b"abc")?;
    assert!(rt; store.stage(7, 1, NOW).is_err());
    assert_eq!(rt; store.script.faults(), 2);
    assert_eq!(rt; store.drop_stage(9, NOW), Ok(()));
    assert_eq!(rt; store.drop_stage(7, NOW), Ok(()));
    assert_eq!(rt; store.script.faults(), 2);
    Ok(())
}

#[test]
fn scripted_calls_of_a_store_fail(rt: HostRuntime) -> Result<(), Fail> {
    let fails = [1, 3, 6, 9].to_vec(rt.alloc())?;
    let mut store = MemStore::new(rt.alloc(), fails);
    let digest = Digest::of(b"abc");
    assert!(rt; store.stage(7, 0, NOW).is_err());
    let stage = store.stage(7, 0, NOW)?;
    assert_eq!(rt;
        store.place(7, stage, &digest, NOW),
        Err(StoreFault::Failed)
    );
    assert!(rt; store.fetch(&digest, NOW).is_err());
    assert_eq!(rt; store.script.faults(), 3);
    let stage = store.stage(7, 0, NOW)?;
    assert_eq!(rt; store.drop_stage(7, NOW), Err(StoreFault::Failed));
    assert_eq!(rt; store.place(7, stage, &digest, NOW), Ok(()));
    assert_eq!(rt; store.fetch(&digest, NOW)?.left(), 0);
    assert!(rt; store.fetch(&digest, NOW).is_err());
    assert_eq!(rt; store.fetch(&digest, NOW)?.left(), 0);
    assert_eq!(rt; (store.script.calls(), store.script.faults()), (10, 5));
    Ok(())
}

#[test]
fn scripted_calls_of_a_stage_fail(rt: HostRuntime) -> Result<(), Fail> {
    let mut store = store_of_failing(rt.alloc(), &[2, 4])?;
    let mut stage = store.stage(7, 0, NOW)?;
    let mut into = [0u8; 4];
    stage.append(b"ab")?;
    assert_eq!(rt; stage.append(b"lost"), Err(StoreFault::Failed));
    stage.append(b"c")?;
    assert_eq!(rt; stage.read(0, &mut into), Err(StoreFault::Failed));
    assert_eq!(rt; stage.read(0, &mut into), Ok(3));
    assert_eq!(rt; into.as_slice(), b"abc\0".as_slice());
    assert_eq!(rt; (stage.script.faults(), store.script.faults()), (2, 0));
    Ok(())
}

#[test]
fn scripted_calls_of_a_reader_fail(rt: HostRuntime) -> Result<(), Fail> {
    let mut store = store_of_failing(rt.alloc(), &[3])?;
    put_blob(&mut store, b"abcd", &Digest::of(b"abcd"))?;
    let mut reader = store.fetch(&Digest::of(b"abcd"), NOW)?;
    let mut into = [0u8; 2];
    assert_eq!(rt; reader.read(&mut into[..1]), Ok(1));
    assert_eq!(rt; reader.read(&mut into[1..]), Ok(1));
    assert_eq!(rt; into, *b"ab");
    assert_eq!(rt; reader.read(&mut into), Err(StoreFault::Failed));
    assert_eq!(rt; (reader.left(), reader.script.faults()), (2, 1));
    assert_eq!(rt; reader.read(&mut into), Ok(2));
    assert_eq!(rt; into, *b"cd");
    assert_eq!(rt; reader.read(&mut into), Ok(0));
    Ok(())
}

#[test]
fn faults_tell_what_failed(rt: HostRuntime) -> Result<(), Fail> {
    let both = format!(in rt.alloc(); "{}, {}", StoreFault::Failed, StoreFault::Memory)?;
    assert_eq!(rt; both.as_str(), "storage failed, out of memory");
    Ok(())
}
