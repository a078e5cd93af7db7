// Stores: the real files, written and read back, and files in memory, with failures by number.
use std::test::Fail;
use std::{fs, process};
use tcc_world::{DiskStore, MapStore, Store, StoreError};

#[test]
fn writes_and_reads_back(rt: HostRuntime) -> Result<(), Fail> {
    let mut store = DiskStore::new(rt, rt.alloc());
    let name = format!(in rt.alloc(); "/tmp/tcc_world_{}", process::id(rt.process()))?;
    store.write(rt.alloc(), name.as_str(), b"two\nlines\n")?;
    assert_eq!(rt;
        store.read(rt.alloc(), name.as_str())?.as_slice(),
        b"two\nlines\n".as_slice()
    );
    fs::remove_file(&rt, name.as_str())?;
    let missing = store.read(rt.alloc(), name.as_str());
    assert!(rt; matches!(missing, Err(StoreError::Failed)));
    let nowhere = store.write(rt.alloc(), "/tmp/tcc_world_no_folder/file", b"x");
    assert!(rt; matches!(nowhere, Err(StoreError::Failed)));
    Ok(())
}

#[derive(Clone, Copy)]
enum Call {
    Set(&'static [u8]),
    Read(Option<&'static [u8]>),
    Write(&'static [u8], bool),
}

// The reads and writes are numbered from 0, and those with the numbers 2 and 5 fail.
#[test]
fn fails_by_number_and_where_nothing_is_held(rt: HostRuntime) -> Result<(), Fail> {
    let mut store = MapStore::new(rt.alloc(), vec![in rt.alloc(); 2, 5]?);
    let calls = [
        ("a", Call::Set(b"one")),
        ("a", Call::Read(Some(b"one"))),
        ("b", Call::Read(None)),
        ("a", Call::Read(None)),
        ("b", Call::Write(b"two", true)),
        ("b", Call::Read(Some(b"two"))),
        ("a", Call::Write(b"three", false)),
        ("a", Call::Read(Some(b"one"))),
        ("a", Call::Set(b"")),
        ("a", Call::Read(Some(b""))),
        ("b", Call::Read(Some(b"two"))),
    ];
    for (name, call) in &calls {
        match call {
            Call::Set(bytes) => store.set(name, bytes)?,
            Call::Read(want) => {
                let got = store.read(rt.alloc(), name);
                match want {
                    Some(bytes) => assert_eq!(rt; got?.as_slice(), *bytes),
                    None => assert!(rt; matches!(got, Err(StoreError::Failed)))
                }
            }
            Call::Write(bytes, want) => {
                let got = store.write(rt.alloc(), name, bytes);
                assert_eq!(rt; got.is_ok(), *want);
            }
        }
    }
    assert_eq!(rt; store.get("c"), None);
    Ok(())
}
