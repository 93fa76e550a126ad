use super::*;
use std::test::Fail;

// How many records a load of this name finds, through the trait alone.
fn found_by<K: Keeper>(keeper: &mut K, store: &str) -> Result<u64, LoadError> {
    let records = keeper.load(store)?;
    Ok(records.len())
}

#[test]
fn a_put_that_fails_is_not_kept_and_works_at_the_next_call(rt: HostRuntime) -> Result<(), Fail> {
    let mut keeper = MapKeeper::new(rt.alloc(), &[3, 6])?;
    assert!(rt; !keeper.is_open());
    assert_eq!(rt; keeper.load("")?.len(), 0);
    assert_eq!(rt; keeper.put(b"one"), Ok(()));
    assert_eq!(rt; keeper.put(b"two"), Err(PutError::Failed));
    assert_eq!(rt; keeper.content().len(), 1);
    assert_eq!(rt; keeper.put(b"two"), Ok(()));
    assert_eq!(rt; keeper.put(b""), Ok(()));
    assert!(rt; matches!(keeper.load("store.db"), Err(LoadError::Failed)));
    assert!(rt; !keeper.is_open());
    for name in ["", "store", "store.db"] {
        let records = keeper.load(name)?;
        assert_eq!(rt; records.len(), 3);
        assert_eq!(rt; records.get(0), b"one".as_slice());
        assert_eq!(rt; records.get(1), b"two".as_slice());
        assert_eq!(rt; records.get(2), b"".as_slice());
    }
    assert!(rt; keeper.is_open());
    Ok(())
}

#[test]
fn a_store_that_cannot_fail_finds_its_records_under_every_name(
    rt: HostRuntime,
) -> Result<(), Fail> {
    let mut keeper = NoFailKeeper::new(rt.alloc());
    let records = keeper.load("first")?;
    assert_eq!(rt; records.len(), 0);
    keeper.put(b"one")?;
    keeper.put(b"one")?;
    assert_eq!(rt; found_by(&mut keeper, "second")?, 2);
    let mut listed = MapKeeper::new(rt.alloc(), &[1])?;
    assert_eq!(rt; found_by(&mut listed, "first"), Err(LoadError::Failed));
    assert_eq!(rt; found_by(&mut listed, "first"), Ok(0));
    Ok(())
}
