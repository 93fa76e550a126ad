use crate::SqlKeeper;
use cds_keep::{Keeper, LoadError};
use sqlite::Connection;
use std::fs;
use std::test::Fail;

// What is put is found by the next load, in its order, also of a store whose file was there.
#[test]
fn records_are_found_again(rt: HostRuntime) -> Result<(), Fail> {
    let _ = fs::remove_dir_all(&rt, "cds_keep_sql_found");
    fs::create_dir(&rt, "cds_keep_sql_found")?;
    let path = "cds_keep_sql_found/a.db";
    let mut keeper = SqlKeeper::new(&rt);
    assert_eq!(rt; keeper.load(path)?.len(), 0);
    assert_eq!(rt; keeper.put(b"one"), Ok(()));
    assert_eq!(rt; keeper.put(b""), Ok(()));
    assert_eq!(rt; keeper.put(b"\x00\xff"), Ok(()));
    keeper.close();
    let mut again = SqlKeeper::new(&rt);
    let records = again.load(path)?;
    assert_eq!(rt; records.len(), 3);
    assert_eq!(rt; records.get(0), b"one".as_slice());
    assert_eq!(rt; records.get(1), b"".as_slice());
    assert_eq!(rt; records.get(2), b"\x00\xff".as_slice());
    again.close();
    fs::remove_dir_all(&rt, "cds_keep_sql_found")?;
    Ok(())
}

// A file whose numbers aren't places, or with a body that is no BLOB, is refused, and so is one that can't be made.
#[test]
fn what_is_no_store_is_refused(rt: HostRuntime) -> Result<(), Fail> {
    let _ = fs::remove_dir_all(&rt, "cds_keep_sql_refused");
    fs::create_dir(&rt, "cds_keep_sql_refused")?;
    let tables = [
        (
            "cds_keep_sql_refused/a.db",
            "CREATE TABLE records (number INTEGER PRIMARY KEY, body BLOB NOT NULL); INSERT INTO records VALUES (2, x'00')",
        ),
        (
            "cds_keep_sql_refused/b.db",
            "CREATE TABLE records (number INTEGER PRIMARY KEY, body BLOB NOT NULL); INSERT INTO records VALUES (1, 'text')",
        ),
        (
            "cds_keep_sql_refused/c.db",
            "CREATE TABLE records (number INTEGER PRIMARY KEY)",
        ),
    ];
    let mut keeper = SqlKeeper::new(&rt);
    for (path, statements) in tables {
        let mut connection = Connection::open(&rt, path)?;
        connection.execute_batch(statements)?;
        connection.close()?;
        assert!(rt;
            matches!(keeper.load(path), Err(LoadError::Failed)),
            "{path}"
        );
    }
    assert!(rt;
        matches!(
            keeper.load("cds_keep_sql_refused/none/a.db"),
            Err(LoadError::Failed)
        )
    );
    fs::remove_dir_all(&rt, "cds_keep_sql_refused")?;
    Ok(())
}
