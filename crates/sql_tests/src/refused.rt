//! Files that can't be opened.
use crate::files::remove;
use keeper_sql::SqlKeeper;
use std::fs;
use std::test::Fail;
use tao_keeper::KeepFail;

fn is_refused(rt: &HostRuntime, path: &str) -> bool {
    match SqlKeeper::open_file(rt, path) {
        Ok(keepers) => {
            keepers.close();
            false
        }
        Err(KeepFail::Failed) => true,
        Err(KeepFail::OutOfMemory) => false,
    }
}

/// What is no database, and what can't be written.
#[test]
fn what_cannot_be_opened_is_refused(rt: HostRuntime) -> Result<(), Fail> {
    let text = "text.test.db";
    fs::write(
        &rt,
        text,
        "SQLite is what this file isn't, however long it may be.\n",
    )?;
    for path in [text, "no/such/folder.db", ".", "/proc/version", ""] {
        assert!(rt; is_refused(&rt, path), "{path}");
    }
    remove(&rt, text)
}
