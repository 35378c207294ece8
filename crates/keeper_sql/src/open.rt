//! Making a keeper. Neither call hands back a keeper that could count a fault, so what they fail for stands on the tests.
use crate::columns::fail_of;
use crate::keeper::SqlKeeper;
use crate::rows::{Database, Tables};
use crate::schema::make_tables;
use sqlite::Connection;
use std::alloc::Global;
use tao_keeper::KeepFail;

impl SqlKeeper {
    /// A keeper of stores that nothing was written to, in memory.
    pub fn open_memory(alloc: Global) -> Result<SqlKeeper, KeepFail> {
        let database = Database::Memory(Connection::open_in_memory(alloc)?);
        let mut tables = Tables::of(alloc, database);
        make_tables(&mut tables)?;
        Ok(SqlKeeper::over(alloc, tables))
    }

    /// A keeper of the tables in a file, which is made where it isn't there. `Failed` where the file can't be opened, is held
    /// by another, or is no database that tables can be kept in. Reads the whole file.
    pub fn open_file(rt: &HostRuntime, path: &str) -> Result<SqlKeeper, KeepFail> {
        let database = match Connection::open(rt, path) {
            Ok(conn) => Database::File(conn),
            Err(error) => return Err(fail_of(error)),
        };
        let mut tables = Tables::of(rt.alloc(), database);
        make_tables(&mut tables)?;
        Ok(SqlKeeper::over(rt.alloc(), tables))
    }
}
