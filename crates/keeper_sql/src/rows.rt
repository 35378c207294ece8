//! The tables, in memory or in a file, and single statements over them, of which each has a fixed text.
ghost use Rattle.std.specs.Prelude.{◌≡◌, IsNone};

use crate::ahead::Ahead;
use crate::columns::fail_of;
use sqlite::types::ValueRef;
use sqlite::{Alter, Connection, Error, File, FileStore, MemStore, Row, Transaction};
use std::alloc::Global;
use tao_base::StoreName;
use tao_keeper::KeepFail;

/// The connection to the tables.
#[derive(Drop)]
pub(crate) enum Database {
    Memory(Connection<MemStore>),
    File(Connection<FileStore<File>>),
}

/// The tables, with rows of a log that were read ahead.
#[derive(Drop)]
pub(crate) struct Tables {
    database: Database,
    pub ahead: Ahead,
}

/// A store's name as it stands in each row.
pub(crate) fn place(at: StoreName) -> (i64, i64) {
    (i64::from(at.region), i64::from(at.shard))
}

/// What a statement is asked for, over either store: so that one function alone names both, which is what is dear to prove.
trait Asked {
    type Told;

    fn ask<S: Alter>(
        conn: &mut Connection<S>,
        sql: &str,
        params: &[ValueRef<'_>],
    ) -> Result<Self::Told, KeepFail>;
}

/// The first row of an answer, where it has one.
struct First;

/// All rows of an answer.
struct All;

/// A statement that gives no rows.
struct Nothing;

/// Whether the tables have the columns that a query names.
struct HasColumns;

impl Asked for First {
    type Told = Option<Row>;

    fn ask<S: Alter>(
        conn: &mut Connection<S>,
        sql: &str,
        params: &[ValueRef<'_>],
    ) -> Result<Option<Row>, KeepFail> {
        match conn.query_row(sql, params) {
            Ok(row) => Ok(Some(row)),
            Err(Error::QueryReturnedNoRows) => Ok(None),
            Err(error) => Err(fail_of(error)),
        }
    }
}

impl Asked for All {
    type Told = Vec<Row>;

    fn ask<S: Alter>(
        conn: &mut Connection<S>,
        sql: &str,
        params: &[ValueRef<'_>],
    ) -> Result<Vec<Row>, KeepFail> {
        conn.query_all(sql, params).map_err(fail_of)
    }
}

impl Asked for Nothing {
    type Told = ();

    fn ask<S: Alter>(
        conn: &mut Connection<S>,
        sql: &str,
        params: &[ValueRef<'_>],
    ) -> Result<(), KeepFail> {
        match conn.execute(sql, params) {
            Ok(_) => Ok(()),
            Err(error) => Err(fail_of(error)),
        }
    }
}

impl Asked for HasColumns {
    type Told = bool;

    fn ask<S: Alter>(
        conn: &mut Connection<S>,
        sql: &str,
        params: &[ValueRef<'_>],
    ) -> Result<bool, KeepFail> {
        match conn.query_row(sql, params) {
            Ok(_) | Err(Error::QueryReturnedNoRows) => Ok(true),
            Err(Error::SqlInputError(_)) => Ok(false),
            Err(error) => Err(fail_of(error)),
        }
    }
}

/// What is done in one transaction, over either store: all of its steps, or where one fails none.
pub(crate) trait AtOnce {
    fn steps<S: Alter>(&self, tx: &mut Transaction<'_, S>) -> Result<(), KeepFail>;
}

/// One statement of a transaction.
pub(crate) fn step<S: Alter>(
    tx: &mut Transaction<'_, S>,
    sql: &str,
    params: &[ValueRef<'_>],
) -> Result<(), KeepFail> {
    match tx.execute(sql, params) {
        Ok(_) => Ok(()),
        Err(error) => Err(fail_of(error)),
    }
}

/// Begins a transaction, takes the steps, and ends it. Where a step fails it is rolled back.
fn transact<S: Alter, W: AtOnce>(conn: &mut Connection<S>, work: &W) -> Result<(), KeepFail> {
    if !conn.is_autocommit() {
        return Err(KeepFail::Failed);
    }
    let mut tx = conn.transaction();
    work.steps(&mut tx)?;
    match tx.commit() {
        Ok(()) => Ok(()),
        Err(error) => Err(fail_of(error)),
    }
}

impl Tables {
    /// The tables behind a connection, of which nothing was read.
    pub(crate) fn of(alloc: Global, database: Database) -> Tables
        ensures { IsNone result.ahead.next }
    {
        Tables {
            database,
            ahead: Ahead::new(alloc),
        }
    }

    /// What a statement is asked for. What was read ahead stays.
    fn ask<A: Asked>(&mut self, sql: &str, params: &[ValueRef<'_>]) -> Result<A::Told, KeepFail>
        ensures { self.new.ahead.next ≡ self.old.ahead.next }
    {
        match &mut self.database {
            Database::Memory(conn) => A::ask(conn, sql, params),
            Database::File(conn) => A::ask(conn, sql, params),
        }
    }

    /// The first row of an answer, where it has one.
    pub(crate) fn first(
        &mut self,
        sql: &str,
        params: &[ValueRef<'_>],
    ) -> Result<Option<Row>, KeepFail> {
        self.ask::<First>(sql, params)
    }

    /// All rows of an answer.
    pub(crate) fn all(&mut self, sql: &str, params: &[ValueRef<'_>]) -> Result<Vec<Row>, KeepFail> {
        self.ask::<All>(sql, params)
    }

    /// A statement that gives no rows. What was read ahead is forgotten, whether it is done or not.
    pub(crate) fn run(&mut self, sql: &str, params: &[ValueRef<'_>]) -> Result<(), KeepFail>
        ensures { IsNone self.new.ahead.next }
    {
        self.ahead.forget();
        self.ask::<Nothing>(sql, params)
    }

    /// Whether the tables have the columns that a query names.
    pub(crate) fn have_columns(&mut self, sql: &str) -> Result<bool, KeepFail> {
        self.ask::<HasColumns>(sql, &[])
    }

    /// Steps in one transaction. What was read ahead is forgotten, whether they are done or not.
    pub(crate) fn at_once<W: AtOnce>(&mut self, work: &W) -> Result<(), KeepFail>
        ensures { IsNone self.new.ahead.next }
    {
        self.ahead.forget();
        match &mut self.database {
            Database::Memory(conn) => transact(conn, work),
            Database::File(conn) => transact(conn, work),
        }
    }
}
