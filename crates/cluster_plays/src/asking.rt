//! What a session asks.
use requests::{Call, EdgeName, ListName, QueryText, ReadCall, Request, WriteCall, WriteText};
use std::alloc::Global;
use tao_base::{Data, Id, Text};

/// The list of the edges of a type that go out from an id.
#[derive(Clone, Copy)]
pub struct ListOf(pub u64, pub &'static str);

/// What a session asks.
#[derive(Clone, Copy)]
pub enum Ask {
    /// Adds an edge without data to the list: its other end and its time, and the number of the session's write.
    Add(ListOf, u64, u32, u64),
    /// The first ten edges of the list.
    Range(ListOf),
    /// The same, as a critical read.
    CriticalRange(ListOf),
    /// How many edges the list has.
    Count(ListOf),
    /// The same, as a critical read.
    CriticalCount(ListOf),
}

fn list_name(alloc: Global, list: ListOf) -> Option<ListName> {
    Some(ListName {
        id1: Id::read(list.0)?,
        atype: Text::copy_of(alloc, list.1).ok()?,
    })
}

fn read_of(session: u32, query: QueryText, critical: bool) -> Request {
    Request::Call(Call::Read(ReadCall {
        session,
        query,
        critical,
    }))
}

fn range(alloc: Global, session: u32, list: ListOf, critical: bool) -> Option<Request> {
    let list = list_name(alloc, list)?;
    let query = QueryText::AssocRange {
        list,
        pos: 0,
        limit: 10,
    };
    Some(read_of(session, query, critical))
}

fn count(alloc: Global, session: u32, list: ListOf, critical: bool) -> Option<Request> {
    let list = list_name(alloc, list)?;
    Some(read_of(session, QueryText::AssocCount { list }, critical))
}

fn add(
    alloc: Global,
    session: u32,
    list: ListOf,
    id2: u64,
    time: u32,
    seq: u64,
) -> Option<Request> {
    let id2 = Id::read(id2)?;
    let list = list_name(alloc, list)?;
    Some(Request::Call(Call::Write(WriteCall {
        session,
        seq,
        write: WriteText::AssocAdd {
            edge: EdgeName { list, id2 },
            time,
            payload: Data::empty(alloc),
        },
    })))
}

/// The request of a session. None for want of memory, or where a number is no id.
pub fn request_of(alloc: Global, session: u32, ask: Ask) -> Option<Request> {
    match ask {
        Ask::Add(list, id2, time, seq) => add(alloc, session, list, id2, time, seq),
        Ask::Range(list) => range(alloc, session, list, false),
        Ask::CriticalRange(list) => range(alloc, session, list, true),
        Ask::Count(list) => count(alloc, session, list, false),
        Ask::CriticalCount(list) => count(alloc, session, list, true),
    }
}
