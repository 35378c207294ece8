//! The refusals of a connection.
ghost use Rattle.std.specs.Prelude.{◌≡◌, [], IfOk, IfErr};
ghost use Rattle.cluster_talks.specs.TalkSteps.{SaysUnread};

use replies::{LineRefused, Refusal, Reply, SessionRefused};
use std::alloc::{AllocError, Global};
use talk_lines::LineRefusal;
use tao_base::Text;
use words::Word;

/// The word is none that is served here.
pub(crate) fn not_here(word: Word) -> Reply
    ensures { result ≡ Reply.Refused (Refusal.Line (LineRefused.NotHere word)) }
{
    Reply::Refused(Refusal::Line(LineRefused::NotHere { word }))
}

/// The connection has no session of that number.
pub(crate) fn no_session(session: u32) -> Reply
    ensures { result ≡ Reply.Refused (Refusal.Session (SessionRefused.NoSession session)) }
{
    Reply::Refused(Refusal::Session(SessionRefused::NoSession { session }))
}

/// The connection has its session already.
pub(crate) fn session_there(session: u32) -> Reply
    ensures { result ≡ Reply.Refused (Refusal.Session (SessionRefused.SessionThere session)) }
{
    Reply::Refused(Refusal::Session(SessionRefused::SessionThere { session }))
}

/// There was no memory.
pub(crate) fn no_memory() -> Reply
    ensures { result ≡ Reply.Refused (Refusal.Memory 0) }
{
    Reply::Refused(Refusal::Memory { position: 0 })
}

/// The refusal of a line that asks nothing. The one error is out of memory, which the reading of the line found.
pub(crate) fn unread(refused: LineRefusal) -> Result<Reply, AllocError>
    ensures { SaysUnread refused result }
{
    match refused {
        LineRefusal::BadLine { field } => {
            Ok(Reply::Refused(Refusal::Line(LineRefused::BadLine { field })))
        }
        LineRefusal::TooLarge { bytes, pairs } => {
            Ok(Reply::Refused(Refusal::Line(LineRefused::TooLarge { bytes, pairs })))
        }
        LineRefusal::OutOfMemory => Err(AllocError),
    }
}

/// The refusal of a line that is too long.
pub(crate) fn too_long(alloc: Global) -> Result<Reply, AllocError>
    ensures { IfOk result (λ reply. reply ≡ Reply.Refused (Refusal.Line (LineRefused.BadLine []))) }
{
    let field = Text::copy_of(alloc, "")?;
    Ok(Reply::Refused(Refusal::Line(LineRefused::BadLine { field })))
}
