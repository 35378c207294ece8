//! The columns of a row, and what a statement fails with.
use sqlite::{Error, ErrorCode, Row};
use tao_base::Id;
use tao_keeper::KeepFail;

/// Out of memory is told apart; whatever else a statement is refused for is a fault.
pub(crate) fn fail_of(error: Error) -> KeepFail {
    match error {
        Error::SqliteFailure(ErrorCode::OutOfMemory) => KeepFail::OutOfMemory,
        _ => KeepFail::Failed,
    }
}

/// A number of 64 bits.
pub(crate) fn number(row: &Row, at: usize) -> Result<u64, KeepFail> {
    match row.get::<i64>(at) {
        Ok(bits) => Ok(bits.cast_unsigned()),
        Err(error) => Err(fail_of(error)),
    }
}

/// A number of 32 bits.
pub(crate) fn word(row: &Row, at: usize) -> Result<u32, KeepFail> {
    u32::try_from(number(row, at)?).map_err(|_| KeepFail::Failed)
}

/// A number of 16 bits.
pub(crate) fn short(row: &Row, at: usize) -> Result<u16, KeepFail> {
    u16::try_from(number(row, at)?).map_err(|_| KeepFail::Failed)
}

/// An id.
pub(crate) fn id(row: &Row, at: usize) -> Result<Id, KeepFail> {
    Id::read(number(row, at)?).ok_or(KeepFail::Failed)
}

/// A copy of bytes.
pub(crate) fn bytes(row: &Row, at: usize) -> Result<Vec<u8>, KeepFail> {
    match row.get::<Vec<u8>>(at) {
        Ok(bytes) => Ok(bytes),
        Err(error) => Err(fail_of(error)),
    }
}

/// A copy of bytes, where there are any.
pub(crate) fn maybe_bytes(row: &Row, at: usize) -> Result<Option<Vec<u8>>, KeepFail> {
    match row.get::<Option<Vec<u8>>>(at) {
        Ok(bytes) => Ok(bytes),
        Err(error) => Err(fail_of(error)),
    }
}
