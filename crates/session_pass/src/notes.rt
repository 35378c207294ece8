//! What was seen of each shard's log.
ghost use Rattle.std.specs.Prelude.{◌≡◌, ◌<◌, IfOk, Some, length, slice_get};
ghost use Rattle.session_pass.specs.Passes.{IsNoteOf, MeetsNote, after_meeting};

use shard_log::Note;
use tao_base::OutOfMemory;

/// Meets a note of the shard's log. Takes no memory.
pub(crate) fn meet(notes: &mut [Note], shard: u16, note: Note)
    requires { IsNoteOf shard note notes.old }
    ensures met { notes.new ≡ after_meeting shard note notes.old }
    ensures meets { MeetsNote shard note notes.old }
{
    let own = &mut notes[usize::from(shard)];
    own.meet(note);
}

/// A second note of the shard's log.
pub(crate) fn split(notes: &mut [Note], shard: u16) -> Result<Note, OutOfMemory>
    requires { shard < length notes.old }
    ensures same { notes.new ≡ notes.old }
    ensures view { IfOk result (λ note. slice_get notes.old shard ≡ Some note) }
{
    let own = &mut notes[usize::from(shard)];
    own.split()
}
