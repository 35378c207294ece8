//! `CountedNote`, a note that knows how much it has seen.
ghost use Rattle.std.specs.Prelude.{◌≡◌, ◌≤◌, ◌+◌, IfOk, IsTrue, length, if◌then◌else◌};
ghost use Rattle.shard_log.specs.View.{Grows, as_note, most_entries};
ghost use Rattle.shard_tables.specs.declared.store.StoreRole.TheVariants.{Master};

use shard_log::Note;
use shard_tables::StoreNode;
use std::marker::Model;
use tao_base::OutOfMemory;

/// A note of a log, and how many entries it has seen of it. Contracts see it as the note.
#[derive(Drop)]
pub struct CountedNote {
    note: Note,
    count: u64,
}

impl Model for CountedNote {
    ghost use Rattle.std.specs.Prelude.{◌≡◌, length};
    ghost use Rattle.shard_log.specs.View.{View};

    ghost Value = { View };

    ghost view = { λ c. c.note };

    ghost invariant = { λ c. c.count ≡ length c.note.entries };
}

impl CountedNote {
    /// A note that has seen so many entries.
    pub fn of(note: Note, count: u64) -> CountedNote
        requires { count ≡ length note.entries }
        ensures { result ≡ note }
    {
        CountedNote { note, count }
    }

    /// How many entries it has seen.
    pub fn count(&self) -> u64
        ensures { result ≡ length self.now.entries }
    {
        self.count
    }

    /// A second note that has seen the same.
    pub fn split(&mut self) -> Result<CountedNote, OutOfMemory>
        ensures same { self.new ≡ self.old }
        ensures second { IfOk result (λ other. other ≡ self.old) }
    {
        let note = self.note.split()?;
        let count = self.count;
        Ok(CountedNote { note, count })
    }

    /// The note, without its count.
    pub fn into_note(self) -> Note
        ensures { result ≡ self }
    {
        self.note
    }

    /// Whether it has seen all that another note of the log has.
    pub fn has_seen(&mut self, other: CountedNote) -> Result<bool, OutOfMemory>
        requires one_log { self.old.log ≡ other.log }
        ensures same { self.new ≡ self.old }
        ensures seen { IfOk result (λ seen. IsTrue seen → Grows other self.old) }
    {
        let seen = other.count <= self.count;
        let own = self.note.split()?;
        let mut both = other.note;
        both.meet(own);
        Ok(seen)
    }

    /// A note of a master's log that sees the whole of it, and what the note had seen before.
    pub fn whole(store: &mut StoreNode, note: Note) -> Result<CountedNote, OutOfMemory>
        requires master { store.old.role ≡ Master }
        requires one_log { store.old.view.log ≡ note.log }
        ensures same { store.new ≡ store.old }
        ensures whole { IfOk result (λ counted. counted.entries ≡ store.old.view.entries) }
        ensures grows { IfOk result (Grows note) }
        ensures few { IfOk result (λ counted. length counted.entries ≤ most_entries) }
    {
        let mut note = note;
        store.meet(&mut note)?;
        let count = note.look();
        store.meet(&mut note)?;
        Ok(CountedNote { note, count })
    }

    /// The note that has seen all of a master's log, which gained an entry since this note saw the whole of it, or none. Takes no memory.
    pub(crate) fn anew(self, store: &mut StoreNode, gained: bool) -> CountedNote
        requires master { store.old.role ≡ Master }
        requires one_log { store.old.view.log ≡ self.log }
        requires gained { length store.old.view.entries ≡ length self.entries + (if gained then 1 else 0) }
        requires few { length self.entries ≤ most_entries }
        ensures same { store.new ≡ store.old }
        ensures whole { result ≡ as_note store.old.view }
    {
        let CountedNote { note, count } = self;
        let note = store.renew(note);
        CountedNote {
            note,
            count: count + u64::from(gained),
        }
    }
}
