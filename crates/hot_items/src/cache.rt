//! `HotCache`, the answers that a client keeps.
ghost use Rattle.std.specs.Prelude.{◌≡◌, ◌≤◌, Some, IfErr, IfOk, OnErr, OnOk};
ghost use Rattle.std.specs.Map.{lookup};
ghost use Rattle.std.specs.Option.{option_map};
ghost use Rattle.hot_items.specs.Hot.{after_reply, empty_cache, held_as, held_at, hint_of, unchanged_answer, used, with_held};
ghost use Rattle.hot_items.specs.KeyView.{asked};
ghost use Rattle.hot_items.specs.Keys.{asked_of};
ghost use Rattle.lru.specs.LruCache.{lru_cache, put_entries};
ghost use Rattle.hot_items.specs.Replies.{IsRefused, IsStrange, reply_answer, strange_of};

use crate::key::{HotKey, ids_of};
use crate::reply::{Held, Hint, HotRefusal, HotReply};
use lru::LruCache;
use std::alloc::Global;
use std::marker::Model;
use std::num::NonZeroUsize;
use tao_base::{Answer, OutOfMemory, Query};

/// The answers that a client keeps, at most so many, each under its query. Where there would be one more, the one that
/// was taken least recently falls out.
///
/// Each call looks up the query once, by its hash: that takes time in the number of the query's ids.
#[derive(Drop)]
pub struct HotCache {
    alloc: Global,
    items: LruCache<HotKey, Held>,
    // What is looked up. It has room for the ids of each query that is held, so that a look-up takes no memory.
    probe: HotKey,
}

impl Model for HotCache {
    ghost use Rattle.hot_items.specs.Hot.{Hot};

    ghost Value = { Hot };

    ghost use Rattle.hot_items.specs.CacheView.{HasRoom, hot_seen};

    ghost view = { hot_seen };

    ghost invariant = { HasRoom };
}

impl HotCache {
    /// Nothing is held, and at most so many answers will be. The one error is out of memory.
    pub fn make(alloc: Global, items: usize) -> Result<HotCache, OutOfMemory>
        requires some { 1 ≤ items }
        ensures { IfOk result (λ cache. cache ≡ empty_cache items) }
    {
        let Some(most) = NonZeroUsize::new(items) else {
            unreachable!()
        };
        Ok(HotCache {
            alloc,
            items: LruCache::sparse(alloc, most)?,
            probe: HotKey::empty(alloc),
        })
    }

    /// The epoch and version that are held for the query. None exactly where it isn't held. Nothing changes, and it
    /// takes no memory.
    pub fn hint(&mut self, query: &Query) -> Option<Hint>
        ensures hint { result ≡ option_map hint_of (held_at query.now self.old) }
        ensures same { self.new ≡ self.old }
    {
        if !self.probe.set(query) {
            return None;
        }
        held_hint(&self.items, &self.probe)
    }

    /// Takes the reply to the query, and gives its answer. A full one is kept in place of what was held, and stands
    /// first. An unchanged one is answered by what is held, which then stands first.
    ///
    /// It is strange exactly where an unchanged reply names an epoch and version that aren't held for the query. The
    /// other error is out of memory. After an error the cache is as it was.
    pub fn take(&mut self, query: &Query, reply: HotReply) -> Result<Answer, HotRefusal>
        ensures answer { IfOk result (λ answer. reply_answer reply (held_at query.now self.old) ≡ Some answer) }
        ensures refused { IfErr result (IsRefused reply (held_at query.now self.old)) }
        ensures taken { OnOk result (self.new ≡ after_reply query.now reply self.old) }
        ensures err { OnErr result (self.new ≡ self.old) }
    {
        match reply {
            HotReply::Full {
                epoch,
                version,
                answer,
            } => match self.keep(query, Hint { epoch, version }, &answer) {
                Ok(()) => Ok(answer),
                Err(_) => {
                    drop(answer);
                    Err(HotRefusal::OutOfMemory)
                }
            },
            HotReply::Unchanged { epoch, version } => self.repeat(query, Hint { epoch, version }),
        }
    }

    /// Keeps a copy of an answer in place of what was held.
    fn keep(&mut self, query: &Query, hint: Hint, answer: &Answer) -> Result<(), OutOfMemory>
        ensures kept { OnOk result (self.new ≡ with_held query.now (held_as hint answer.now) self.old) }
        ensures err { OnErr result (self.new ≡ self.old) }
    {
        self.probe.make_room(ids_of(query).len())?;
        let (key, held) = entry_of(self.alloc, query, hint, answer)?;
        put_entry(&mut self.items, key, held)
    }

    /// The answer that is held with this hint.
    fn repeat(&mut self, query: &Query, hint: Hint) -> Result<Answer, HotRefusal>
        ensures answer { IfOk result (λ answer. unchanged_answer hint (held_at query.now self.old) ≡ Some answer) }
        ensures refused { IfErr result (IsStrange hint (held_at query.now self.old)) }
        ensures used { OnOk result (self.new ≡ used query.now self.old) }
        ensures err { OnErr result (self.new ≡ self.old) }
    {
        if !self.probe.set(query) {
            return Err(strange(hint));
        }
        match copy_held(&self.items, &self.probe, hint) {
            Ok(answer) => {
                self.items.promote(&self.probe);
                Ok(answer)
            }
            Err(refusal) => Err(refusal),
        }
    }
}

/// What is kept of a query and its answer.
fn entry_of(
    alloc: Global,
    query: &Query,
    hint: Hint,
    answer: &Answer,
) -> Result<(HotKey, Held), OutOfMemory>
    ensures key { IfOk result (λ entry. asked entry.0 ≡ asked_of query.now) }
    ensures held { IfOk result (λ entry. entry.1 ≡ held_as hint answer.now) }
{
    let answer = answer.clone()?;
    match HotKey::of(alloc, query) {
        Ok(key) => Ok((key, Held { hint, answer })),
        Err(_) => {
            drop(answer);
            Err(OutOfMemory)
        }
    }
}

/// Puts what is kept in its place, and lets go of what was there.
fn put_entry(items: &mut LruCache<HotKey, Held>, key: HotKey, held: Held) -> Result<(), OutOfMemory>
    ensures put { OnOk result (items.new ≡ lru_cache (put_entries (⟦<HotKey as PartialEq>⟧.eq) items.old key held) items.old.cap) }
    ensures err { OnErr result (items.new ≡ items.old) }
{
    match items.put(key, held) {
        Ok(old) => {
            drop(old);
            Ok(())
        }
        Err(failed) => {
            drop(failed);
            Err(OutOfMemory)
        }
    }
}

/// The hint of what is held under a key.
fn held_hint(items: &LruCache<HotKey, Held>, key: &HotKey) -> Option<Hint>
    ensures { result ≡ option_map hint_of (lookup (⟦<HotKey as PartialEq>⟧.eq key.now) items.now.entries) }
{
    let held = items.peek(key)?;
    Some(held.hint)
}

/// A copy of the answer under a key, where that has this hint.
fn copy_held(items: &LruCache<HotKey, Held>, key: &HotKey, hint: Hint) -> Result<Answer, HotRefusal>
    ensures answer { IfOk result (λ answer. unchanged_answer hint (lookup (⟦<HotKey as PartialEq>⟧.eq key.now) items.now.entries) ≡ Some answer) }
    ensures refused { IfErr result (IsStrange hint (lookup (⟦<HotKey as PartialEq>⟧.eq key.now) items.now.entries)) }
{
    match items.peek(key) {
        Some(held) => held.answer_for(hint),
        None => Err(strange(hint)),
    }
}

impl Held {
    /// A copy of the answer, where it has this hint.
    fn answer_for(&self, hint: Hint) -> Result<Answer, HotRefusal>
        ensures answer { IfOk result (λ answer. unchanged_answer hint (Some self.now) ≡ Some answer) }
        ensures refused { IfErr result (IsStrange hint (Some self.now)) }
    {
        if self.hint != hint {
            return Err(strange(hint));
        }
        Ok(self.answer.clone()?)
    }
}

fn strange(hint: Hint) -> HotRefusal
    ensures { result ≡ strange_of hint }
{
    HotRefusal::Strange {
        epoch: hint.epoch,
        version: hint.version,
    }
}
