//! What the entries of a log do at a key.
ghost use Rattle.std.specs.Prelude.{◌≡◌, ◌∷◌, ◌++◌, [], IfOk, OnOk, map};
ghost use Rattle.tao_base.specs.Keys.{same_key};
ghost use Rattle.graph_model.specs.Log.{changes_of, touches_key, version};

use std::alloc::Global;
use tao_base::{Change, Entry, Key, OutOfMemory};

/// The version of a key: how many of the entries touch it. Reads all entries, and takes no memory.
pub fn version_of(entries: &[Entry], key: &Key) -> u64
    ensures { result ≡ version entries.now key.now }
{
    entries
        .iter()
        .filter(|entry| is_touched(entry, key))
        .count() as u64
}

/// What the entries do at a key, the oldest change first. Reads all entries, and refers to the
/// changes where they stand.
pub fn changes_at<'a>(
    alloc: Global,
    entries: &'a [Entry],
    key: &Key,
) -> Result<Vec<&'a Change>, OutOfMemory>
    ensures { IfOk result (λ changes. map (λ c. c.now) changes.items ≡ changes_of entries.now key.now) }
{
    let mut changes = Vec::new(alloc);
    for entry in entries {
        add_changes(&mut changes, entry, key)?;
    }
    Ok(changes)
}

fn add_changes<'a>(
    changes: &mut Vec<&'a Change>,
    entry: &'a Entry,
    key: &Key,
) -> Result<(), OutOfMemory>
    ensures { OnOk result (map (λ c. c.now) changes.new.items ≡ map (λ c. c.now) changes.old.items ++ changes_of (entry.now ∷ []) key.now) }
{
    for touch in entry.touches.as_slice() {
        if is_same(key, &touch.key) {
            changes.push(&touch.change)?;
        }
    }
    Ok(())
}

fn is_touched(entry: &Entry, key: &Key) -> bool
    ensures { result ≡ touches_key key.now entry.now }
{
    entry
        .touches
        .as_slice()
        .iter()
        .any(|touch| is_same(key, &touch.key))
}

fn is_same(key: &Key, other: &Key) -> bool
    ensures { result ≡ same_key key.now other.now }
{
    key == other
}
