//! Entries of a log by their positions.
ghost use Rattle.std.specs.Prelude.{◌≡◌, option_copied};
ghost use Rattle.graph_model.specs.Log.{entry_at};

use tao_base::Entry;

/// The entry at a position, where there is one. Reads no other.
pub fn entry_of(entries: &[Entry], position: u64) -> Option<&Entry>
    ensures { option_copied result ≡ entry_at entries.now position }
{
    let place = position.checked_sub(1)?;
    entries.get(place as usize)
}
