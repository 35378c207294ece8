//! How often keepers failed.
ghost use Rattle.std.specs.Prelude.{◌≡◌, ◌↔◌, IsTrue};
ghost use Rattle.counts.specs.Count.{Rose};
ghost use Rattle.keepers.specs.Shown.{total};

use tao_keeper::Keeper;

/// How often the keepers failed, added up. As any count the sum stands still at its last value.
pub fn faults_of<K: Keeper>(keepers: &[K]) -> u64
    ensures { result ≡ total (λ keeper. (K.state keeper).faults) 0 keepers.now }
{
    let mut faults = 0u64;
    for keeper in keepers {
        faults = faults.saturating_add(keeper.faults());
    }
    faults
}

/// Whether a count rose. One that stands at its last value is as good as risen.
pub fn rose(before: u64, now: u64) -> bool
    ensures { IsTrue result ↔ Rose before now }
{
    before < now || (before == now && now == u64::MAX)
}
