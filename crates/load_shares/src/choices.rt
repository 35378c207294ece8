//! What there is to choose among.
ghost use Rattle.std.specs.Prelude.{◌≡◌, ◌≤◌, length};
ghost use Rattle.load_gen.specs.Names.{names_of};
ghost use Rattle.load_shares.specs.Workloads.{HasChoices};

use topology::Config;

/// A configuration has a tier.
fn has_tier(config: &Config)
    ensures { 1 ≤ length (names_of config.now).tiers }
{
    let _ = config.regions.as_slice()[0].tiers.as_slice();
}

/// A configuration has something of each kind to choose among, and a limit to its logs. Takes no memory.
pub fn has_choices(config: &Config)
    ensures { HasChoices config.now }
{
    has_tier(config);
    let _ = config.schema.objects.as_slice();
    let _ = config.schema.assocs.as_slice();
    let _ = (config.shards, config.log_max);
}
