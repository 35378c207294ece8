//! The configurations that plays begin with.

/// One region, one tier and one shard.
pub const SMALL: &str =
    "{\"assocs\":[{\"name\":\"likes\"}],\"objects\":[\"user\"],\"regions\":[{\"name\":\"east\",\"tiers\":[{\"name\":\"t1\"}]}],\"shards\":1}";

/// Two regions, the first of which is the master of both shards.
pub const WIDE: &str =
    "{\"assocs\":[{\"name\":\"likes\"},{\"inverse\":\"friend\",\"name\":\"friend\"},{\"inverse\":\"followed_by\",\"name\":\"follows\"},{\"inverse\":\"follows\",\"name\":\"followed_by\"}],\"objects\":[\"user\"],\"regions\":[{\"leaders\":2,\"name\":\"east\",\"tiers\":[{\"name\":\"t1\"},{\"name\":\"t2\"}]},{\"name\":\"west\",\"tiers\":[{\"name\":\"t1\"}]}],\"shards\":2}";
