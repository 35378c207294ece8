//! One session counts more lists than a follower may ask for at once: each ask ends.
use crate::clients::Client;
use crate::playing::HOMES;
use cluster_plays::{Ask, ListOf, Steady};
use shared_stores::Sharing;
use std::alloc::Global;
use std::sync::Wait;

/// What is said to the count of an empty list that is kept.
const KEPT: &str =
    "{\"count\":0,\"hops\":2,\"kept\":true,\"ok\":\"assoc_count\",\"store\":true,\"version\":0}";

/// Counts the lists of the first ids, so many. How many counts were kept.
fn count_kept<J: Sharing, R: Wait>(
    rt: &R,
    alloc: Global,
    cluster: &Steady<'_, J>,
    client: &mut Client<J>,
    lists: u64,
) -> Option<u64> {
    let mut kept = 0_u64;
    for id in 0..lists {
        let ask = Ask::Count(ListOf(id.saturating_add(1), "likes"));
        let said = client.told(rt, alloc, cluster, ask)?;
        kept = kept.saturating_add(u64::from(said.as_str() == KEPT));
    }
    Some(kept)
}

/// Counts the lists of the first ids, so many, by one session, and says how many counts were kept.
pub(crate) fn counts_said<J: Sharing, R: Wait>(
    rt: &R,
    alloc: Global,
    cluster: &Steady<'_, J>,
    lists: u64,
) -> Option<String> {
    let mut client = Client::open(rt, cluster, 1, HOMES[0])?;
    let kept = count_kept(rt, alloc, cluster, &mut client, lists);
    drop(client);
    format!(in alloc; "{}", kept?).ok()
}
