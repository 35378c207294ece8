//! The locks of two stores.
use crate::nodes::LockedNodes;
use core_model::store_place;
use shared_nodes::shared_stores::{SharedStore, Sharing};
use std::sync::{Mutex, MutexGuard, Wait};
use tao_base::StoreName;
use tao_keeper::Keeper;

/// Takes two locks, the first one of them first where that is said. The guards come in the order of the locks that are given.
fn lock_both<'m, T, R: Wait>(
    rt: &R,
    one: &'m Mutex<T>,
    two: &'m Mutex<T>,
    one_first: bool,
) -> (MutexGuard<'m, T>, MutexGuard<'m, T>) {
    if one_first {
        let one = one.lock(rt);
        let two = two.lock(rt);
        (one, two)
    } else {
        let two = two.lock(rt);
        let one = one.lock(rt);
        (one, two)
    }
}

impl<'c, K: Keeper, J: Sharing> LockedNodes<'c, K, J> {
    /// Two stores under their locks, of which that of the lower place is taken first. None where both names are of one place, or one is of no store.
    pub fn lock_stores<R: Wait>(
        &self,
        rt: &R,
        one: StoreName,
        two: StoreName,
    ) -> Option<
        (
            MutexGuard<'_, SharedStore<K, J>>,
            MutexGuard<'_, SharedStore<K, J>>,
        ),
    > {
        let (first, second) = (store_place(self.config, one), store_place(self.config, two));
        if first == second {
            return None;
        }
        let Some(one) = self.store(one) else {
            return None;
        };
        let Some(two) = self.store(two) else {
            return None;
        };
        Some(lock_both(rt, one, two, first < second))
    }
}
