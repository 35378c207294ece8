//! What derived and written impls compute, for callers to cite.
ghost use Rattle.std.specs.Ordering.{nat_cmp};
ghost use Rattle.std.specs.Prelude.{◌≡◌, ◌==◌};
ghost use Rattle.tao_base.specs.Keys.{key_cmp, same_key};
ghost use Rattle.tao_base.specs.Laws.{CopiesAreEqual};
ghost use Rattle.tao_base.specs.Stamps.{stamp_cmp};
ghost use Rattle.tao_base.specs.declared.edge.Stamp.{Stamp};
ghost use Rattle.tao_base.specs.declared.id.Id.{Id};
ghost use Rattle.tao_base.specs.declared.id.Key.{Key};

use super::data::{Data, Pair};
use super::edge::{Edge, EdgeState, Edges, Object, Stamp};
use super::entry::{Change, Entry, Touch, Touches};
use super::id::{Id, Key};
use super::query::{Answer, IdSet, Query};
use super::text::{Bytes, Text};
use super::write::Write;

/// A copy equals its source, of each type that is copied by `clone`.
pub fn copies_are_equal()
    ensures text { CopiesAreEqual ⟦<Text as Clone>⟧.is_clone }
    ensures bytes { CopiesAreEqual ⟦<Bytes as Clone>⟧.is_clone }
    ensures pair { CopiesAreEqual ⟦<Pair as Clone>⟧.is_clone }
    ensures payload { CopiesAreEqual ⟦<Data as Clone>⟧.is_clone }
    ensures object { CopiesAreEqual ⟦<Object as Clone>⟧.is_clone }
    ensures edge { CopiesAreEqual ⟦<Edge as Clone>⟧.is_clone }
    ensures state { CopiesAreEqual ⟦<EdgeState as Clone>⟧.is_clone }
    ensures edges { CopiesAreEqual ⟦<Edges as Clone>⟧.is_clone }
    ensures change { CopiesAreEqual ⟦<Change as Clone>⟧.is_clone }
    ensures touch { CopiesAreEqual ⟦<Touch as Clone>⟧.is_clone }
    ensures touches { CopiesAreEqual ⟦<Touches as Clone>⟧.is_clone }
    ensures entry { CopiesAreEqual ⟦<Entry as Clone>⟧.is_clone }
    ensures ids { CopiesAreEqual ⟦<IdSet as Clone>⟧.is_clone }
    ensures query { CopiesAreEqual ⟦<Query as Clone>⟧.is_clone }
    ensures answer { CopiesAreEqual ⟦<Answer as Clone>⟧.is_clone }
    ensures write { CopiesAreEqual ⟦<Write as Clone>⟧.is_clone }
{}

/// Ids are compared by number, keys by their kind, id and type, stamps by number, then shard.
pub fn comparisons_are_by_value()
    ensures same_id { (x y : Id) → ⟦<Id as PartialEq>⟧.eq x y ≡ (x == y) }
    ensures id_order { (x y : Id) → ⟦<Id as Ord>⟧.cmp x y ≡ nat_cmp x y }
    ensures same_key { (x y : Key) → ⟦<Key as PartialEq>⟧.eq x y ≡ same_key x y }
    ensures key_order { (x y : Key) → ⟦<Key as Ord>⟧.cmp x y ≡ key_cmp x y }
    ensures stamp_order { (x y : Stamp) → ⟦<Stamp as Ord>⟧.cmp x y ≡ stamp_cmp x y }
{}
