//! Which object an entry puts.
ghost use Rattle.std.specs.Prelude.{◌≡◌, ℕ, List, IsSomeAnd};
ghost use Rattle.write_model.specs.Writes.{FitsWrite};
ghost use Rattle.shard_tables.specs.Added.{first_put, put_by};
ghost use Rattle.tao_base.specs.Ids.{shard_of};
ghost use Rattle.tao_base.specs.declared.data.Pair.{Pair};
ghost use Rattle.tao_base.specs.declared.id.OType.{OType};
ghost use Rattle.tao_base.specs.declared.write.Write.TheVariants.{ObjAdd};

use tao_base::{Change, Entry, Id, Key, Touch};

fn put_by(touch: &Touch) -> Option<Id>
    ensures { result ≡ put_by touch.now.key touch.now.change }
{
    match (&touch.key, &touch.change) {
        (Key::Obj(id), Change::PutObject(_)) => Some(*id),
        (_, _) => None,
    }
}

/// The object that the entry's first touch puts. An entry that fits an object's addition has one, on
/// the shard that the write names: it is the object that was added.
pub fn object_added(entry: &Entry) -> Option<Id>
    ensures object { result ≡ first_put entry.now.touches }
    ensures added { (shard : ℕ) (otype : OType) (payload : List Pair) → FitsWrite entry.now (ObjAdd shard otype payload)
        → IsSomeAnd result (λ id. shard_of id ≡ shard) }
{
    match entry.touches.as_slice() {
        [] => None,
        [first, ..] => put_by(first),
    }
}
