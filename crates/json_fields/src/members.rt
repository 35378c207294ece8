//! The members of an object, in order of their names.
ghost use Rattle.std.specs.Prelude.{◌≡◌, ◌<◌, ◌≤◌, length, option_map, MatchResult, OnOk, bytes_eq};
ghost use Rattle.std.specs.Ordering.{nat_cmp};
ghost use Rattle.std.specs.Cmp.Lexicographic.{slice_cmp};
ghost use Rattle.serde_json.specs.Data.{Data, put};
ghost use Rattle.serde_json.specs.Find.{get_member};
ghost use Rattle.json_fields.specs.Members.{put_found};
ghost use Rattle.json_fields.specs.View.{members_view, view};

use crate::value::{Json, Member};
use std::alloc::AllocError;
use std::cmp::Ordering;

/// The most members of a request that reads, mostly.
const ROOM: usize = 8;

/// The order of two names. Their first bytes mostly tell it.
fn name_order(name: &str, other: &str) -> Ordering
    ensures { result ≡ slice_cmp nat_cmp name.now other.now }
{
    let (name, other) = (name.as_bytes(), other.as_bytes());
    if name.is_empty() || other.is_empty() || name[0] == other[0] {
        name.cmp(other)
    } else {
        name[0].cmp(&other[0])
    }
}

/// Whether two names are the same. Their lengths and first bytes mostly tell it.
pub(crate) fn is_same(name: &str, other: &str) -> bool
    ensures { result ≡ bytes_eq name.now other.now }
{
    let (name, other) = (name.as_bytes(), other.as_bytes());
    if name.is_empty() || name.len() != other.len() || name[0] == other[0] {
        name == other
    } else {
        false
    }
}

/// The value of the member of that name.
pub(crate) fn find<'v, 't>(members: &'v [Member<'t>], name: &str) -> Option<&'v Json<'t>>
    ensures { option_map (λ v. view v.now) result ≡ get_member name.now (members_view members.now) }
{
    for member in members {
        if is_same(name, member.0) {
            return Some(&member.1);
        }
    }
    None
}

/// Room for the members of an object that has none yet: as many as most lines have.
pub(crate) fn make_room(members: &mut Vec<Member<'_>>) -> Result<(), AllocError>
    ensures { OnOk result (members.new.items ≡ members.old.items) }
{
    if members.is_empty() {
        members.reserve(ROOM)
    } else {
        Ok(())
    }
}

/// Where the member of that name stands among members that are in order, or else where it belongs. Compares the names one after another.
fn place_of(members: &[Member<'_>], name: &str) -> Result<usize, usize>
    ensures within { MatchResult result (λ place. place < length members.now) (λ place. place ≤ length members.now) }
    ensures put { (d : Data) → put name.now d (members_view members.now) ≡ put_found result name.now d members.now }
{
    let mut place = 0;
    while place < members.len() {
        match name_order(name, members[place].0) {
            Ordering::Greater => place += 1,
            Ordering::Equal => return Ok(place),
            Ordering::Less => return Err(place),
        }
    }
    Err(place)
}

/// Puts a member at its place, or in place of the one of its name.
pub(crate) fn put_member<'t>(
    members: &mut Vec<Member<'t>>,
    name: &'t str,
    value: Json<'t>,
) -> Result<(), AllocError>
    ensures { OnOk result (members_view members.new.items ≡ put name.now (view value.entry) (members_view members.old.items)) }
{
    match place_of(members.as_slice(), name) {
        Ok(place) => members[place] = (name, value),
        Err(place) => members.insert(place, (name, value))?,
    }
    Ok(())
}
