//! The association types.
ghost use Rattle.std.specs.Prelude.{◌≡◌};

use super::lines::{AssocLine, Lines, MAX_BOUND};
use super::names::MOST_TYPES;
use super::refusal::{SchemaField, SchemaRefusal};
use std::alloc::Global;
use std::marker::Model;
use tao_base::AType;

/// The association types: 1 to 64, each under a name of its own, inverses matched. An association
/// type is its place among them. Contracts see the lines that they were read from.
#[derive(Drop)]
pub struct AssocTypes {
    lines: Lines,
}

impl Model for AssocTypes {
    ghost use Rattle.std.specs.Prelude.{◌≡◌, List, Ok};
    ghost use Rattle.tao_schema.specs.declared.lines.AssocLine.{AssocLine};
    ghost use Rattle.tao_schema.specs.AssocTypes.{assocs_of};

    ghost Value = { List AssocLine };

    ghost view = { λ types. types.lines };

    ghost invariant = { λ types. assocs_of types.lines ≡ Ok types.lines };
}

impl AssocTypes {
    ghost use Rattle.std.specs.Prelude.{◌≡◌, ◌≢◌, ◌≤◌, length, Ok, Err, IfOk, IfErr, option_map};
    ghost use Rattle.tao_base.specs.EdgeTypes.{InversesMatch};
    ghost use Rattle.tao_schema.specs.Names.{AreFound, place_of};
    ghost use Rattle.tao_schema.specs.AssocTypes.{assocs_of, names_of, atype_at, edge_types};

    /// The association types of these lines, which are copied.
    pub fn read(alloc: Global, lines: &[AssocLine]) -> Result<AssocTypes, SchemaRefusal>
        ensures ok { IfOk result (λ types. assocs_of lines.now ≡ Ok types) }
        ensures refused { IfErr result (λ refusal. refusal ≢ SchemaRefusal.OutOfMemory → assocs_of lines.now ≡ Err refusal) }
    {
        if lines.is_empty() || MOST_TYPES < lines.len() {
            return Err(bad(lines.len()));
        }
        let lines = Lines::copy_of(alloc, lines)?;
        match lines.broken() {
            Some(place) => Err(bad(place)),
            None => Ok(AssocTypes { lines }),
        }
    }

    /// The lines, each at the place of its type.
    #[tactic(auto, using(crate::proofs::Kept::few_assocs))]
    pub fn as_slice(&self) -> &[AssocLine]
        ensures value { result.now ≡ self.now }
        ensures some { 1 ≤ length result.now }
        ensures few { length result.now ≤ 64 }
    {
        self.lines.as_slice()
    }

    /// The type of a name.
    #[tactic(auto, using(crate::proofs::Found::assocs_found))]
    pub fn find(&self, name: &str) -> Option<AType>
        ensures found { AreFound (names_of self.now) }
        ensures value { result ≡ option_map atype_at (place_of (names_of self.now) name.now) }
    {
        self.lines.find(name)
    }

    /// The inverse of a type; none where there is no such type.
    #[tactic(auto, using(crate::proofs::Inverses::matched))]
    pub fn inverse(&self, atype: AType) -> Option<AType>
        ensures value { result ≡ (edge_types self.now).inverse atype }
        ensures matched { InversesMatch (edge_types self.now) }
    {
        self.lines.inverse(atype)
    }

    /// The bound of a type; `MAX_BOUND` where there is no such type.
    #[tactic(auto, using(crate::proofs::Bounds::within))]
    pub fn bound(&self, atype: AType) -> u64
        ensures value { result ≡ (edge_types self.now).bound atype }
        ensures positive { 1 ≤ result }
        ensures at_most { result ≤ MAX_BOUND }
    {
        self.lines.bound(atype)
    }
}

fn bad(place: usize) -> SchemaRefusal
    ensures { result ≡ SchemaRefusal.BadField SchemaField.Assocs place }
{
    SchemaRefusal::BadField {
        field: SchemaField::Assocs,
        place: place as u64,
    }
}
