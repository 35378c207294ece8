//! Association types as they are given, with their inverses looked up.
ghost use Rattle.std.specs.Prelude.{◌≡◌, ℕ, ◌≤◌, ◌^◌, length, IfOk, option_map, option_and_then};
ghost use Rattle.std.specs.HashMap.{get_by_text};
ghost use Rattle.tao_schema.specs.AssocTypes.{names_of, atype_at, inverses_of};
ghost use Rattle.tao_schema.specs.Index.{IsIndex};

use super::names::{Index, add, stands_at};
use std::alloc::{AllocError, Global};
use std::collections::HashMap;
use std::marker::Model;
use tao_base::{AType, Text, is_name};

/// The most edges that a list may be kept with; also the bound of a type that the schema lacks.
pub const MAX_BOUND: u64 = 6_000;

/// An association type as it is given: its name, the name of its inverse, where it has one, and its
/// bound, the number of edges that its lists are kept with.
#[derive(Clone, Drop)]
pub struct AssocLine {
    pub name: Text,
    pub inverse: Option<Text>,
    pub bound: u64,
}

/// Lines with the first place of each name, and the inverse of each line.
#[derive(Drop)]
pub(crate) struct Lines {
    lines: Vec<AssocLine>,
    inverses: Vec<Option<AType>>,
    places: Index,
}

impl Model for Lines {
    ghost use Rattle.std.specs.Prelude.{◌≡◌, List};
    ghost use Rattle.tao_schema.specs.declared.lines.AssocLine.{AssocLine};
    ghost use Rattle.tao_schema.specs.Index.{IsIndex};
    ghost use Rattle.tao_schema.specs.AssocTypes.{inverses_of, names_of};

    ghost Value = { List AssocLine };

    ghost view = { λ l. l.lines.items };

    ghost invariant = { λ l. (l.inverses.items ≡ inverses_of l.lines.items) × IsIndex (names_of l.lines.items) l.places };
}

impl Lines {
    ghost use Rattle.std.specs.Prelude.{◌≡◌, ◌≤◌, ◌^◌, length, IfOk, option_map};
    ghost use Rattle.tao_schema.specs.AssocTypes.{names_of, atype_at, inverse_at, bound_at, names_back, keeps_inverse_rule, keeps_assoc_rules};
    ghost use Rattle.tao_schema.specs.Names.{place_of};
    ghost use Rattle.tao_schema.specs.Rules.{broken_from};

    /// A copy of these lines.
    pub(crate) fn copy_of(alloc: Global, lines: &[AssocLine]) -> Result<Lines, AllocError>
        requires { length lines.now ≤ 2 ^ 16 }
        ensures { IfOk result (λ copy. copy ≡ lines.now) }
    {
        let places = index_of(alloc, lines)?;
        Ok(Lines {
            lines: lines.to_vec(alloc)?,
            inverses: inverses_of(alloc, lines, &places)?,
            places,
        })
    }

    /// The lines, each at the place that is its type.
    pub fn as_slice(&self) -> &[AssocLine]
        ensures { result.now ≡ self.now }
    {
        self.lines.as_slice()
    }

    /// The type of the line of that name, which is the first one; none where no line has it.
    pub fn find(&self, name: &str) -> Option<AType>
        ensures { result ≡ option_map atype_at (place_of (names_of self.now) name.now) }
    {
        self.places.get(name).map(|place| AType(*place))
    }

    /// The inverse of a type; none where its line has none, or names none that is there.
    pub fn inverse(&self, atype: AType) -> Option<AType>
        ensures { result ≡ option_map atype_at (inverse_at self.now atype.0) }
    {
        self.inverses.get(usize::from(atype.0)).copied().flatten()
    }

    /// How many edges of a list of the type are held at most: `MAX_BOUND` where it has no line.
    pub fn bound(&self, atype: AType) -> u64
        ensures { result ≡ bound_at self.now atype.0 }
    {
        match self.lines.get(usize::from(atype.0)) {
            Some(line) => line.bound,
            None => MAX_BOUND,
        }
    }

    /// The least place of a line that breaks a rule.
    pub fn broken(&self) -> Option<usize>
        ensures { result ≡ broken_from (keeps_assoc_rules self.now) 0 self.now }
    {
        for (place, line) in self.lines.iter().enumerate() {
            if !self.keeps_rules(place, line) {
                return Some(place);
            }
        }
        None
    }

    fn keeps_rules(&self, place: usize, line: &AssocLine) -> bool
        ensures { result ≡ keeps_assoc_rules self.now place line.now }
    {
        is_name(line.name.as_str())
            && stands_at(&self.places, line.name.as_str(), place)
            && self.is_matched(place, &line.inverse)
            && 1 <= line.bound
            && line.bound <= MAX_BOUND
    }

    /// Whether an inverse, if there is one, is a name, and of a type whose inverse is the type at
    /// the place.
    fn is_matched(&self, place: usize, inverse: &Option<Text>) -> bool
        ensures { result ≡ keeps_inverse_rule self.now place inverse.now }
    {
        match inverse {
            None => true,
            Some(name) => is_name(name.as_str()) && self.names_back(place, name.as_str()),
        }
    }

    /// Whether the type of a name has the type at a place for its inverse.
    fn names_back(&self, place: usize, name: &str) -> bool
        ensures { result ≡ names_back self.now place name.now }
    {
        match self.find(name) {
            Some(other) => {
                match self.inverse(other) {
                    Some(back) => usize::from(back.0) == place,
                    None => false,
                }
            }
            None => false,
        }
    }
}

/// The first places of the names.
fn index_of(alloc: Global, lines: &[AssocLine]) -> Result<Index, AllocError>
    requires { length lines.now ≤ 2 ^ 16 }
    ensures { IfOk result (IsIndex (names_of lines.now)) }
{
    let mut places = HashMap::new(alloc);
    for (place, line) in lines.iter().enumerate() {
        add(alloc, &mut places, line.name.as_str(), place as u16)?;
    }
    Ok(places)
}

/// The inverse of each line.
fn inverses_of(
    alloc: Global,
    lines: &[AssocLine],
    places: &Index,
) -> Result<Vec<Option<AType>>, AllocError>
    requires { IsIndex (names_of lines.now) places.now }
    ensures { IfOk result (λ inverses. inverses.items ≡ inverses_of lines.now) }
{
    lines
        .iter()
        .map(|line| inverse_of(line, places))
        .collect(alloc)
}

fn inverse_of(line: &AssocLine, places: &Index) -> Option<AType>
    ensures { result ≡ option_map atype_at (option_and_then (get_by_text places.now) line.now.inverse) }
{
    let name = line.inverse.as_ref()?;
    places.get(name.as_str()).map(|place| AType(*place))
}
