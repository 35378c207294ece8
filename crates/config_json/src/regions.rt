//! The regions with their tiers, and the masters.
ghost use Rattle.std.specs.Prelude.{◌≡◌, IfOk, option_map, codes};
ghost use Rattle.json_fields.specs.View.{view};
ghost use Rattle.json_fields.specs.Fields.{name_at};
ghost use Rattle.config_json.specs.Regions.{tier_of, tiers_at, region_of, regions_at, places_of, named_masters, masters_at};

use json_fields::fields::{has_only, short_or, text_at};
use json_fields::items::{ItemReader, TextReader, each_at};
use json_fields::value::Json;
use std::alloc::{AllocError, Global};
use tao_base::Text;
use topology::regions::MAX_LEADERS;
use topology::tiers::MAX_FOLLOWERS;
use topology::{MasterRegions, Name, Region, Regions, Tier, Tiers};

/// The leaders of a region that says none.
const DEFAULT_LEADERS: u16 = 1;

/// The followers of a tier that says none.
const DEFAULT_FOLLOWERS: u16 = 1;

/// The name of a region or a tier.
fn read_name(alloc: Global, value: &Json<'_>) -> Result<Option<Name>, AllocError>
    ensures { IfOk result (λ name. name ≡ name_at (codes "name") (view value.now)) }
{
    match text_at(value, "name") {
        Some(text) => Ok(Name::read(Text::copy_of(alloc, text)?)),
        None => Ok(None),
    }
}

/// Reads tiers.
struct TierReader;

impl ItemReader<Tier> for TierReader {
    ghost said = { tier_of };

    fn read(alloc: Global, value: &Json<'_>) -> Result<Option<Tier>, AllocError> {
        let Some(name) = read_name(alloc, value)? else {
            return Ok(None);
        };
        let Some(followers) = short_or(value, "followers", DEFAULT_FOLLOWERS, 1, MAX_FOLLOWERS)
        else {
            return Ok(None);
        };
        Ok(has_only(value, &["name", "followers"]).then_some(Tier { name, followers }))
    }
}

fn tiers_at(alloc: Global, value: &Json<'_>) -> Result<Option<Tiers>, AllocError>
    ensures { IfOk result (λ tiers. tiers ≡ tiers_at (view value.now)) }
{
    match each_at::<Tier, TierReader>(alloc, value, "tiers")? {
        Some(tiers) => Ok(Tiers::of(tiers)),
        None => Ok(None),
    }
}

/// Reads regions.
struct RegionReader;

impl ItemReader<Region> for RegionReader {
    ghost said = { region_of };

    fn read(alloc: Global, value: &Json<'_>) -> Result<Option<Region>, AllocError> {
        let Some(name) = read_name(alloc, value)? else {
            return Ok(None);
        };
        let Some(leaders) = short_or(value, "leaders", DEFAULT_LEADERS, 1, MAX_LEADERS) else {
            return Ok(None);
        };
        let Some(tiers) = tiers_at(alloc, value)? else {
            return Ok(None);
        };
        let region = Region {
            name,
            leaders,
            tiers,
        };
        Ok(has_only(value, &["name", "leaders", "tiers"]).then_some(region))
    }
}

/// The regions of a configuration.
pub(crate) fn regions_at(alloc: Global, value: &Json<'_>) -> Result<Option<Regions>, AllocError>
    ensures { IfOk result (λ regions. regions ≡ regions_at (view value.now)) }
{
    match each_at::<Region, RegionReader>(alloc, value, "regions")? {
        Some(regions) => Ok(Regions::of(regions)),
        None => Ok(None),
    }
}

/// The masters of a configuration of these regions: the first alone where none are given.
pub(crate) fn masters_at(
    alloc: Global,
    value: &Json<'_>,
    regions: &Regions,
) -> Result<Option<MasterRegions>, AllocError>
    ensures { IfOk result (λ masters. masters ≡ masters_at regions.now (view value.now)) }
{
    match value.get("masters") {
        Some(_) => named_masters(alloc, value, regions),
        None => Ok(MasterRegions::of(vec![in alloc; 0]?)),
    }
}

fn named_masters(
    alloc: Global,
    value: &Json<'_>,
    regions: &Regions,
) -> Result<Option<MasterRegions>, AllocError>
    ensures { IfOk result (λ masters. masters ≡ named_masters regions.now (view value.now)) }
{
    let Some(names) = each_at::<Text, TextReader>(alloc, value, "masters")? else {
        return Ok(None);
    };
    match places_of(alloc, regions, names.as_slice())? {
        Some(places) => Ok(MasterRegions::of(places)),
        None => Ok(None),
    }
}

/// The places of the regions of these names. Compares each name with each region's.
fn places_of(
    alloc: Global,
    regions: &Regions,
    names: &[Text],
) -> Result<Option<Vec<u16>>, AllocError>
    ensures { IfOk result (λ places. option_map (λ v. v.items) places ≡ places_of regions.now names.now) }
{
    let mut places = Vec::new(alloc);
    for name in names {
        match regions.find(name.as_str()) {
            Some(place) => places.push(place)?,
            None => return Ok(None),
        }
    }
    Ok(Some(places))
}
