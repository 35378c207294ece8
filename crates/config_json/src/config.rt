//! The configuration line.
ghost use Rattle.std.specs.Prelude.{◌≡◌, ◌≢◌, Ok, Err, IfOk, IfErr, option_map};
ghost use Rattle.json_fields.specs.View.{view};
ghost use Rattle.config_json.specs.Object.{line_object};
ghost use Rattle.config_json.specs.Config.{in_field, config_of, config_in};

use super::refusal::ConfigRefusal;
use super::regions::{masters_at, regions_at};
use super::types::{assocs_at, objects_at};
use json_fields::fields::{number_or, short_at, strange_at};
use json_fields::lines::{LineMemory, parse};
use json_fields::value::Json;
use std::alloc::{AllocError, Global};
use tao_base::Text;
use tao_schema::Schema;
use topology::Config;
use topology::config::{MAX_CACHE_ITEMS, MAX_LOG, MAX_SHARDS};

/// The most entries of a log where none are given.
const DEFAULT_LOG: u64 = 16_384;

/// The most items of a cache node where none are given.
const DEFAULT_CACHE: u64 = 1_024;

/// The fields that a configuration may have.
const FIELDS: [&str; 7] = [
    "shards",
    "regions",
    "masters",
    "objects",
    "assocs",
    "log_max",
    "cache_items",
];

/// The configuration that a line is. Reads the line once, and takes memory for what it says.
pub fn read_config(alloc: Global, line: &[u8]) -> Result<Config, ConfigRefusal>
    ensures ok { IfOk result (λ config. config_in line.now ≡ Ok config) }
    ensures refused { IfErr result (λ refusal. refusal ≢ ConfigRefusal.OutOfMemory → config_in line.now ≡ Err refusal) }
{
    let mut memory = LineMemory::new(alloc);
    match line_object(alloc, &mut memory, line)? {
        Some(value) => config_of(alloc, &value),
        None => Err(bad(alloc, "")),
    }
}

/// The object that a line is.
fn line_object<'t>(
    alloc: Global,
    memory: &'t mut LineMemory,
    line: &'t [u8],
) -> Result<Option<Json<'t>>, AllocError>
    ensures { IfOk result (λ value. option_map view value ≡ line_object line.now) }
{
    match parse(alloc, memory, line)? {
        Some(value) => Ok(value.is_object().then_some(value)),
        None => Ok(None),
    }
}

fn config_of(alloc: Global, value: &Json<'_>) -> Result<Config, ConfigRefusal>
    ensures ok { IfOk result (λ config. config_of (view value.now) ≡ Ok config) }
    ensures refused { IfErr result (λ refusal. refusal ≢ ConfigRefusal.OutOfMemory → config_of (view value.now) ≡ Err refusal) }
{
    let shards = in_field(alloc, "shards", short_at(value, "shards", 1, MAX_SHARDS))?;
    let regions = in_field(alloc, "regions", regions_at(alloc, value)?)?;
    let masters = in_field(alloc, "masters", masters_at(alloc, value, &regions)?)?;
    let objects = in_field(alloc, "objects", objects_at(alloc, value)?)?;
    let assocs = in_field(alloc, "assocs", assocs_at(alloc, value)?)?;
    let log_max = in_field(
        alloc,
        "log_max",
        number_or(value, "log_max", DEFAULT_LOG, 1, MAX_LOG),
    )?;
    let cache_items = in_field(
        alloc,
        "cache_items",
        number_or(value, "cache_items", DEFAULT_CACHE, 1, MAX_CACHE_ITEMS),
    )?;
    if let Some(field) = strange_at(value, &FIELDS) {
        return Err(bad(alloc, field));
    }
    Ok(Config {
        schema: Schema { objects, assocs },
        shards,
        regions,
        masters,
        log_max,
        cache_items: cache_items as usize,
    })
}

/// What was read of a field, or the refusal that names it.
fn in_field<T>(alloc: Global, field: &str, read: Option<T>) -> Result<T, ConfigRefusal>
    ensures ok { IfOk result (λ said. in_field field.now read ≡ Ok said) }
    ensures refused { IfErr result (λ refusal. refusal ≢ ConfigRefusal.OutOfMemory → in_field field.now read ≡ Err refusal) }
{
    match read {
        Some(said) => Ok(said),
        None => Err(bad(alloc, field)),
    }
}

/// The refusal that names a field.
fn bad(alloc: Global, field: &str) -> ConfigRefusal
    ensures { result ≢ ConfigRefusal.OutOfMemory → result ≡ ConfigRefusal.BadConfig field.now }
{
    match Text::copy_of(alloc, field) {
        Ok(field) => ConfigRefusal::BadConfig { field },
        Err(_) => ConfigRefusal::OutOfMemory,
    }
}
