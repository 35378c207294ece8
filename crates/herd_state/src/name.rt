//! What a herd is named by.
use tao_base::Key;

/// The name of a herd: a tier, by its place in its region, and the key that is read there.
#[derive(Clone, Copy, PartialEq, Eq, Hash)]
pub struct HerdName {
    pub region: u16,
    pub tier: u16,
    pub key: Key,
}
