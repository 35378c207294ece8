//! What has a name, and whether names differ.
ghost use Rattle.std.specs.Prelude.{◌≡◌, ℕ, List, map, bytes_eq};
ghost use Rattle.std.specs.List.{list_any};
ghost use Rattle.topology.specs.Named.{are_different};

/// What has a name.
pub(crate) trait Named {
    ghost named: { Self → List ℕ };

    fn name(&self) -> &str
        ensures { result.now ≡ named self.now };
}

/// Whether no two have one name. Compares each with each.
pub(crate) fn are_different<T: Named>(items: &[T]) -> bool
    ensures { result ≡ are_different (map T.named items.now) }
{
    match items {
        [] => true,
        [first, others @ ..] => !has_name(others, first.name()) && are_different(others),
    }
}

fn has_name<T: Named>(items: &[T], name: &str) -> bool
    ensures { result ≡ list_any (bytes_eq name.now) (map T.named items.now) }
{
    for item in items {
        if name == item.name() {
            return true;
        }
    }
    false
}
