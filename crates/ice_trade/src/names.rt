//! Names in a plain list.
ghost use Rattle.std.specs.Prelude.{◌≡◌, ◌<◌, length, IfSome};
ghost use Rattle.std.specs.List.{position};
ghost use Rattle.std.specs.Str.{bytes_eq};

use ice_terms::Name;

/// The number of a name, and None exactly where it isn't there.
pub(crate) fn number_of(names: &[Name], name: &str) -> Option<usize>
    ensures value { result ≡ position (bytes_eq name.now) names.now }
    ensures within { IfSome result (λ number. number < length names.now) }
{
    names.iter().position(|other| name == other.text())
}
