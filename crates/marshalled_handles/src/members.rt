//! Keys of members.

ghost use Rattle.std.specs.List.{list_any};
ghost use Rattle.std.specs.Prelude.{◌≡◌, bytes_eq};

use wire_base::{Datum, Text};

/// Whether a member has this key.
fn has_key(member: &(Text, Datum), key: &Text) -> bool
    ensures { result ≡ bytes_eq member.now.0 key.now }
{
    member.0 == *key
}

/// Whether a key is that of one of these members.
pub(crate) fn is_named(key: &Text, members: &[(Text, Datum)]) -> bool
    ensures { result ≡ list_any (λ member. bytes_eq member.0 key.now) members.now }
{
    members.iter().any(|member| has_key(member, key))
}
