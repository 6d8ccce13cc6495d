//! The names that a policy declares.

ghost use Rattle.std.specs.Prelude.{◌≡◌, ◌++◌, OnOk, string_bytes};
ghost use Rattle.words.specs.Names.{name_of_client, name_of_object};

use aql_packet::ClientId;
use policy::{Object, Policy};
use std::alloc::AllocError;

/// The name of a client; no letter, where the policy has no client of that number.
pub fn client_name(policy: &Policy, client: ClientId) -> &str
    ensures { result.now ≡ name_of_client policy.now client }
{
    policy.client_name(client).unwrap_or("")
}

/// The name of an object; no letter, where the policy has no object of that number.
pub fn object_name(policy: &Policy, object: Object) -> &str
    ensures { result.now ≡ name_of_object policy.now object }
{
    policy.object_name(object).unwrap_or("")
}

/// Writes the name of a client.
pub fn write_client(out: &mut String, policy: &Policy, client: ClientId) -> Result<(), AllocError>
    ensures { OnOk result (string_bytes out.new ≡ string_bytes out.old ++ name_of_client policy.now client) }
{
    out.push_str(client_name(policy, client))
}

/// Writes the name of an object.
pub fn write_object(out: &mut String, policy: &Policy, object: Object) -> Result<(), AllocError>
    ensures { OnOk result (string_bytes out.new ≡ string_bytes out.old ++ name_of_object policy.now object) }
{
    out.push_str(object_name(policy, object))
}
