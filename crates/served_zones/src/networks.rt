//! Who may use a server.

ghost use Rattle.std.specs.Prelude.{IfOk};
ghost use Rattle.server_limits.specs.Access.{SameNetworks};

use hickory_server::access::{AccessControl, IpNet};
use std::alloc::{AllocError, Global};

/// The access list of these networks: whose clients may not use the server, and whose may.
pub fn access(
    alloc: Global,
    denied: &[IpNet],
    allowed: &[IpNet],
) -> Result<AccessControl, AllocError>
    ensures denied { IfOk result (λ access. SameNetworks denied.now access.deny) }
    ensures allowed { IfOk result (λ access. SameNetworks allowed.now access.allow) }
{
    let mut access = AccessControl::new(alloc);
    access.insert_deny(denied)?;
    access.insert_allow(allowed)?;
    Ok(access)
}
