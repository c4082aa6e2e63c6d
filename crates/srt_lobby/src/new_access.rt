//! Lists and keys that replace those of a route.

ghost use Rattle.std.specs.Prelude.{◌≡◌, IfOk};
ghost use Rattle.srt_types.specs.Access.{role_access_of, access_of};
ghost use Rattle.srt_lobby.specs.ListsAndKeys.{list_and_key, lists_and_keys, role_with, access_with, role_rules, new_access, replaced_access};

use srt_types::{Access, Network, RoleAccess};
use std::alloc::{AllocError, Global};
use std::mem;

/// The list of networks and the key of one role. One that is `None` admits every caller.
#[derive(Drop)]
pub(crate) struct RoleRules {
    pub(crate) from: Option<Vec<Network>>,
    pub(crate) key: Option<String>,
}

/// The lists and keys that are to replace those of a route: all the memory that `Names::replace_access` needs. One thread
/// may allocate them and another one replace those of the route.
#[derive(Drop)]
pub struct NewAccess {
    pub(crate) publish: RoleRules,
    pub(crate) request: RoleRules,
}

/// The lists and keys that a route had until they were replaced. The thread that drops them frees their memory.
#[derive(Drop)]
pub struct ReplacedAccess {
    pub(crate) publish: RoleRules,
    pub(crate) request: RoleRules,
}

impl RoleRules {
    /// Returns copies of a role's list and key. Allocates; an error if the allocation fails.
    fn of(alloc: Global, role: &RoleAccess) -> Result<RoleRules, AllocError>
        ensures { IfOk result (λ rules. role_rules rules ≡ list_and_key (role_access_of role.now)) }
    {
        let RoleAccess { from, key, .. } = role.copy(alloc)?;
        Ok(RoleRules { from, key })
    }
}

impl NewAccess {
    /// Returns copies of the lists and keys in these access rules. Allocates; an error if the allocation fails.
    pub fn of(alloc: Global, access: &Access) -> Result<NewAccess, AllocError>
        ensures { IfOk result (λ new. new_access new ≡ lists_and_keys (access_of access.now)) }
    {
        let publish = RoleRules::of(alloc, &access.publish)?;
        let request = RoleRules::of(alloc, &access.request)?;
        Ok(NewAccess { publish, request })
    }
}

/// Replaces a role's list and key, and returns those that it had. Neither allocates nor frees memory.
fn replace_role(role: &mut RoleAccess, new: RoleRules) -> RoleRules
    ensures role { role_access_of role.new ≡ role_with (role_rules new) (role_access_of role.old) }
    ensures replaced { role_rules result ≡ list_and_key (role_access_of role.old) }
{
    let RoleRules { from, key } = new;
    let old_from = mem::replace(&mut role.from, from);
    let old_key = mem::replace(&mut role.key, key);
    RoleRules {
        from: old_from,
        key: old_key,
    }
}

/// Replaces a route's lists and keys, and returns those that it had. Neither allocates nor frees memory.
pub(crate) fn replace_rules(access: &mut Access, new: NewAccess) -> ReplacedAccess
    ensures access { access_of access.new ≡ access_with (new_access new) (access_of access.old) }
    ensures replaced { replaced_access result ≡ lists_and_keys (access_of access.old) }
{
    let NewAccess { publish, request } = new;
    let old_publish = replace_role(&mut access.publish, publish);
    let old_request = replace_role(&mut access.request, request);
    ReplacedAccess {
        publish: old_publish,
        request: old_request,
    }
}
