//! Frameworks and roles, with what they hold.

ghost use Rattle.std.specs.Prelude.{◌≡◌};
ghost use Rattle.drf_pick.specs.Shares.{is_holder, is_role, holder_with, role_sum_with};

use drf_shares::Sum;
use names_core::{FrameworkId, RoleName};

/// A framework that may be picked, and its role.
#[derive(Drop)]
pub struct Client {
    pub framework: FrameworkId,
    pub role: RoleName,
}

/// A framework, its role, and the sum of what it holds.
#[derive(Drop)]
pub struct Holder {
    pub framework: FrameworkId,
    pub role: RoleName,
    pub held: Sum,
}

/// A role, the sum of what its frameworks hold, and its weight.
#[derive(Drop)]
pub struct RoleSum {
    pub role: RoleName,
    pub held: Sum,
    /// 1 to 1,000: how much of all is the role's due, beside the others'.
    pub weight: u16,
}

impl Holder {
    pub(crate) fn new(framework: FrameworkId, role: RoleName, held: Sum) -> Holder
        ensures { result ≡ holder_with framework role held }
    {
        Holder {
            framework,
            role,
            held,
        }
    }

    pub(crate) fn is_of(&self, framework: FrameworkId) -> bool
        ensures { result ≡ is_holder framework self.now }
    {
        self.framework == framework
    }
}

impl RoleSum {
    pub(crate) fn new(role: RoleName, held: Sum) -> RoleSum
        ensures { result ≡ role_sum_with role held }
    {
        RoleSum {
            role,
            held,
            weight: 1,
        }
    }

    pub(crate) fn is_of(&self, role: &RoleName) -> bool
        ensures { result ≡ is_role role.now self.now }
    {
        self.role.is(role)
    }
}
