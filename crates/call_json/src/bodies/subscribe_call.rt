//! The call that opens an event stream.

ghost use Rattle.std.specs.Prelude.{◌≡◌, Ok, option_and_then};
ghost use Rattle.serde_json.specs.Find.{as_array};
ghost use Rattle.serde_json.specs.View.{view};
ghost use Rattle.call_json.specs.Answers.{Gives};
ghost use Rattle.call_json.specs.MemberLookups.{seen};
ghost use Rattle.call_json.specs.Subscribe.{roles_of, one_id, chosen_role, info_id, info_role, call_id, subscribe_of};

use crate::members::{
    CallFault, Member, Refusal, list, member, optional_framework, optional_role, required_text,
};
use messages::Call;
use names_core::{FrameworkId, RoleName};
use serde_json::Value;
use std::alloc::Global;

/// The one role of a list of roles.
fn roles(alloc: Global, value: Option<&Value>) -> Result<Option<RoleName>, CallFault>
    ensures { Gives (λ r. r) result (roles_of (option_and_then as_array (seen value.entry))) }
{
    let Some(values) = list(value) else {
        return Ok(None);
    };
    match values {
        [] => Ok(None),
        [one] => {
            required_text(Some(one), Member::Roles)?;
            optional_role(alloc, Some(one))
        }
        _ => Err(CallFault::Refused(Refusal::TooManyRoles)),
    }
}

fn same_id(
    id: Option<FrameworkId>,
    framework: Option<FrameworkId>,
) -> Result<Option<FrameworkId>, CallFault>
    ensures { Gives (λ i. i) result (one_id id framework) }
{
    match (id, framework) {
        (None, framework) => Ok(framework),
        (Some(i), None) => Ok(Some(i)),
        (Some(i), Some(j)) => {
            if i == j {
                Ok(Some(i))
            } else {
                Err(CallFault::Refused(Refusal::BadId))
            }
        }
    }
}

fn choose_role(
    alloc: Global,
    one: Option<RoleName>,
    role: Option<RoleName>,
) -> Result<RoleName, CallFault>
    ensures { Gives (λ r. r) result (Ok (chosen_role one role)) }
{
    match (one, role) {
        (Some(one), _) => Ok(one),
        (None, Some(role)) => Ok(role),
        (None, None) => match RoleName::from_text(alloc, "*") {
            Ok(role) => Ok(role),
            Err(_) => Err(CallFault::OutOfMemory),
        },
    }
}

/// The id of a `framework_info`, which has a user and a name.
#[tactic(auto, unfolding(crate::specs::Subscribe::info_id))]
fn info_id(info: Option<&Value>) -> Result<Option<FrameworkId>, CallFault>
    ensures { Gives (λ i. i) result (info_id (seen info.entry)) }
{
    required_text(member(info, "user"), Member::User)?;
    required_text(member(info, "name"), Member::FrameworkName)?;
    optional_framework(member(info, "id"))
}

/// The one role of a `framework_info`.
#[tactic(auto, unfolding(crate::specs::Subscribe::info_role))]
fn info_role(alloc: Global, info: Option<&Value>) -> Result<RoleName, CallFault>
    ensures { Gives (λ r. r) result (info_role (seen info.entry)) }
{
    let role = optional_role(alloc, member(info, "role"))?;
    let one = roles(alloc, member(info, "roles"))?;
    choose_role(alloc, one, role)
}

/// The id of a call's framework, whose `framework_info` has this one.
#[tactic(auto, unfolding(crate::specs::Subscribe::call_id))]
fn call_id(call: &Value, id: Option<FrameworkId>) -> Result<Option<FrameworkId>, CallFault>
    ensures { Gives (λ i. i) result (call_id (view call.now) id) }
{
    let framework = optional_framework(call.get("framework_id"))?;
    same_id(id, framework)
}

/// A SUBSCRIBE: the framework's id where it has one, and its one role.
#[tactic(auto, unfolding(crate::specs::Subscribe::subscribe_of))]
pub fn subscribe(alloc: Global, call: &Value) -> Result<Call, CallFault>
    ensures { Gives (λ c. c) result (subscribe_of (view call.now)) }
{
    let info = member(call.get("subscribe"), "framework_info");
    let id = info_id(info)?;
    let role = info_role(alloc, info)?;
    let framework = call_id(call, id)?;
    Ok(Call::Subscribe { role, framework })
}
