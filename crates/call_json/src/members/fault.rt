//! Why a text is no call.

ghost use Rattle.std.specs.Prelude.{◌≡◌, ◌≤◌, length, Some};
ghost use Rattle.call_json.specs.Texts.{missing_text, refusal_text, fault_text};
ghost use Rattle.call_json.specs.declared.members.fault.CallFault.TheVariants.{OutOfMemory, Refused};

use std::alloc::{AllocError, AllocFailed};
use std::error::Error;
use std::fmt;

/// A member that a call of its type has to have. Where an object on a member's path is absent,
/// the first such member whose path it is on is missing.
#[derive(Clone, Copy, Debug, Drop, PartialEq, Eq)]
pub enum Member {
    User,
    FrameworkName,
    Roles,
    FrameworkId,
    AcceptedOffers,
    OperationType,
    Tasks,
    TaskLabel,
    TaskId,
    TaskAgent,
    Resources,
    ResourceName,
    ResourceType,
    ResourceValue,
    DeclinedOffers,
    KilledTask,
    AcknowledgedAgent,
    AcknowledgedTask,
    AcknowledgedUpdate,
    ReconciledTasks,
    ReconciledTask,
}

/// What is wrong with a text: the first fault, in the order in which its type's members are read.
#[derive(Clone, Copy, Debug, Drop, PartialEq, Eq)]
pub enum Refusal {
    /// The text is no JSON (RFC 8259) of at most 127 levels, or no object.
    NotJson,
    /// There is no text `type`.
    NoType,
    /// The `type`, or that of an operation, is none that this master knows.
    UnknownType,
    /// A required member is absent, or of another kind than asked for.
    Missing(Member),
    /// An id or a name doesn't read, or the two ids of a SUBSCRIBE differ.
    BadId,
    /// A resource's value is no whole number from 0 to 2^64 - 1.
    NotWhole,
    /// A resource is no scalar, or is reserved for a role.
    NotScalar,
    /// A SUBSCRIBE names more than one of `roles`.
    TooManyRoles,
    /// A list, an amount or a task's resources are over their limit.
    LimitExceeded,
}

/// Why a call wasn't read.
#[derive(Clone, Copy, Debug, Drop, PartialEq, Eq)]
pub enum CallFault {
    /// Memory ran out before the text was judged.
    OutOfMemory,
    Refused(Refusal),
}

#[tactic(auto, unfolding(crate::specs::Texts::missing_text))]
fn missing_text(member: Member) -> &'static str
    ensures text { result.now ≡ missing_text member }
    ensures short { length result.now ≤ 80 }
{
    match member {
        Member::User => "J4 Missing subscribe.framework_info.user",
        Member::FrameworkName => "J4 Missing subscribe.framework_info.name",
        Member::Roles => "J4 Missing subscribe.framework_info.roles",
        Member::FrameworkId => "J4 Missing framework_id",
        Member::AcceptedOffers => "J4 Missing accept.offer_ids",
        Member::OperationType => "J4 Missing accept.operations.type",
        Member::Tasks => "J4 Missing accept.operations.launch.task_infos",
        Member::TaskLabel => "J4 Missing accept.operations.launch.task_infos.name",
        Member::TaskId => "J4 Missing accept.operations.launch.task_infos.task_id",
        Member::TaskAgent => "J4 Missing accept.operations.launch.task_infos.agent_id",
        Member::Resources => "J4 Missing accept.operations.launch.task_infos.resources",
        Member::ResourceName => "J4 Missing accept.operations.launch.task_infos.resources.name",
        Member::ResourceType => "J4 Missing accept.operations.launch.task_infos.resources.type",
        Member::ResourceValue => {
            "J4 Missing accept.operations.launch.task_infos.resources.scalar.value"
        }
        Member::DeclinedOffers => "J4 Missing decline.offer_ids",
        Member::KilledTask => "J4 Missing kill.task_id",
        Member::AcknowledgedAgent => "J4 Missing acknowledge.agent_id",
        Member::AcknowledgedTask => "J4 Missing acknowledge.task_id",
        Member::AcknowledgedUpdate => "J4 Missing acknowledge.uuid",
        Member::ReconciledTasks => "J4 Missing reconcile.tasks",
        Member::ReconciledTask => "J4 Missing reconcile.tasks.task_id",
    }
}

impl Refusal {
    /// The message of its ERROR event: its code, its name and, of a missing member, the member's
    /// path with points.
    #[tactic(auto, unfolding(crate::specs::Texts::refusal_text))]
    pub fn as_text(&self) -> &'static str
        ensures text { result.now ≡ refusal_text self.now }
        ensures short { length result.now ≤ 80 }
    {
        match self {
            Refusal::NotJson => "J1 NotJson",
            Refusal::NoType => "J2 NoType",
            Refusal::UnknownType => "J3 UnknownType",
            Refusal::Missing(member) => missing_text(*member),
            Refusal::BadId => "J5 BadId",
            Refusal::NotWhole => "J6 NotWhole",
            Refusal::NotScalar => "J7 NotScalar",
            Refusal::TooManyRoles => "J8 TooManyRoles",
            Refusal::LimitExceeded => "J9 LimitExceeded",
        }
    }
}

impl CallFault {
    /// `J10 OutOfMemory`, or the refusal's text.
    #[tactic(auto, unfolding(crate::specs::Texts::fault_text))]
    pub fn as_text(&self) -> &'static str
        ensures text { result.now ≡ fault_text self.now }
        ensures short { length result.now ≤ 80 }
    {
        match self {
            CallFault::OutOfMemory => "J10 OutOfMemory",
            CallFault::Refused(refusal) => refusal.as_text(),
        }
    }
}

impl fmt::Display for Refusal {
    ghost output = { λ refusal. Some (refusal_text refusal) };

    fn fmt<W: fmt::Write>(&self, f: &mut fmt::Formatter<W>) -> fmt::Result {
        f.write_str(self.as_text())
    }
}

impl Error for Refusal {}

impl fmt::Display for CallFault {
    ghost output = { λ fault. Some (fault_text fault) };

    fn fmt<W: fmt::Write>(&self, f: &mut fmt::Formatter<W>) -> fmt::Result {
        f.write_str(self.as_text())
    }
}

impl Error for CallFault {}

impl From<AllocError> for CallFault {
    ghost from_gives = { λ _ e. e ≡ OutOfMemory };

    fn from(_e: AllocError) -> CallFault {
        CallFault::OutOfMemory
    }
}

impl<T: Drop> From<AllocFailed<T>> for CallFault {
    ghost from_gives = { λ _ e. e ≡ OutOfMemory };

    fn from(_e: AllocFailed<T>) -> CallFault {
        CallFault::OutOfMemory
    }
}

impl From<Refusal> for CallFault {
    ghost from_gives = { λ refusal e. e ≡ Refused refusal };

    fn from(refusal: Refusal) -> CallFault {
        CallFault::Refused(refusal)
    }
}
