//! What a commit sends.

ghost use Rattle.std.specs.Prelude.{◌≡◌, map, IfOk, IfErr};
ghost use Rattle.cluster_agents.specs.Sending.{BringsNothing, BringsOut, item_from, sent_from};

use crate::agents::ClusterAgent;
use crate::outcomes::Outgoing;
use cluster_laws::Item;
use messages::{AgentMail, ClusterFault, Sent, ToMaster};
use names_core::AgentName;
use std::alloc::{AllocError, Global};
use values::{Listed, Plain, Shared};

fn to_master(name: &AgentName, mail: &AgentMail) -> Result<ToMaster, AllocError>
    ensures { IfOk result (λ to. to ≡ record { agent = name.now; mail = mail.now }) }
{
    Ok(ToMaster {
        agent: name.copy()?,
        mail: mail.copy()?,
    })
}

/// The mails of an agent, as they are written in the entry and stored.
fn outgoing_from(
    alloc: Global,
    name: &AgentName,
    mails: &[AgentMail],
) -> Result<Outgoing, AllocError>
    ensures sent { IfOk result (λ out. out.sent ≡ map (sent_from name.now) mails.now) }
    ensures items { IfOk result (λ out. out.items ≡ map (item_from name.now) mails.now) }
{
    let mut sent = Listed::from_vec(Vec::with_capacity(alloc, mails.len())?);
    let mut items = Listed::from_vec(Vec::with_capacity(alloc, mails.len())?);
    for mail in mails {
        let mail = Shared::new(alloc, to_master(name, mail)?)?;
        items.push(Item::ToMaster(mail.share()?))?;
        sent.push(Sent::ToMaster(mail))?;
    }
    Ok(Outgoing { sent, items })
}

/// What an agent's open draft will send.
pub fn draft_mails(
    alloc: Global,
    agent: &ClusterAgent,
    name: &AgentName,
) -> Result<Outgoing, ClusterFault>
    ensures brings { IfOk result (BringsOut name.now agent.now.part.draft) }
    ensures refused { IfErr result (BringsNothing agent.now.part.draft) }
{
    let Some(draft) = agent.draft() else {
        return Err(ClusterFault::NoDraft);
    };
    Ok(outgoing_from(alloc, name, draft.mails())?)
}
