//! What a request may change of the classes of agents.
ghost use Rattle.std.specs.Prelude.{◌≡◌, ◌<◌, IfOk, length, bytes_eq};
ghost use Rattle.fleet_view.specs.News.{IsNews, is_last_of, joins_of, settled};

use crate::fleet::Fleet;
use agent_class::{Class, class_of};
use http_frames::Request;
use mof_values::Memory;
use pull_messages::{Target, TargetError, target};
use pull_store::PullStore;
use std::alloc::Global;

/// What the change that a request asks for may do to the classes.
#[derive(Clone, Copy, Debug, PartialEq, Eq)]
pub enum News {
    Nothing,

    /// This agent has no row, and may get one.
    Joins(u128),

    /// A report of this agent comes, which gives it that class where it becomes the last one.
    Sends(u128, Class),
}

/// Reads it before the request is answered.
pub fn news_of(alloc: Global, store: &PullStore, request: &Request) -> Result<News, Memory>
    ensures { IfOk result (IsNews store.now.rows request.now) }
{
    match target(alloc, request.target.as_slice()) {
        Ok(Target::Node(agent)) => Ok(joins(store, agent)),
        Ok(Target::SendReport(agent)) => {
            let class = class_of(alloc, request.body.as_slice())?;
            Ok(News::Sends(agent, class))
        }
        Ok(Target::Action(_)) | Ok(Target::Content(_, _)) | Ok(Target::Module(_, _)) => {
            Ok(News::Nothing)
        }
        Err(TargetError::BadTarget { .. }) => Ok(News::Nothing),
        Err(TargetError::Memory) => Err(Memory),
    }
}

// A registration of the agent.
fn joins(store: &PullStore, agent: u128) -> News
    ensures { result ≡ joins_of agent store.now.rows }
{
    match store.agent(agent) {
        Some(_) => News::Nothing,
        None => News::Joins(agent),
    }
}

/// Brings it into the fleet once the request was answered, by what the rows are then; takes no memory.
pub fn settle(fleet: &mut Fleet, store: &PullStore, news: News, body: &[u8])
    requires { length fleet.old.members < fleet.old.capacity }
    ensures { fleet.new.members ≡ settled news body.now store.now.rows fleet.old.members }
{
    match news {
        News::Nothing => {}
        News::Joins(agent) => {
            if store.agent(agent).is_some() {
                fleet.put(agent, Class::Silent);
            }
        }
        News::Sends(agent, class) => {
            if is_last(store, agent, body) {
                fleet.put(agent, class);
            }
        }
    }
}

// Whether the last report of the agent has this body.
fn is_last(store: &PullStore, agent: u128, body: &[u8]) -> bool
    ensures { result ≡ is_last_of agent body.now store.now.rows }
{
    let Some(reports) = store.reports(agent) else {
        return false;
    };
    match reports.last() {
        Some(report) => report.body.as_slice() == body,
        None => false,
    }
}
