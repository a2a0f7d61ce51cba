//! Makes a node from its pieces, one after another.
ghost use Rattle.std.specs.Prelude.{◌≡◌, ◌<◌, IfOk, OnOk, OnErr, length};
ghost use Rattle.std.specs.List.{list_all};
ghost use Rattle.node_state.specs.Pieces.{fits, is_before, is_free, placed, with_parts};

use crate::limits::OLDER_REPORTS;
use crate::{Kept, Node, Piece, SharedParts, Stage};
use mof_values::{Items, Memory};

impl Node {
    /// Returns whether the piece may come next: Base first, then parts by their stages, then the reports by their jobs. Takes no
    /// memory.
    pub fn fits(&self, piece: &Piece) -> bool
        ensures { result ≡ fits self.now piece.now }
    {
        match piece {
            Piece::Base {
                registered,
                meta,
                ..
            } => self.agent.is_none() && (!*registered || meta.server.is_some()),
            Piece::Slot(stage, _) => {
                self.agent.is_some() && self.is_free(*stage) && self.reports.as_slice().is_empty()
            }
            Piece::Kept(kept) => {
                self.agent.is_some()
                    && kept.report.job < self.next_job
                    && are_before(self.reports.as_slice(), kept.report.job)
                    && self.reports.as_slice().len() <= OLDER_REPORTS
            }
        }
    }

    fn is_free(&self, stage: Stage) -> bool
        ensures { result ≡ is_free stage self.now }
    {
        match stage {
            Stage::Pending => self.pending.is_none()
                && self.current.is_none()
                && self.previous.is_none(),
            Stage::Current => self.current.is_none() && self.previous.is_none(),
            Stage::Previous => self.previous.is_none(),
        }
    }

    /// The node with the piece.
    pub fn placed(self, piece: Piece) -> Result<Node, Memory>
        ensures { IfOk result (λ node. node ≡ placed self piece) }
    {
        match piece {
            Piece::Base {
                agent,
                registered,
                reboot,
                next_job,
                meta,
            } => Ok(Node {
                agent: Some(agent),
                registered,
                reboot,
                next_job,
                meta,
                ..self
            }),
            Piece::Slot(stage, parts) => Ok(self.with_parts(stage, parts)),
            Piece::Kept(kept) => {
                let mut reports = self.reports.into_vec();
                reports.push(kept)?;
                Ok(Node {
                    reports: Items::of(reports),
                    ..self
                })
            }
        }
    }

    fn with_parts(self, stage: Stage, parts: SharedParts) -> Node
        ensures { result ≡ with_parts stage parts self }
    {
        match stage {
            Stage::Pending => Node {
                pending: Some(parts),
                ..self
            },
            Stage::Current => Node {
                current: Some(parts),
                ..self
            },
            Stage::Previous => Node {
                previous: Some(parts),
                ..self
            },
        }
    }
}

fn are_before(reports: &[Kept], job: u64) -> bool
    ensures { result ≡ list_all (is_before job) reports.now }
{
    reports.iter().all(|kept| kept.report.job < job)
}
