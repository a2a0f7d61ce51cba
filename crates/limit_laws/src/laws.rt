//! The law of the limits. The call does nothing; its clauses are the law.
ghost use Rattle.limit_laws.specs.Limits.{DocumentLimits, FrameLimits, MessageLimits, MetaLimits, NodeLimits, OutsideLimits, ScriptLimits, ServerLimits};

/// The limits of documents, of scripts, of meta-configurations, of a node's state and store, of messages and their frames, of what
/// a clock and a link give, and of the pull server.
pub fn limits_are()
    ensures documents { DocumentLimits }
    ensures scripts { ScriptLimits }
    ensures metas { MetaLimits }
    ensures nodes { NodeLimits }
    ensures messages { MessageLimits }
    ensures outside { OutsideLimits }
    ensures frames { FrameLimits }
    ensures servers { ServerLimits }
{}
