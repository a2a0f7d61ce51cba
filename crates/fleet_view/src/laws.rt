//! What a run of the server with its fleet means. The calls do nothing; their clauses are the laws.
ghost use Rattle.pull_serving.specs.Alone.{RunsLeaveAgentsAlone};
ghost use Rattle.fleet_view.specs.FleetReplies.{AsksFleet, FleetReplies};

/// Over a shelf that shows what it holds, a run is a list of exchanges beside requests for one of the fleet's targets, which leave
/// the rows; where no reply is 500, 503 or 507, an agent is answered in it as if no other agent had asked.
pub fn fleet_runs_leave_agents_alone()
    ensures { RunsLeaveAgentsAlone FleetReplies AsksFleet }
{}
