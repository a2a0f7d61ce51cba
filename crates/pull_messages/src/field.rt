//! The fields that a refusal names.
ghost use Rattle.std.specs.Prelude.{◌≡◌};
ghost use Rattle.pull_messages.specs.Names.{name_of};

use std::fmt;

/// A member of a message, its body as a whole, or a header of the request that carried it.
#[derive(Clone, Copy, Debug, PartialEq, Eq)]
pub enum Field {
    AgentInformation,
    LCMVersion,
    NodeName,
    IPAddress,
    ConfigurationNames,
    RegistrationInformation,
    ClientStatus,
    Checksum,
    ConfigurationName,
    ChecksumAlgorithm,
    NodeStatus,
    Details,
    Status,
    JobId,
    OperationType,
    RefreshMode,
    ReportFormatVersion,
    ConfigurationVersion,
    StartTime,
    EndTime,
    RebootRequested,
    Errors,
    StatusData,
    Body,
    ProtocolVersion,
}

impl Field {
    /// The name as a message or a header spells it.
    pub fn name(self) -> &'static str
        ensures { result.now ≡ name_of self }
    {
        match self {
            Field::AgentInformation => "AgentInformation",
            Field::LCMVersion => "LCMVersion",
            Field::NodeName => "NodeName",
            Field::IPAddress => "IPAddress",
            Field::ConfigurationNames => "ConfigurationNames",
            Field::RegistrationInformation => "RegistrationInformation",
            Field::ClientStatus => "ClientStatus",
            Field::Checksum => "Checksum",
            Field::ConfigurationName => "ConfigurationName",
            Field::ChecksumAlgorithm => "ChecksumAlgorithm",
            Field::NodeStatus => "NodeStatus",
            Field::Details => "Details",
            Field::Status => "Status",
            Field::JobId => "JobId",
            Field::OperationType => "OperationType",
            Field::RefreshMode => "RefreshMode",
            Field::ReportFormatVersion => "ReportFormatVersion",
            Field::ConfigurationVersion => "ConfigurationVersion",
            Field::StartTime => "StartTime",
            Field::EndTime => "EndTime",
            Field::RebootRequested => "RebootRequested",
            Field::Errors => "Errors",
            Field::StatusData => "StatusData",
            Field::Body => "Body",
            Field::ProtocolVersion => "ProtocolVersion",
        }
    }
}

impl fmt::Display for Field {
    fn fmt<W: fmt::Write>(&self, f: &mut fmt::Formatter<W>) -> fmt::Result {
        f.write_str(self.name())
    }
}
