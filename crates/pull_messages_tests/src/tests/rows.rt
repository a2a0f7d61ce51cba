//! Bodies, and the texts of the messages that they are. The texts were made by another program.
use super::messages::Row;
use pull_messages::Field;
use pull_messages::MessageError::{Json, Missing, Wrong};

pub const REGISTRATIONS: &[Row] = &[
    (
        r#"{"AgentInformation":{}}"#,
        Ok(
            r#"{"AgentInformation":{"IPAddress":"","LCMVersion":"","NodeName":""},"ConfigurationNames":[],"RegistrationInformation":{"RegistrationMessageType":"ConfigurationRepository"}}"#,
        ),
    ),
    (
        r#"{"AgentInformation":{},"X":1}"#,
        Ok(
            r#"{"AgentInformation":{"IPAddress":"","LCMVersion":"","NodeName":""},"ConfigurationNames":[],"RegistrationInformation":{"RegistrationMessageType":"ConfigurationRepository"}}"#,
        ),
    ),
    (
        r#"{"AgentInformation":{"LCMVersion":"2.0","NodeName":"n","IPAddress":"a"}}"#,
        Ok(
            r#"{"AgentInformation":{"IPAddress":"a","LCMVersion":"2.0","NodeName":"n"},"ConfigurationNames":[],"RegistrationInformation":{"RegistrationMessageType":"ConfigurationRepository"}}"#,
        ),
    ),
    (
        r#" { "AgentInformation" : { "NodeName" : "n" } } "#,
        Ok(
            r#"{"AgentInformation":{"IPAddress":"","LCMVersion":"","NodeName":"n"},"ConfigurationNames":[],"RegistrationInformation":{"RegistrationMessageType":"ConfigurationRepository"}}"#,
        ),
    ),
    (
        r#"{"AgentInformation":{"LCMVersion":null,"NodeName":null,"IPAddress":null},"ConfigurationNames":null}"#,
        Ok(
            r#"{"AgentInformation":{"IPAddress":"","LCMVersion":"","NodeName":""},"ConfigurationNames":[],"RegistrationInformation":{"RegistrationMessageType":"ConfigurationRepository"}}"#,
        ),
    ),
    (
        r#"{"AgentInformation":{},"ConfigurationNames":[]}"#,
        Ok(
            r#"{"AgentInformation":{"IPAddress":"","LCMVersion":"","NodeName":""},"ConfigurationNames":[],"RegistrationInformation":{"RegistrationMessageType":"ConfigurationRepository"}}"#,
        ),
    ),
    (
        r#"{"AgentInformation":{},"ConfigurationNames":["Web","Web"]}"#,
        Ok(
            r#"{"AgentInformation":{"IPAddress":"","LCMVersion":"","NodeName":""},"ConfigurationNames":["Web","Web"],"RegistrationInformation":{"RegistrationMessageType":"ConfigurationRepository"}}"#,
        ),
    ),
    (
        r#"{"AgentInformation":{},"RegistrationInformation":17}"#,
        Ok(
            r#"{"AgentInformation":{"IPAddress":"","LCMVersion":"","NodeName":""},"ConfigurationNames":[],"RegistrationInformation":{"RegistrationMessageType":"ConfigurationRepository"}}"#,
        ),
    ),
    (
        r#"{"AgentInformation":{"NodeName":"a"},"AgentInformation":{"NodeName":"b"}}"#,
        Ok(
            r#"{"AgentInformation":{"IPAddress":"","LCMVersion":"","NodeName":"b"},"ConfigurationNames":[],"RegistrationInformation":{"RegistrationMessageType":"ConfigurationRepository"}}"#,
        ),
    ),
    (
        r#"{"AgentInformation":1,"AgentInformation":{}}"#,
        Ok(
            r#"{"AgentInformation":{"IPAddress":"","LCMVersion":"","NodeName":""},"ConfigurationNames":[],"RegistrationInformation":{"RegistrationMessageType":"ConfigurationRepository"}}"#,
        ),
    ),
    (
        r#"{"AgentInformation":{},"AgentInformation":1}"#,
        Err(Wrong(Field::AgentInformation)),
    ),
    (
        r#"{"agentinformation":{}}"#,
        Err(Missing(Field::AgentInformation)),
    ),
    ("{}", Err(Missing(Field::AgentInformation))),
    (
        r#"{"AgentInformation":null}"#,
        Err(Missing(Field::AgentInformation)),
    ),
    (
        r#"{"AgentInformation":[]}"#,
        Err(Wrong(Field::AgentInformation)),
    ),
    (
        r#"{"AgentInformation":"x"}"#,
        Err(Wrong(Field::AgentInformation)),
    ),
    (
        r#"{"AgentInformation":{"LCMVersion":2.0}}"#,
        Err(Wrong(Field::LCMVersion)),
    ),
    (
        r#"{"AgentInformation":{"NodeName":true,"LCMVersion":1}}"#,
        Err(Wrong(Field::LCMVersion)),
    ),
    (
        r#"{"AgentInformation":{"NodeName":{}}}"#,
        Err(Wrong(Field::NodeName)),
    ),
    (
        r#"{"AgentInformation":{"IPAddress":[]},"ConfigurationNames":1}"#,
        Err(Wrong(Field::IPAddress)),
    ),
    (
        r#"{"AgentInformation":{},"ConfigurationNames":"Web"}"#,
        Err(Wrong(Field::ConfigurationNames)),
    ),
    (
        r#"{"AgentInformation":{},"ConfigurationNames":{}}"#,
        Err(Wrong(Field::ConfigurationNames)),
    ),
    (
        r#"{"AgentInformation":{},"ConfigurationNames":[null]}"#,
        Err(Wrong(Field::ConfigurationNames)),
    ),
    (
        r#"{"AgentInformation":{},"ConfigurationNames":["a",1]}"#,
        Err(Wrong(Field::ConfigurationNames)),
    ),
    (
        r#"{"AgentInformation":{},"ConfigurationNames":[""]}"#,
        Err(Wrong(Field::ConfigurationNames)),
    ),
    ("[]", Err(Wrong(Field::Body))),
    (r#""x""#, Err(Wrong(Field::Body))),
    ("null", Err(Wrong(Field::Body))),
    ("17", Err(Wrong(Field::Body))),
    ("", Err(Json)),
    ("{", Err(Json)),
    (r#"{"AgentInformation":{}} x"#, Err(Json)),
    (r#"{"AgentInformation":{}}{}"#, Err(Json)),
    (r#"{"AgentInformation":{},}"#, Err(Json)),
    ("{AgentInformation:{}}", Err(Json)),
    (r#"{"AgentInformation":{},"X":01}"#, Err(Json)),
    (r#"{"AgentInformation":{},"X":1e999}"#, Err(Json)),
    (r#"{"AgentInformation":{},"X":-1e999}"#, Err(Json)),
    (
        r#"{"AgentInformation":{},"X":1e308}"#,
        Ok(
            r#"{"AgentInformation":{"IPAddress":"","LCMVersion":"","NodeName":""},"ConfigurationNames":[],"RegistrationInformation":{"RegistrationMessageType":"ConfigurationRepository"}}"#,
        ),
    ),
    (
        r#"{"AgentInformation":{},"X":340282366920938463463374607431768211456}"#,
        Ok(
            r#"{"AgentInformation":{"IPAddress":"","LCMVersion":"","NodeName":""},"ConfigurationNames":[],"RegistrationInformation":{"RegistrationMessageType":"ConfigurationRepository"}}"#,
        ),
    ),
    (r#"{"AgentInformation":{},"X":"\ud800"}"#, Err(Json)),
    (r#"{"AgentInformation":{},"X":"\udc00\ud800"}"#, Err(Json)),
    (
        r#"{"AgentInformation":{"NodeName":"\ud83d\ude00"}}"#,
        Ok(
            "{\"AgentInformation\":{\"IPAddress\":\"\",\"LCMVersion\":\"\",\"NodeName\":\"\u{1F600}\"},\"ConfigurationNames\":[],\"RegistrationInformation\":{\"RegistrationMessageType\":\"ConfigurationRepository\"}}",
        ),
    ),
    (
        r#"{"AgentInformation":{"NodeName":"\u0041\/\\\""}}"#,
        Ok(
            r#"{"AgentInformation":{"IPAddress":"","LCMVersion":"","NodeName":"A/\\\""},"ConfigurationNames":[],"RegistrationInformation":{"RegistrationMessageType":"ConfigurationRepository"}}"#,
        ),
    ),
    (r#"{"AgentInformation":{"NodeName":"\x41"}}"#, Err(Json)),
    ("{\"AgentInformation\":{\"NodeName\":\"a\tb\"}}", Err(Json)),
    (
        r#"{"Agent\u0049nformation":{}}"#,
        Ok(
            r#"{"AgentInformation":{"IPAddress":"","LCMVersion":"","NodeName":""},"ConfigurationNames":[],"RegistrationInformation":{"RegistrationMessageType":"ConfigurationRepository"}}"#,
        ),
    ),
    ("\u{FEFF}{\"AgentInformation\":{}}", Err(Json)),
];

pub const QUERIES: &[Row] = &[
    (r#"{"ClientStatus":[]}"#, Ok(r#"{"ClientStatus":[]}"#)),
    (
        r#"{"ClientStatus":[{}]}"#,
        Ok(
            r#"{"ClientStatus":[{"Checksum":"","ChecksumAlgorithm":"SHA-256","ConfigurationName":""}]}"#,
        ),
    ),
    (
        r#"{"ClientStatus":[{"Checksum":"","ConfigurationName":"Web","ChecksumAlgorithm":"SHA-256"}]}"#,
        Ok(
            r#"{"ClientStatus":[{"Checksum":"","ChecksumAlgorithm":"SHA-256","ConfigurationName":"Web"}]}"#,
        ),
    ),
    (
        r#"{"ClientStatus":[{"Checksum":"A"},{"ConfigurationName":"b"}]}"#,
        Ok(
            r#"{"ClientStatus":[{"Checksum":"A","ChecksumAlgorithm":"SHA-256","ConfigurationName":""},{"Checksum":"","ChecksumAlgorithm":"SHA-256","ConfigurationName":"b"}]}"#,
        ),
    ),
    (
        r#"{"ClientStatus":[{"ChecksumAlgorithm":"sha-256"},{"ChecksumAlgorithm":null}]}"#,
        Ok(
            r#"{"ClientStatus":[{"Checksum":"","ChecksumAlgorithm":"SHA-256","ConfigurationName":""},{"Checksum":"","ChecksumAlgorithm":"SHA-256","ConfigurationName":""}]}"#,
        ),
    ),
    ("{}", Err(Missing(Field::ClientStatus))),
    (
        r#"{"ClientStatus":null}"#,
        Err(Missing(Field::ClientStatus)),
    ),
    ("[]", Err(Wrong(Field::Body))),
    (r#"{"ClientStatus":{}}"#, Err(Wrong(Field::ClientStatus))),
    (
        r#"{"ClientStatus":[null]}"#,
        Err(Wrong(Field::ClientStatus)),
    ),
    (
        r#"{"ClientStatus":[{"Checksum":1},[]]}"#,
        Err(Wrong(Field::ClientStatus)),
    ),
    (
        r#"{"ClientStatus":[{"ConfigurationName":1},{"Checksum":1}]}"#,
        Err(Wrong(Field::Checksum)),
    ),
    (
        r#"{"ClientStatus":[{"ChecksumAlgorithm":1},{"ConfigurationName":1}]}"#,
        Err(Wrong(Field::ConfigurationName)),
    ),
    (
        r#"{"ClientStatus":[{"ChecksumAlgorithm":"SHA-1"}]}"#,
        Err(Wrong(Field::ChecksumAlgorithm)),
    ),
    (
        r#"{"ClientStatus":[{"ChecksumAlgorithm":"SHA-2567"}]}"#,
        Err(Wrong(Field::ChecksumAlgorithm)),
    ),
    (
        r#"{"ClientStatus":[{"ChecksumAlgorithm":["SHA-256"]}]}"#,
        Err(Wrong(Field::ChecksumAlgorithm)),
    ),
    ("{", Err(Json)),
];

pub const ANSWERS: &[Row] = &[
    (
        r#"{"NodeStatus":"Ok"}"#,
        Ok(r#"{"Details":[],"NodeStatus":"Ok"}"#),
    ),
    (
        r#"{"NodeStatus":"","Details":null}"#,
        Ok(r#"{"Details":[],"NodeStatus":""}"#),
    ),
    (
        r#"{"Details":[{"ConfigurationName":"Web","Status":"GetConfiguration"}],"NodeStatus":"GetConfiguration"}"#,
        Ok(
            r#"{"Details":[{"ConfigurationName":"Web","Status":"GetConfiguration"}],"NodeStatus":"GetConfiguration"}"#,
        ),
    ),
    (
        r#"{"NodeStatus":"Ok","Details":[{"Status":"Ok"},{"Status":"a","ConfigurationName":null}]}"#,
        Ok(
            r#"{"Details":[{"ConfigurationName":"","Status":"Ok"},{"ConfigurationName":"","Status":"a"}],"NodeStatus":"Ok"}"#,
        ),
    ),
    ("{}", Err(Missing(Field::NodeStatus))),
    (r#"{"NodeStatus":null}"#, Err(Missing(Field::NodeStatus))),
    (
        r#"{"NodeStatus":1,"Details":1}"#,
        Err(Wrong(Field::NodeStatus)),
    ),
    (
        r#"{"NodeStatus":"Ok","Details":{}}"#,
        Err(Wrong(Field::Details)),
    ),
    (
        r#"{"NodeStatus":"Ok","Details":["x"]}"#,
        Err(Wrong(Field::Details)),
    ),
    (
        r#"{"NodeStatus":"Ok","Details":[{}]}"#,
        Err(Missing(Field::Status)),
    ),
    (
        r#"{"NodeStatus":"Ok","Details":[{"Status":1}]}"#,
        Err(Wrong(Field::Status)),
    ),
    (
        r#"{"NodeStatus":"Ok","Details":[{},{"ConfigurationName":1}]}"#,
        Err(Wrong(Field::ConfigurationName)),
    ),
    (
        r#"{"NodeStatus":"Ok","Details":[{"Status":null},{"Status":1}]}"#,
        Err(Missing(Field::Status)),
    ),
    ("3", Err(Wrong(Field::Body))),
    ("", Err(Json)),
];

pub const REPORTS: &[Row] = &[
    (
        r#"{"JobId":"00000000-0000-0000-0000-000000000011"}"#,
        Ok(
            r#"{"ConfigurationVersion":"","EndTime":"","Errors":[],"JobId":"00000000-0000-0000-0000-000000000011","OperationType":"","RebootRequested":"","RefreshMode":"","ReportFormatVersion":"","StartTime":"","Status":"","StatusData":[]}"#,
        ),
    ),
    (
        r#"{"JobId":"0000000000000000000000000000000A"}"#,
        Ok(
            r#"{"ConfigurationVersion":"","EndTime":"","Errors":[],"JobId":"00000000-0000-0000-0000-00000000000a","OperationType":"","RebootRequested":"","RefreshMode":"","ReportFormatVersion":"","StartTime":"","Status":"","StatusData":[]}"#,
        ),
    ),
    (
        r#"{"JobId":"{00000000-0000-0000-0000-00000000000a}"}"#,
        Ok(
            r#"{"ConfigurationVersion":"","EndTime":"","Errors":[],"JobId":"00000000-0000-0000-0000-00000000000a","OperationType":"","RebootRequested":"","RefreshMode":"","ReportFormatVersion":"","StartTime":"","Status":"","StatusData":[]}"#,
        ),
    ),
    (
        r#"{"JobId":"URN:UUID:00000000-0000-0000-0000-000000000001"}"#,
        Ok(
            r#"{"ConfigurationVersion":"","EndTime":"","Errors":[],"JobId":"00000000-0000-0000-0000-000000000001","OperationType":"","RebootRequested":"","RefreshMode":"","ReportFormatVersion":"","StartTime":"","Status":"","StatusData":[]}"#,
        ),
    ),
    (
        r#"{"JobId":"00000000-0000-0000-0000-000000000001","OperationType":"o","RefreshMode":"r","Status":"s"}"#,
        Ok(
            r#"{"ConfigurationVersion":"","EndTime":"","Errors":[],"JobId":"00000000-0000-0000-0000-000000000001","OperationType":"o","RebootRequested":"","RefreshMode":"r","ReportFormatVersion":"","StartTime":"","Status":"s","StatusData":[]}"#,
        ),
    ),
    (
        r#"{"JobId":"00000000-0000-0000-0000-000000000001","ReportFormatVersion":"f","ConfigurationVersion":"v"}"#,
        Ok(
            r#"{"ConfigurationVersion":"v","EndTime":"","Errors":[],"JobId":"00000000-0000-0000-0000-000000000001","OperationType":"","RebootRequested":"","RefreshMode":"","ReportFormatVersion":"f","StartTime":"","Status":"","StatusData":[]}"#,
        ),
    ),
    (
        r#"{"JobId":"00000000-0000-0000-0000-000000000001","StartTime":"a","EndTime":"b","RebootRequested":"c"}"#,
        Ok(
            r#"{"ConfigurationVersion":"","EndTime":"b","Errors":[],"JobId":"00000000-0000-0000-0000-000000000001","OperationType":"","RebootRequested":"c","RefreshMode":"","ReportFormatVersion":"","StartTime":"a","Status":"","StatusData":[]}"#,
        ),
    ),
    (
        r#"{"JobId":"00000000-0000-0000-0000-000000000001","Errors":["x","y"],"StatusData":["z"]}"#,
        Ok(
            r#"{"ConfigurationVersion":"","EndTime":"","Errors":["x","y"],"JobId":"00000000-0000-0000-0000-000000000001","OperationType":"","RebootRequested":"","RefreshMode":"","ReportFormatVersion":"","StartTime":"","Status":"","StatusData":["z"]}"#,
        ),
    ),
    ("{}", Err(Missing(Field::JobId))),
    (r#"{"JobId":"x"}"#, Err(Wrong(Field::JobId))),
    (r#"{"JobId":1}"#, Err(Wrong(Field::JobId))),
    (
        r#"{"JobId":"0000000-00000-0000-0000-000000000001"}"#,
        Err(Wrong(Field::JobId)),
    ),
    (r#"{"OperationType":1}"#, Err(Missing(Field::JobId))),
    (
        r#"{"JobId":"00000000-0000-0000-0000-000000000001","OperationType":1,"RefreshMode":1}"#,
        Err(Wrong(Field::OperationType)),
    ),
    (
        r#"{"JobId":"00000000-0000-0000-0000-000000000001","RefreshMode":1,"Status":1}"#,
        Err(Wrong(Field::RefreshMode)),
    ),
    (
        r#"{"JobId":"00000000-0000-0000-0000-000000000001","EndTime":1,"StartTime":1}"#,
        Err(Wrong(Field::StartTime)),
    ),
    (
        r#"{"JobId":"00000000-0000-0000-0000-000000000001","RebootRequested":true}"#,
        Err(Wrong(Field::RebootRequested)),
    ),
    (
        r#"{"JobId":"00000000-0000-0000-0000-000000000001","Errors":[null],"StatusData":1}"#,
        Err(Wrong(Field::Errors)),
    ),
    (
        r#"{"JobId":"00000000-0000-0000-0000-000000000001","StatusData":"x"}"#,
        Err(Wrong(Field::StatusData)),
    ),
    ("[{}]", Err(Wrong(Field::Body))),
];
