//! The bytes of format 2, and stores that were made elsewhere: they are read as their nodes, and the same events write the same here.
use crate::{HEAD, commit_to, file_of, kept_in, run};
use memory_outside::MemoryDisk;
use node_store::StoreError;
use std::alloc::{AllocError, Global};
use std::test::Fail;

// A new node: a Format, and the agent.
const NEW: &[u8] = b"\xA5\0\0\0\x02\x0F\x02\xA5\0\0\0\x11\x01\0\0\0\0\0\0\0\0\0\0\0\0\0\0\0\x10";

// What a document of 56 bytes adds: a Blob, in 94 bytes, and in 41 bytes a list of it.
const BLOB: &[u8] =
    b"\xA5\0\0\0Y\x10J>e\x13ao\x93\"\xE72\xAC|\xDA@[\xA0\xBB\xEFM\xDB\xF2\xEB1\xFBM\x04`$~[\xCA\xD3instance of OMI_ConfigurationDocument{Version=\"2.0.0\";};";

const LIST: &[u8] =
    b"\xA5\0\0\0$\x11\x01\0\0J>e\x13ao\x93\"\xE72\xAC|\xDA@[\xA0\xBB\xEFM\xDB\xF2\xEB1\xFBM\x04`$~[\xCA\xD3";

// The words of events, and the cells that a new store then has.
const CELLS: &[(&str, &[&[u8]])] = &[
    ("init", &[NEW]),
    ("init -", &[NEW, BLOB, LIST]),
    ("init - -", &[NEW, BLOB, LIST, LIST]),
];

// The file of a store of these cells.
fn joined(alloc: Global, cells: &[&[u8]]) -> Result<Vec<u8>, AllocError> {
    let mut file = HEAD.to_vec(alloc)?;
    for cell in cells {
        file.extend_from_slice(cell)?;
    }
    file.push(0)?;
    Ok(file)
}

#[test]
fn a_new_store_has_the_bytes_of_a_document_once(rt: HostRuntime) -> Result<(), Fail> {
    for (words, cells) in CELLS {
        let left = run(rt.alloc(), words, "")?;
        assert!(rt; left.bytes == joined(rt.alloc(), cells)?, "{words}");
    }
    Ok(())
}

// ---- stores that were made elsewhere

/// An event of a store: its body, or a list of one part that is staged, with its name behind the name's length.
#[derive(Clone, Copy)]
enum Told<'a> {
    Event(&'a [u8]),
    List {
        name: &'a [u8],
        digest: &'a [u8],
        document: &'a [u8],
    },
}

use Told::{Event, List};

// A node that registered, pulled twice, and sent its reports.
const PULLED: &[Told<'_>] = &[
    Event(b"\x01\0\0\0\0\0\0\0\0\0\0\0\0\0\0\0\x10"),
    Event(
        b"\x02instance of MSFT_DSCMetaConfiguration\n{\n ConfigurationMode = \"ApplyAndAutoCorrect\";\n RefreshMode = \"Pull\";\n RebootNodeIfNeeded = FALSE;\n ActionAfterReboot = \"StopConfiguration\";\n ConfigurationModeFrequencyMins = 15;\n RefreshFrequencyMins = 30;\n AllowModuleOverwrite = FALSE;\n};\ninstance of MSFT_WebDownloadManager\n{\n ServerURL = \"http://127.0.0.1:18081/PSDSCPullServer.svc\";\n RegistrationKey = \"k\";\n ConfigurationNames = {};\n};\ninstance of MSFT_WebReportManager\n{\n ServerURL = \"http://127.0.0.1:18081/PSDSCPullServer.svc\";\n RegistrationKey = \"k\";\n};\ninstance of MSFT_PartialConfiguration\n{\n ResourceID = \"[PartialConfiguration]Base\";\n DependsOn = {};\n ExclusiveResources = {};\n RefreshMode = \"Pull\";\n};\n",
    ),
    Event(b"\x03"),
    List {
        name: b"\0\x04Base",
        digest: b"P\x83\xE6\x94\xC8D\xA6\xC6\x14\xB0\x98y\xB58\xBF\xB9}\x83S\x87\xB7[v\xE6\x84\xF2\xC55\xE0\xA2\xEC]",
        document: b"instance of Other as $o\n{\n X = $o;\n};\ninstance of OMI_ConfigurationDocument\n{\n};\n",
    },
    Event(
        b"\x05\0\0\0\0\0\0\0\x01\x01\x01\0\0\0\0\0\0\0\0\0\0\0\0\0\0\0\0\0\0\0\0\0\0\0\0\0\0\0\0\x01\0\x04BaseP\x83\xE6\x94\xC8D\xA6\xC6\x14\xB0\x98y\xB58\xBF\xB9}\x83S\x87\xB7[v\xE6\x84\xF2\xC55\xE0\xA2\xEC]",
    ),
    Event(b"\x09\0\0\0\0\0\0\0\x01"),
    Event(
        b"\x06\0\0\0\0\0\0\0\x02\0\x01\0\0\0\0\0\0\0\0\0\0\0\0\0\0\0\0\0\0\0\0\0\0\0\0\0\0\0\0\x01\0\x04BaseP\x83\xE6\x94\xC8D\xA6\xC6\x14\xB0\x98y\xB58\xBF\xB9}\x83S\x87\xB7[v\xE6\x84\xF2\xC55\xE0\xA2\xEC]",
    ),
    Event(b"\x09\0\0\0\0\0\0\0\x02"),
];

// A node that was rebooted in the middle of a run.
const REBOOTED: &[Told<'_>] = &[
    Event(b"\x01\0\0\0\0\0\0\0\0\0\0\0\0\0\0\0\x10"),
    Event(
        b"\x02instance of MSFT_DSCMetaConfiguration\n{\n ConfigurationMode = \"ApplyAndMonitor\";\n RefreshMode = \"Push\";\n RebootNodeIfNeeded = FALSE;\n ActionAfterReboot = \"StopConfiguration\";\n ConfigurationModeFrequencyMins = 15;\n RefreshFrequencyMins = 30;\n AllowModuleOverwrite = FALSE;\n};\n",
    ),
    List {
        name: b"\0\0",
        digest: b"\xAAr\x9A\x1A\xEB.L\n\x15\xB6f\"JA\xF4;\xEA\\C\xBC6\xACx\xFF\xB6\x83\xCA\x86y\xD1\xF1\xB2",
        document: b"instance of MSFT_FileDirectoryConfiguration\n{\n DestinationPath = \"/f1/g\";\n Type = \"Directory\";\n ResourceID = \"[N]1\";\n};\ninstance of MSFT_LogResource\n{\n Message = \"n\";\n ResourceID = \"[File]0\";\n};\ninstance of OMI_ConfigurationDocument\n{\n Version = \"2.0.0\";\n};\n",
    },
    Event(
        b"\x07\0\0\0\0\0\0\0\x01\x01\0\0\0\0\0\0\0\0\0\0\0\0\0\0\0\0\0\0\x052.0.0\x02\0\0\0\x02\0\0\0\x01\x01\0\x07[File]0\x02\x01\0\0\xAAr\x9A\x1A\xEB.L\n\x15\xB6f\"JA\xF4;\xEA\\C\xBC6\xACx\xFF\xB6\x83\xCA\x86y\xD1\xF1\xB2",
    ),
    Event(b"\x08"),
    Event(
        b"\x05\0\0\0\0\0\0\0\x02\x01\0\0\0\0\0\0\0\0\0\0\0\0\0\0\0\0\0\0\x052.0.0\0\0\0\0\x02\0\0\0\0\0\x01\0\0\xAAr\x9A\x1A\xEB.L\n\x15\xB6f\"JA\xF4;\xEA\\C\xBC6\xACx\xFF\xB6\x83\xCA\x86y\xD1\xF1\xB2",
    ),
];

// A node that went a step back.
const RESTORED: &[Told<'_>] = &[
    Event(b"\x01\0\0\0\0\0\0\0\0\0\0\0\0\0\0\0\x10"),
    Event(
        b"\x02instance of MSFT_DSCMetaConfiguration\n{\n ConfigurationMode = \"ApplyAndMonitor\";\n RefreshMode = \"Push\";\n RebootNodeIfNeeded = TRUE;\n ActionAfterReboot = \"StopConfiguration\";\n ConfigurationModeFrequencyMins = 15;\n RefreshFrequencyMins = 30;\n AllowModuleOverwrite = FALSE;\n};\n",
    ),
    List {
        name: b"\0\0",
        digest: b"\xF4\xBD\x80\xC0\0\xA8\xECU\x81\xFA\xA8\xB1E\x180=\xC4\x91r\nkZg\xF6,(0\x83V\x06\x1B\x03",
        document: b"instance of MSFT_FileDirectoryConfiguration\n{\n DestinationPath = \"/f0/g\";\n Contents = \"\xC3\xA9\";\n ResourceID = \"[File]0\";\n};\ninstance of MSFT_EnvironmentResource\n{\n Name = \"Path\";\n Value = \"\xC3\xA9\";\n Path = TRUE;\n ResourceID = \"[N]1\";\n};\ninstance of MSFT_EnvironmentResource\n{\n Name = \"V\";\n Value = \"1\";\n ResourceID = \"[N]2\";\n DependsOn = {\"[N]1\", \"[File]0\"};\n};\ninstance of MSFT_LogResource\n{\n Message = \"n\";\n ResourceID = \"[N]3\";\n};\ninstance of OMI_ConfigurationDocument\n{\n Version = \"2.0.0\";\n};\n",
    },
    Event(
        b"\x05\0\0\0\0\0\0\0\x01\x01\0\0\0\0\0\0\0\0\0\0\0\0\0\0\0\0\0\0\x052.0.0\0\0\0\0\x04\0\0\0\0\0\x01\0\0\xF4\xBD\x80\xC0\0\xA8\xECU\x81\xFA\xA8\xB1E\x180=\xC4\x91r\nkZg\xF6,(0\x83V\x06\x1B\x03",
    ),
    Event(b"\n\0"),
    List {
        name: b"\0\0",
        digest: b"\x1A\xE2b\xEB\xBC~Z\x0Ba\xB6C\x7F \xAB9\xE9\xE2=\xB3\xA81\x0D\x096\x80\xC9IAe\xCC\xC0\xEC",
        document: b"instance of OMI_ConfigurationDocument\n{\n Version = \"2.0.0\";\n};\n",
    },
    Event(
        b"\x05\0\0\0\0\0\0\0\x02\x01\0\0\0\0\0\0\0\0\0\0\0\0\0\0\0\0\0\0\x052.0.0\0\0\0\0\0\0\0\0\0\0\x01\0\0\x1A\xE2b\xEB\xBC~Z\x0Ba\xB6C\x7F \xAB9\xE9\xE2=\xB3\xA81\x0D\x096\x80\xC9IAe\xCC\xC0\xEC",
    ),
    Event(b"\x0B"),
    Event(
        b"\x05\0\0\0\0\0\0\0\x03\x01\0\0\0\0\0\0\0\0\0\0\0\0\0\0\0\0\0\0\x052.0.0\0\0\0\0\x04\0\0\0\0\0\x01\0\0\xF4\xBD\x80\xC0\0\xA8\xECU\x81\xFA\xA8\xB1E\x180=\xC4\x91r\nkZg\xF6,(0\x83V\x06\x1B\x03",
    ),
];

const STORES: &[(&[Told<'_>], &str)] = &[
    (PULLED, "agent server registered current Base s1 s2 job 3"),
    (REBOOTED, "agent current  r1 r2 job 3"),
    (RESTORED, "agent current  previous  r1 r2 r3 job 4"),
];

// The bodies of format 1.
fn in_full(alloc: Global, events: &[Told<'_>]) -> Result<Vec<Vec<u8>>, AllocError> {
    let mut bodies = Vec::new(alloc);
    for event in events {
        bodies.push(body_in_full(alloc, *event)?)?;
    }
    Ok(bodies)
}

fn body_in_full(alloc: Global, event: Told<'_>) -> Result<Vec<u8>, AllocError> {
    match event {
        Event(body) => body.to_vec(alloc),
        List {
            name,
            digest,
            document,
        } => {
            let length = u32::try_from(document.len()).unwrap_or(u32::MAX);
            let mut body = joined_body(alloc, b"\x04\x01", name, digest)?;
            body.extend_from_slice(&length.to_be_bytes())?;
            body.extend_from_slice(document)?;
            Ok(body)
        }
    }
}

fn joined_body(
    alloc: Global,
    first: &[u8],
    second: &[u8],
    third: &[u8],
) -> Result<Vec<u8>, AllocError> {
    let mut body = first.to_vec(alloc)?;
    body.extend_from_slice(second)?;
    body.extend_from_slice(third)?;
    Ok(body)
}

// The bodies of format 2, where no document is staged twice.
fn by_digests(alloc: Global, events: &[Told<'_>]) -> Result<Vec<Vec<u8>>, AllocError> {
    let mut bodies = Vec::new(alloc);
    bodies.push(b"\x0F\x02".to_vec(alloc)?)?;
    for event in events {
        push_by_digests(&mut bodies, alloc, *event)?;
    }
    Ok(bodies)
}

fn push_by_digests(
    bodies: &mut Vec<Vec<u8>>,
    alloc: Global,
    event: Told<'_>,
) -> Result<(), AllocError> {
    match event {
        Event(body) => bodies.push(body.to_vec(alloc)?)?,
        List {
            name,
            digest,
            document,
        } => {
            bodies.push(joined_body(alloc, b"\x10", digest, document)?)?;
            bodies.push(joined_body(alloc, b"\x11\x01", name, digest)?)?;
        }
    }
    Ok(())
}

// Whether a file of these bodies keeps this.
fn is_read(alloc: Global, bodies: &[Vec<u8>], wanted: &str) -> Result<bool, StoreError> {
    Ok(kept_in(alloc, file_of(alloc, bodies)?)?.as_str() == wanted)
}

// Whether the events leave a file of their bodies in format 2.
fn is_written(alloc: Global, events: &[Told<'_>], wanted: &str) -> Result<bool, StoreError> {
    let disk = MemoryDisk::new(Vec::new(alloc), Vec::new(alloc))?;
    let left = commit_to(alloc, disk, &in_full(alloc, events)?)?;
    let is_done = left.answer == Ok(()) && left.line.as_str() == wanted;
    Ok(is_done && left.bytes == file_of(alloc, &by_digests(alloc, events)?)?)
}

#[test]
fn a_store_that_was_made_elsewhere_is_written_and_read_the_same(
    rt: HostRuntime,
) -> Result<(), Fail> {
    for (events, wanted) in STORES {
        assert!(rt;
            is_read(rt.alloc(), &in_full(rt.alloc(), events)?, wanted)?,
            "{wanted}"
        );
        assert!(rt;
            is_read(rt.alloc(), &by_digests(rt.alloc(), events)?, wanted)?,
            "{wanted}"
        );
        assert!(rt; is_written(rt.alloc(), events, wanted)?, "{wanted}");
    }
    Ok(())
}
