//! That ample memory is enough for requests of each size, for as many agents as there may be, and for any keys.
use super::running::{Shelved, first_other_over};
use super::steps::{Asked, Query, Said, Step, Wanted};
use std::alloc::Global;
use std::rt::HostRuntime;
use std::test::Fail;

// A request of the agent 1, of whose answer the code is wanted.
fn coded(asked: Asked, code: u16) -> Step {
    Step {
        first: 1,
        count: 1,
        asked,
        code,
        wanted: Wanted::Code,
    }
}

// A registration: the bytes of its version and of its node's name, how many names there are and the bytes of the first, its
// code and its signature.
fn said(
    (version, node): (usize, usize),
    (names, first): (usize, usize),
    code: u16,
    signature: &'static str,
) -> Step {
    let said = Said {
        version,
        node,
        names,
        first,
        signature,
    };
    coded(Asked::Registration(said), code)
}

// Bodies of 76 to 131,072 bytes. The last leaves the agent nine names, which stand on the shelf.
fn registrations() -> [Step; 14] {
    [
        said(
            (0, 0),
            (0, 0),
            204,
            "5KBfqCD3vDC1wFJQxFLpqxtEvNn3yBJNH2Bu5tV+F3M=",
        ),
        said(
            (1, 1),
            (1, 1),
            204,
            "ljg/L8z2Fi2rQoVSraVbcQl58o5OHIOETWx5OjTswMI=",
        ),
        said(
            (2, 2),
            (7, 63),
            204,
            "hvI/f2K4h81F6LvO/NU66XDYNsFSE11wGpRWx3iHPN8=",
        ),
        said(
            (63, 64),
            (15, 64),
            204,
            "MX9EfQT5sWEV60eALPxpUrz4iNIZfopEvpB4wlPvQj8=",
        ),
        said(
            (65, 127),
            (16, 1),
            204,
            "PQOUjHPcP1D8KT49/K40oDLraCgtXidAn4WBBiTigeA=",
        ),
        said(
            (128, 255),
            (16, 240),
            204,
            "uA/AqFEWaGHuzbOXaBm+CijDI/MyWw047ib7FXW64g0=",
        ),
        said(
            (4_096, 4_095),
            (16, 128),
            204,
            "DqWbxqmuuHjDRSahriOzqexjboXLy5Em3S/8T1gwpI4=",
        ),
        said(
            (65_535, 65_461),
            (0, 0),
            204,
            "y7kjAehqLUxqIYVFET+JbxhwcuA7DK8z1V+vYAQSz4Y=",
        ),
        said(
            (65_535, 61_454),
            (16, 240),
            204,
            "9KPw5BhWIxE4u7NFpMiRqgqNL3WydaattNt25ahgamY=",
        ),
        said(
            (65_536, 0),
            (0, 0),
            400,
            "RIEz4C3jjuisCX/2FR+wgVEwF/M411/LGtJe3oGGM6c=",
        ),
        said(
            (0, 0),
            (16, 241),
            400,
            "MCK5xod2BL5Iutse7LODDpkowtInVF4sK0z6aDwBgqY=",
        ),
        said(
            (0, 0),
            (17, 1),
            400,
            "O0RUVMnklcu6cEgKrtV4VUkW2F1LoJ8PePzOgIHEajw=",
        ),
        said(
            (0, 0),
            (500, 0),
            400,
            "aqekDkXWLFxctLYC35uIZvR6AUEImgbyhx2W/i8aCm8=",
        ),
        said(
            (1, 1),
            (9, 1),
            204,
            "9U9o/j7ZHwznrmpLtgWbdOiz/XgA87K8GC7B2i5vufo=",
        ),
    ]
}

// A report of that many errors and one text of that many bytes.
fn report(errors: usize, data: usize) -> Step {
    coded(Asked::Report(errors, data), 200)
}

// Bodies of 78, 1,024, 65,536 and 131,072 bytes.
fn reports() -> [Step; 6] {
    [
        report(0, 0),
        report(0, 946),
        report(0, 65_458),
        report(0, 130_994),
        report(1_000, 126_995),
        report(32_000, 2_995),
    ]
}

// A query of that many clients, with names and checksums of that many bytes, and the status of each.
fn query((clients, name, checksum): (usize, usize, usize), status: &'static str) -> Step {
    let query = Query {
        clients,
        name,
        checksum,
    };
    Step {
        first: 1,
        count: 1,
        asked: Asked::Action(query),
        code: 200,
        wanted: Wanted::Status(query, status),
    }
}

// A query of more clients than there may be.
fn many(clients: usize, name: usize) -> Step {
    let query = Query {
        clients,
        name,
        checksum: 0,
    };
    coded(Asked::Action(query), 400)
}

// Bodies of 58 to 131,072 bytes. The contents of names of one to nine bytes are there, and no other.
fn queries() -> [Step; 11] {
    [
        query((1, 1, 0), "GetConfiguration"),
        query((1, 6, 64), "GetConfiguration"),
        query((1, 9, 131_006), "GetConfiguration"),
        query((1, 131_015, 0), "RETRY"),
        query((7, 7, 63), "GetConfiguration"),
        query((7, 18_683, 0), "RETRY"),
        query((16, 8, 64), "GetConfiguration"),
        query((16, 8_151, 0), "RETRY"),
        many(17, 1),
        many(64, 2_008),
        many(1_000, 92),
    ]
}

// A content or a package of that many bytes, under the checksum that `hashlib` of Python gives of that many bytes `c`.
fn item(asked: Asked, size: usize, checksum: &'static str) -> Step {
    Step {
        first: 1,
        count: 1,
        asked,
        code: 200,
        wanted: Wanted::Item(size, checksum),
    }
}

fn contents() -> [Step; 9] {
    [
        item(
            Asked::Content(1),
            0,
            "E3B0C44298FC1C149AFBF4C8996FB92427AE41E4649B934CA495991B7852B855",
        ),
        item(
            Asked::Content(2),
            1,
            "2E7D2C03A9507AE265ECF5B5356885A53393A2029D241394997265A1A25AEFC6",
        ),
        item(
            Asked::Content(3),
            63,
            "93378FDEA13E1D912D953FEDF1155ADF0C184626216BF333F9B4F50B704BFF63",
        ),
        item(
            Asked::Content(4),
            64,
            "52B6419D27BD7F547CEE3B92F8C17A908B8A49601ECBEC161E5030DE1DFE9E0A",
        ),
        item(
            Asked::Content(5),
            65,
            "B30855E510446AC34706C5ACAFEEDEFD5122FE9446B3F812DB11E1AC3B4D0CF2",
        ),
        item(
            Asked::Content(6),
            4_096,
            "3ABC94A93A42D0EEE5C8DDA0315F9F1343E2BA36B552AB512C435FD4989C1AC6",
        ),
        item(
            Asked::Content(7),
            65_537,
            "AAB12EB7C93A75D5AB51EDFC12012795E6A24A0FD731014E0FBAC02DC2C9673F",
        ),
        item(
            Asked::Content(8),
            1_048_576,
            "C5A3E27D1ED0F894843BCA3A5473C4BF0F76A19B6830A2E491292591613A12BF",
        ),
        item(
            Asked::Content(9),
            16_777_216,
            "194FFE2B26412215E7EAD5495702963823951FC17B18B58199A356C32F44F3AC",
        ),
    ]
}

fn packages() -> [Step; 8] {
    [
        item(
            Asked::Package(1),
            0,
            "E3B0C44298FC1C149AFBF4C8996FB92427AE41E4649B934CA495991B7852B855",
        ),
        item(
            Asked::Package(2),
            1,
            "2E7D2C03A9507AE265ECF5B5356885A53393A2029D241394997265A1A25AEFC6",
        ),
        item(
            Asked::Package(3),
            63,
            "93378FDEA13E1D912D953FEDF1155ADF0C184626216BF333F9B4F50B704BFF63",
        ),
        item(
            Asked::Package(4),
            64,
            "52B6419D27BD7F547CEE3B92F8C17A908B8A49601ECBEC161E5030DE1DFE9E0A",
        ),
        item(
            Asked::Package(5),
            65,
            "B30855E510446AC34706C5ACAFEEDEFD5122FE9446B3F812DB11E1AC3B4D0CF2",
        ),
        item(
            Asked::Package(6),
            4_096,
            "3ABC94A93A42D0EEE5C8DDA0315F9F1343E2BA36B552AB512C435FD4989C1AC6",
        ),
        item(
            Asked::Package(7),
            65_537,
            "AAB12EB7C93A75D5AB51EDFC12012795E6A24A0FD731014E0FBAC02DC2C9673F",
        ),
        item(
            Asked::Package(8),
            1_048_576,
            "C5A3E27D1ED0F894843BCA3A5473C4BF0F76A19B6830A2E491292591613A12BF",
        ),
    ]
}

// A shelf with one key, and configurations and packages of these sizes.
fn shelved<'a>(configurations: &'a [usize], packages: &'a [usize]) -> Shelved<'a> {
    Shelved {
        configurations,
        packages,
        keys: 1,
        place: 0,
    }
}

// The bytes of the contents whose names have one to nine bytes, and of the packages of the modules whose names have one to eight.
const SIZES: [usize; 9] = [0, 1, 63, 64, 65, 4_096, 65_537, 1_048_576, 16_777_216];

// Expects of a new server over such a shelf what the steps in front say, and then what the others say.
fn expect(alloc: Global, shelved: Shelved<'_>, front: &[Step], steps: &[Step]) -> Result<(), Fail> {
    match first_other_over(alloc, shelved, front, steps) {
        Ok(None) => Ok(()),
        Ok(Some(place)) => Err(Fail::new(format_args!("step {place} is answered otherwise"))),
        Err(error) => Err(Fail::new(format_args!("{error}"))),
    }
}

#[test]
fn reports_of_each_size_are_kept(rt: HostRuntime) -> Result<(), Fail> {
    expect(rt.alloc(), shelved(&[], &[]), &registrations(), &reports())
}

#[test]
fn queries_of_each_size_are_answered(rt: HostRuntime) -> Result<(), Fail> {
    expect(
        rt.alloc(),
        shelved(&[7; 9], &[]),
        &registrations(),
        &queries(),
    )
}

#[test]
fn contents_of_each_size_are_handed_out(rt: HostRuntime) -> Result<(), Fail> {
    expect(
        rt.alloc(),
        shelved(&SIZES, &[]),
        &registrations(),
        &contents(),
    )
}

#[test]
fn packages_of_each_size_are_handed_out(rt: HostRuntime) -> Result<(), Fail> {
    expect(
        rt.alloc(),
        shelved(&[], &SIZES[..8]),
        &registrations(),
        &packages(),
    )
}

// How many keys the shelf has, the place of the right one, and what a registration is answered.
fn keys() -> &'static [(usize, usize, u16)] {
    &[
        (0, 0, 401),
        (1, 0, 204),
        (1, 1, 401),
        (2, 1, 204),
        (63, 62, 204),
        (64, 0, 204),
        (64, 63, 204),
        (65, 0, 204),
        (65, 63, 204),
        (65, 64, 401),
    ]
}

fn with_keys(keys: usize, place: usize) -> Shelved<'static> {
    Shelved {
        configurations: &[],
        packages: &[],
        keys,
        place,
    }
}

#[test]
fn the_first_64_keys_count(rt: HostRuntime) -> Result<(), Fail> {
    for (count, place, code) in keys() {
        let step = said(
            (0, 0),
            (0, 0),
            *code,
            "5KBfqCD3vDC1wFJQxFLpqxtEvNn3yBJNH2Bu5tV+F3M=",
        );
        expect(rt.alloc(), with_keys(*count, *place), &[], &[step])?;
    }
    Ok(())
}

// The same, of that many agents from that number on.
fn of_agents(first: u32, count: u32, step: Step) -> Step {
    Step {
        first,
        count,
        asked: step.asked,
        code: step.code,
        wanted: step.wanted,
    }
}

// The registration of agents with one name of that many bytes.
fn named(first: u32, count: u32, name: usize, code: u16, signature: &'static str) -> Step {
    of_agents(first, count, said((1, 1), (1, name), code, signature))
}

// 512 agents, of which the first 200 have a name of one byte, the next 200 one of two, and the last 112 one of three.
fn agents() -> [Step; 3] {
    [
        named(
            1,
            200,
            1,
            204,
            "ljg/L8z2Fi2rQoVSraVbcQl58o5OHIOETWx5OjTswMI=",
        ),
        named(
            201,
            200,
            2,
            204,
            "jrfWD0xRdXQyRbPmNXmpKEMst7E6QA4u02mh0j4OTgM=",
        ),
        named(
            401,
            112,
            3,
            204,
            "wkC8404KOg5168Du/bgqPBMThUhwGQhm9z4scD59SkY=",
        ),
    ]
}

// What they are answered then, and what the 513th is.
fn among() -> [Step; 13] {
    let [empty, one, many, ..] = contents();
    [
        named(
            513,
            1,
            1,
            503,
            "ljg/L8z2Fi2rQoVSraVbcQl58o5OHIOETWx5OjTswMI=",
        ),
        of_agents(513, 1, coded(Asked::Content(1), 404)),
        of_agents(513, 1, coded(Asked::Report(0, 0), 404)),
        named(1, 1, 1, 204, "ljg/L8z2Fi2rQoVSraVbcQl58o5OHIOETWx5OjTswMI="),
        named(
            512,
            1,
            3,
            204,
            "wkC8404KOg5168Du/bgqPBMThUhwGQhm9z4scD59SkY=",
        ),
        named(
            513,
            1,
            1,
            503,
            "ljg/L8z2Fi2rQoVSraVbcQl58o5OHIOETWx5OjTswMI=",
        ),
        of_agents(1, 200, empty),
        of_agents(201, 200, one),
        of_agents(401, 112, many),
        of_agents(1, 200, coded(Asked::Content(2), 404)),
        of_agents(201, 200, coded(Asked::Content(3), 404)),
        of_agents(401, 112, coded(Asked::Content(1), 404)),
        of_agents(1, 512, report(0, 0)),
    ]
}

#[test]
fn a_server_has_512_agents(rt: HostRuntime) -> Result<(), Fail> {
    expect(rt.alloc(), shelved(&[0, 1, 63], &[]), &agents(), &among())
}
