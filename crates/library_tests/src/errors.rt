//! What errors print.

use aql_packet::{PacketId, QueueId};
use hsail_reader::{ReadCause, ReadError, ReadFault};
use kernel_check::{CheckCause, CheckError, CheckFault};
use queue_error::{FaultPlace, QueueError, Rule, SegmentAddress};
use regions::RegionFault;
use signals::UnknownSignal;
use std::process::Abort;
use std::test::*;

const RULES: [(Rule, &str); 18] = [
    (Rule::L1, "L1"),
    (Rule::L2, "L2"),
    (Rule::L3, "L3"),
    (Rule::L4, "L4"),
    (Rule::L5, "L5"),
    (Rule::L6, "L6"),
    (Rule::L7, "L7"),
    (Rule::L8, "L8"),
    (Rule::L9, "L9"),
    (Rule::L10, "L10"),
    (Rule::A1, "A1"),
    (Rule::A2, "A2"),
    (Rule::A3, "A3"),
    (Rule::A4, "A4"),
    (Rule::A5, "A5"),
    (Rule::A6, "A6"),
    (Rule::A7, "A7"),
    (Rule::B1, "B1"),
];

#[test]
fn each_rule_prints_its_name(rt: HostRuntime) -> Result<(), Fail> {
    for (rule, name) in RULES {
        assert_eq!(rt; rule.to_string(rt.alloc())?.as_str(), name);
    }
    Ok(())
}

#[test]
fn an_error_prints_with_and_without_a_place(rt: HostRuntime) -> Result<(), Fail> {
    let inside = FaultPlace {
        group: 1,
        item: 1,
        line: 9,
        address: Some(SegmentAddress::Global(0x1_0000_003d)),
    };
    let last = FaultPlace {
        group: 4_294_967_294,
        item: 1_023,
        line: 65_536,
        address: None,
    };
    let rows = [
        ("queue 1 packet 0 rule L8", 1, 0, Rule::L8, None),
        (
            "queue 1 packet 0 rule A3 group 1 item 1 line 9",
            1,
            0,
            Rule::A3,
            Some(inside),
        ),
        (
            "queue 64 packet 1099511627775 rule L10",
            64,
            1_099_511_627_775,
            Rule::L10,
            None,
        ),
        (
            "queue 2 packet 10 rule A5 group 4294967294 item 1023 line 65536",
            2,
            10,
            Rule::A5,
            Some(last),
        ),
    ];
    for (text, queue, packet, rule, place) in rows {
        let error = QueueError {
            queue: QueueId(queue),
            packet: PacketId(packet),
            rule,
            place,
        };
        assert_eq!(rt; error.to_string(rt.alloc())?.as_str(), text);
    }
    assert_eq!(rt;
        inside.to_string(rt.alloc())?.as_str(),
        "group 1 item 1 line 9"
    );
    Ok(())
}

const UNREAD: ReadFault = ReadFault {
    line: 4,
    column: 3,
    cause: ReadCause::NotInProfile,
};

fn check_told(rt: &(impl Abort + AllocGlobal), error: ReadError, wanted: &str) -> Result<(), Fail> {
    let told = format!(in rt.alloc(); "{error}")?;
    assert_eq!(rt; told.as_str(), wanted);
    Ok(())
}

#[test]
fn faults_of_texts_print_their_place(rt: HostRuntime) -> Result<(), Fail> {
    check_told(
        &rt,
        ReadError::Fault(UNREAD),
        "line 4, column 3: NotInProfile",
    )?;
    check_told(&rt, ReadError::OutOfMemory, "out of memory")
}

const REFUSED: CheckFault = CheckFault {
    line: 4,
    cause: CheckCause::UnknownLabel,
};

fn check_printed(
    rt: &(impl Abort + AllocGlobal),
    error: CheckError,
    wanted: &str,
) -> Result<(), Fail> {
    let text = format!(in rt.alloc(); "{error}")?;
    assert_eq!(rt; text.as_str(), wanted);
    Ok(())
}

#[test]
fn faults_of_kernels_print_their_place(rt: HostRuntime) -> Result<(), Fail> {
    check_printed(&rt, CheckError::Fault(REFUSED), "line 4: UnknownLabel")?;
    check_printed(&rt, CheckError::OutOfMemory, "out of memory")
}

#[test]
fn faults_of_memory_print_in_words(rt: HostRuntime) -> Result<(), Fail> {
    let rows = [
        (RegionFault::NoRegion, "no region at this address"),
        (RegionFault::PastEnd, "past the end of the region"),
    ];
    for (fault, text) in rows {
        assert_eq!(rt; format!(in rt.alloc(); "{fault}")?.as_str(), text);
    }
    Ok(())
}

#[test]
fn an_unknown_signal_prints_its_name(rt: HostRuntime) -> Result<(), Fail> {
    let printed = UnknownSignal.to_string(rt.alloc())?;
    assert_eq!(rt; printed.as_str(), "UnknownSignal");
    Ok(())
}
