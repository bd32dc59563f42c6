//! Codes of faults and refusals, and the cores of a mask.

use crate::expected::expect_text;
use bench_types::{EditFault, Fault, Refusal, cores_of_mask};
use std::process::Abort;

const FAULTS: &[(Fault, &str)] = &[
    (Fault::BadHeader, "F1"),
    (Fault::BadCore, "F2"),
    (Fault::BadTask, "F3"),
    (Fault::BadMutex, "F4"),
    (Fault::BadArgument, "F5"),
];

const REFUSALS: &[(Refusal, &str)] = &[
    (Refusal::Held, "E1"),
    (Refusal::Displaced, "E2"),
    (Refusal::SwitchDue, "E3"),
    (Refusal::InCall, "E4"),
    (Refusal::NotInCall, "E5"),
    (Refusal::HoldBlock, "E6"),
    (Refusal::NoHold, "E7"),
    (Refusal::HoldDeep, "E8"),
    (Refusal::NotHolder, "E9"),
    (Refusal::NotDue, "E10"),
];

fn check_code(rt: &impl Abort, fault: Fault, code: &str) {
    expect_text(rt, fault.code(), code);
    expect_text(rt, EditFault::from(fault).code(), code);
}

fn check_refusals(rt: &impl Abort) {
    for (refusal, code) in REFUSALS {
        expect_text(rt, refusal.code(), code);
    }
}

#[test]
fn codes(rt: HostRuntime) {
    for (fault, code) in FAULTS {
        check_code(&rt, *fault, code);
    }
    check_refusals(&rt);
    expect_text(&rt, EditFault::NoPlace.code(), "J1");
    expect_text(&rt, EditFault::TooLong.code(), "J2");
}

#[test]
fn cores_of_masks(rt: HostRuntime) {
    for (cores, mask, bits) in [
        (2, 0xFFFF_FFFF, 3),
        (8, 0x1FF, 0xFF),
        (8, 0x100, 0),
        (31, 0xFFFF_FFFF, 0x7FFF_FFFF),
        (32, 0xFFFF_FFFF, 0xFFFF_FFFF),
        (33, 0x8000_0000, 0x8000_0000),
    ] {
        assert_eq!(&rt; cores_of_mask(cores, mask), bits);
    }
}
