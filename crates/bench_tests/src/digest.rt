//! Random sessions against numbers that a program apart from this one computed.

use crate::random::{Mix, Played, random_session};
use crate::samples::assert_same;
use bench_types::{Refusal, Reply, Row};
use std::process::Abort;
use std::test::Fail;

fn code_of(why: Refusal) -> u32 {
    match why {
        Refusal::Held => 1,
        Refusal::Displaced => 2,
        Refusal::SwitchDue => 3,
        Refusal::InCall => 4,
        Refusal::NotInCall => 5,
        Refusal::HoldBlock => 6,
        Refusal::NoHold => 7,
        Refusal::HoldDeep => 8,
        Refusal::NotHolder => 9,
        Refusal::NotDue => 10,
    }
}

fn with_reply(digest: u32, reply: Reply) -> u32 {
    match reply {
        Reply::Done => with(digest, &[0]),
        Reply::Blocked => with(digest, &[1]),
        Reply::Flag(flag) => with(digest, &[11, u32::from(flag)]),
        Reply::Value(value) => with(digest, &[12, value]),
        Reply::Waited { ok, value } => with(digest, &[13, u32::from(ok), value]),
        Reply::Until { delayed, wake } => with(digest, &[15, u32::from(delayed), wake]),
        Reply::Isr { pass, pend } => with(digest, &[14, u32::from(pass), u32::from(pend)]),
        Reply::Refused(why) => with(digest, &[code_of(why)]),
    }
}

// The digest with the numbers after it.
fn with(digest: u32, numbers: &[u32]) -> u32 {
    let mut digest = digest;
    for number in numbers {
        digest = digest.wrapping_mul(31).wrapping_add(*number);
    }
    digest
}

// A program that was written apart from this one, over a flat table, computed the digests and the
// last tick counts.
#[test]
fn two_thousand_steps(rt: HostRuntime) -> Result<(), Fail> {
    for (mix, expected) in &[
        (Mix::Nothing, (370_025_982, 32, 2000)),
        (Mix::Notes(1), (33_837_225, 20, 2000)),
        (Mix::Notes(8), (2_721_003_482, 31, 2000)),
        (Mix::Suspensions, (1_400_125_553, 20, 2000)),
    ] {
        check_digest(&rt, &random_session(&rt, &rt, 2000, *mix)?, expected);
    }
    Ok(())
}

fn check_digest(rt: &impl Abort, played: &Played, expected: &(u32, u32, u64)) {
    let digest = digest_of(&played.outcomes);
    let made = (digest, played.kernel.tick(), played.meter.count());
    assert_same(rt, "digest, tick and count", &made, expected);
}

fn digest_of(outcomes: &[(Reply, Row)]) -> u32 {
    let mut digest = 0;
    for (reply, tasks) in outcomes {
        digest = with(with_reply(digest, *reply), tasks.as_slice());
    }
    digest
}
