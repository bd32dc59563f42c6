//! How many answers take how long.
use std::test::Fail;
use task_jobs::{Histogram, least_time};

/// A time of 5 lies in the interval from 4 to 7.
#[test]
fn one_time(rt: HostRuntime) -> Result<(), Fail> {
    let mut histogram = Histogram::none();
    histogram.add(5);
    assert_eq!(&rt;
        (
            histogram.counts[2],
            histogram.counts[3],
            histogram.counts[4]
        ),
        (0, 1, 0)
    );
    Ok(())
}

/// Each interval begins at twice the time of the one before it.
#[test]
fn least_times(rt: HostRuntime) -> Result<(), Fail> {
    assert_eq!(&rt; (least_time(0), least_time(1), least_time(2)), (0, 1, 2));
    assert_eq!(&rt; (least_time(5), least_time(64)), (16, 1 << 63));
    Ok(())
}
