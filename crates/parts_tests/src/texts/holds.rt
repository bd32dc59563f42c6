//! Calls that delay until a tick count, and calls that open and close a hold, as texts. What
//! reading gives was worked out by hand from the format's description.

use crate::texts::values::{Edited, Orders};
use bench_types::{Call, Edit, Step};

/// An edit.
pub const EDITED: Edited = Edited {
    mutexes: 0,
    text: "{\"edit\":\"replace\",\"at\":7,\"step\":{\"do\":\"delay_until\",\"core\":1,\"by\":\"B\",\"prev\":6,\"inc\":2}}",
    edit: Edit::Replace {
        at: 7,
        step: Step::Call {
            core: 1,
            task: 3,
            call: Call::DelayUntil { prev: 6, inc: 2 },
        },
    },
};

/// Steps, each with its members in two orders.
pub const ORDERS: Orders = Orders {
    mutexes: 0,
    rows: ROWS,
    steps: &[
        Step::Call {
            core: 0,
            task: 2,
            call: Call::DelayUntil { prev: 5, inc: 3 },
        },
        Step::Call {
            core: 1,
            task: 3,
            call: Call::DelayUntil {
                prev: 4_294_967_295,
                inc: 1,
            },
        },
        Step::Call {
            core: 1,
            task: 2,
            call: Call::DelayUntil {
                prev: 0,
                inc: 4_294_967_295,
            },
        },
        Step::Call {
            core: 0,
            task: 2,
            call: Call::HoldOpen,
        },
        Step::Call {
            core: 1,
            task: 3,
            call: Call::HoldOpen,
        },
        Step::Call {
            core: 1,
            task: 2,
            call: Call::HoldClose,
        },
        Step::Call {
            core: 0,
            task: 3,
            call: Call::HoldClose,
        },
    ],
};

const ROWS: &str = r#"
{"do":"delay_until","core":0,"by":"A","prev":5,"inc":3} | {"by":"A","core":0,"do":"delay_until","inc":3,"prev":5}
{"inc":1,"prev":4294967295,"by":"B","core":1,"do":"delay_until"} | {"by":"B","core":1,"do":"delay_until","inc":1,"prev":4294967295}
{"do":"delay_until","core":1,"by":"A","prev":0,"inc":4294967295} | {"by":"A","core":1,"do":"delay_until","inc":4294967295,"prev":0}
{"do":"hold_open","core":0,"by":"A"} | {"by":"A","core":0,"do":"hold_open"}
{"by":"B","do":"hold_open","core":1} | {"by":"B","core":1,"do":"hold_open"}
{"do":"hold_close","core":1,"by":"A"} | {"by":"A","core":1,"do":"hold_close"}
{"core":0,"do":"hold_close","by":"B"} | {"by":"B","core":0,"do":"hold_close"}
"#;
