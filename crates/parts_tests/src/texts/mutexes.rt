//! Calls that take and give mutexes, as texts. What reading gives was worked out by hand from the
//! format's description.

use crate::texts::values::{Edited, Orders};
use bench_types::{Call, Edit, Step};

/// An edit.
pub const EDITED: Edited = Edited {
    mutexes: 2,
    text: "{\"edit\":\"replace\",\"at\":7,\"step\":{\"do\":\"mutex_take\",\"core\":1,\"by\":\"B\",\"mutex\":1,\"ticks\":6}}",
    edit: Edit::Replace {
        at: 7,
        step: Step::Call {
            core: 1,
            task: 3,
            call: Call::MutexTake { mutex: 1, ticks: 6 },
        },
    },
};

/// Steps, each with its members in two orders.
pub const ORDERS: Orders = Orders {
    mutexes: 2,
    rows: ROWS,
    steps: &[
        Step::Call {
            core: 0,
            task: 2,
            call: Call::MutexTake { mutex: 1, ticks: 5 },
        },
        Step::Call {
            core: 1,
            task: 3,
            call: Call::MutexTake {
                mutex: 0,
                ticks: 4_294_967_295,
            },
        },
        Step::Call {
            core: 0,
            task: 2,
            call: Call::MutexGive(1),
        },
        Step::Call {
            core: 1,
            task: 3,
            call: Call::MutexGive(0),
        },
    ],
};

const ROWS: &str = r#"
{"do":"mutex_take","core":0,"by":"A","mutex":1,"ticks":5} | {"by":"A","core":0,"do":"mutex_take","mutex":1,"ticks":5}
{"ticks":4294967295,"mutex":0,"by":"B","core":1,"do":"mutex_take"} | {"by":"B","core":1,"do":"mutex_take","mutex":0,"ticks":4294967295}
{"do":"mutex_give","core":0,"by":"A","mutex":1} | {"by":"A","core":0,"do":"mutex_give","mutex":1}
{"mutex":0,"by":"B","core":1,"do":"mutex_give"} | {"by":"B","core":1,"do":"mutex_give","mutex":0}
"#;
