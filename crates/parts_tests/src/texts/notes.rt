//! Notifications as texts. What reading gives was worked out by hand from the format's description,
//! and by a program of its own.

use crate::texts::values::{Edited, Orders};
use bench_types::{Call, Edit, Note, NotifyAction, Step};

/// An edit.
pub const EDITED: Edited = Edited {
    mutexes: 0,
    text: "{\"edit\":\"replace\",\"at\":7,\"step\":{\"do\":\"isr_notify\",\"core\":1,\"to\":\"B\",\"action\":\"set\",\"value\":4}}",
    edit: Edit::Replace {
        at: 7,
        step: Step::Interrupt {
            core: 1,
            note: Note {
                task: 3,
                action: NotifyAction::Set(4),
                index: 0,
            },
        },
    },
};

/// Steps, each with its members in two orders.
pub const ORDERS: Orders = Orders {
    mutexes: 0,
    rows: ROWS,
    steps: &[
        Step::Call {
            core: 0,
            task: 2,
            call: Call::Notify(Note {
                task: 3,
                action: NotifyAction::Nothing,
                index: 0,
            }),
        },
        Step::Call {
            core: 0,
            task: 2,
            call: Call::Notify(Note {
                task: 3,
                action: NotifyAction::SetBits(5),
                index: 0,
            }),
        },
        Step::Call {
            core: 1,
            task: 3,
            call: Call::Notify(Note {
                task: 3,
                action: NotifyAction::Increment,
                index: 0,
            }),
        },
        Step::Call {
            core: 0,
            task: 2,
            call: Call::Notify(Note {
                task: 3,
                action: NotifyAction::Set(7),
                index: 0,
            }),
        },
        Step::Call {
            core: 1,
            task: 3,
            call: Call::Notify(Note {
                task: 2,
                action: NotifyAction::SetNew(4_294_967_295),
                index: 0,
            }),
        },
        Step::Interrupt {
            core: 1,
            note: Note {
                task: 2,
                action: NotifyAction::Nothing,
                index: 0,
            },
        },
        Step::Interrupt {
            core: 0,
            note: Note {
                task: 3,
                action: NotifyAction::SetBits(4_294_967_295),
                index: 0,
            },
        },
        Step::Interrupt {
            core: 0,
            note: Note {
                task: 3,
                action: NotifyAction::Increment,
                index: 0,
            },
        },
        Step::Interrupt {
            core: 0,
            note: Note {
                task: 3,
                action: NotifyAction::Set(0),
                index: 0,
            },
        },
        Step::Interrupt {
            core: 0,
            note: Note {
                task: 3,
                action: NotifyAction::SetNew(9),
                index: 0,
            },
        },
        Step::Call {
            core: 1,
            task: 3,
            call: Call::NotifyWait {
                entry: 1,
                exit: 2,
                ticks: 3,
                index: 0,
            },
        },
        Step::Call {
            core: 0,
            task: 2,
            call: Call::NotifyTake {
                clear: true,
                ticks: 4_294_967_295,
                index: 0,
            },
        },
        Step::Call {
            core: 0,
            task: 2,
            call: Call::NotifyTake {
                clear: false,
                ticks: 0,
                index: 0,
            },
        },
        Step::Call {
            core: 0,
            task: 2,
            call: Call::StateClear { task: 3, index: 0 },
        },
        Step::Call {
            core: 0,
            task: 2,
            call: Call::ValueClear {
                task: 3,
                bits: 6,
                index: 0,
            },
        },
    ],
};

const ROWS: &str = r#"
{"do":"notify","core":0,"by":"A","to":"B","action":"none"} | {"action":"none","by":"A","core":0,"do":"notify","to":"B"}
{"do":"notify","core":0,"by":"A","to":"B","action":"set_bits","value":5} | {"action":"set_bits","by":"A","core":0,"do":"notify","to":"B","value":5}
{"do":"notify","core":1,"by":"B","to":"B","action":"increment"} | {"action":"increment","by":"B","core":1,"do":"notify","to":"B"}
{"do":"notify","core":0,"by":"A","to":"B","action":"set","value":7} | {"action":"set","by":"A","core":0,"do":"notify","to":"B","value":7}
{"value":4294967295,"action":"set_new","to":"A","by":"B","core":1,"do":"notify"} | {"action":"set_new","by":"B","core":1,"do":"notify","to":"A","value":4294967295}
{"do":"isr_notify","core":1,"to":"A","action":"none"} | {"action":"none","core":1,"do":"isr_notify","to":"A"}
{"do":"isr_notify","core":0,"to":"B","action":"set_bits","value":4294967295} | {"action":"set_bits","core":0,"do":"isr_notify","to":"B","value":4294967295}
{"action":"increment","to":"B","core":0,"do":"isr_notify"} | {"action":"increment","core":0,"do":"isr_notify","to":"B"}
{"do":"isr_notify","core":0,"to":"B","action":"set","value":0} | {"action":"set","core":0,"do":"isr_notify","to":"B","value":0}
{"do":"isr_notify","core":0,"to":"B","action":"set_new","value":9} | {"action":"set_new","core":0,"do":"isr_notify","to":"B","value":9}
{"do":"notify_wait","core":1,"by":"B","entry":1,"exit":2,"ticks":3} | {"by":"B","core":1,"do":"notify_wait","entry":1,"exit":2,"ticks":3}
{"do":"notify_take","core":0,"by":"A","clear":true,"ticks":4294967295} | {"by":"A","clear":true,"core":0,"do":"notify_take","ticks":4294967295}
{"do":"notify_take","core":0,"by":"A","clear":false,"ticks":0} | {"by":"A","clear":false,"core":0,"do":"notify_take","ticks":0}
{"do":"state_clear","core":0,"by":"A","to":"B"} | {"by":"A","core":0,"do":"state_clear","to":"B"}
{"do":"value_clear","core":0,"by":"A","to":"B","bits":6} | {"bits":6,"by":"A","core":0,"do":"value_clear","to":"B"}
"#;
