//! Calls that set a task's priority, affinity and preemption, as texts. What reading gives was
//! worked out by hand from the format's description, and by a program of its own.

use crate::texts::values::Edited;
use bench_types::{Call, Edit, Step};

/// An edit.
pub const EDITED: Edited = Edited {
    mutexes: 0,
    text: "{\"edit\":\"replace\",\"at\":7,\"step\":{\"do\":\"affinity_set\",\"core\":1,\"by\":\"A\",\"to\":\"B\",\"mask\":1}}",
    edit: Edit::Replace {
        at: 7,
        step: Step::Call {
            core: 1,
            task: 2,
            call: Call::AffinitySet { task: 3, mask: 1 },
        },
    },
};

/// A session of steps, and one whose members stand in another order.
pub const SESSIONS: &[&str] = &[
    "{\"format\":1,\"cores\":2,\"priorities\":5,\"slicing\":false,\"tick\":0,\"mutexes\":0,\"tasks\":[{\"name\":\"A\",\"priority\":2,\"mask\":3},{\"name\":\"B\",\"priority\":1,\"mask\":3}],\"steps\":[{\"do\":\"priority_set\",\"core\":0,\"by\":\"A\",\"to\":\"B\",\"priority\":4294967295},{\"do\":\"affinity_set\",\"core\":1,\"by\":\"B\",\"to\":\"A\",\"mask\":6},{\"do\":\"preempt_off\",\"core\":0,\"by\":\"A\",\"to\":\"A\"},{\"do\":\"preempt_on\",\"core\":1,\"by\":\"A\",\"to\":\"B\"}]}",
    "{\"cores\":2,\"format\":1,\"mutexes\":0,\"priorities\":5,\"slicing\":false,\"steps\":[{\"by\":\"A\",\"core\":0,\"do\":\"priority_set\",\"priority\":4294967295,\"to\":\"B\"},{\"by\":\"B\",\"core\":1,\"do\":\"affinity_set\",\"mask\":6,\"to\":\"A\"},{\"by\":\"A\",\"core\":0,\"do\":\"preempt_off\",\"to\":\"A\"},{\"by\":\"A\",\"core\":1,\"do\":\"preempt_on\",\"to\":\"B\"}],\"tasks\":[{\"mask\":3,\"name\":\"A\",\"priority\":2},{\"mask\":3,\"name\":\"B\",\"priority\":1}],\"tick\":0}",
];

/// The steps of both.
pub const SESSION_STEPS: &[Step] = &[
    Step::Call {
        core: 0,
        task: 2,
        call: Call::PrioritySet {
            task: 3,
            priority: 4_294_967_295,
        },
    },
    Step::Call {
        core: 1,
        task: 3,
        call: Call::AffinitySet { task: 2, mask: 6 },
    },
    Step::Call {
        core: 0,
        task: 2,
        call: Call::PreemptOff(2),
    },
    Step::Call {
        core: 1,
        task: 2,
        call: Call::PreemptOn(3),
    },
];
