//! How large a session may be.
ghost use Rattle.std.specs.Prelude.{◌≡◌};
ghost use Rattle.bench_types.specs.Limits.{min_cores, max_cores, max_priorities, max_tasks, max_messages, max_mutexes, max_notes, max_queues, max_units, max_steps, max_name, max_depth, max_takes, max_span, max_input};

/// The least number of cores.
pub const MIN_CORES: u32 = 2;

/// The greatest number of cores (`configNUMBER_OF_CORES`).
pub const MAX_CORES: u32 = 32;

/// The greatest number of priorities (`configMAX_PRIORITIES`).
pub const MAX_PRIORITIES: u32 = 32;

/// How many user tasks there are at most.
pub const MAX_TASKS: u32 = 512;

/// How many mutexes there are at most.
pub const MAX_MUTEXES: u32 = 32;

/// How many queues and semaphores there are at most.
pub const MAX_QUEUES: u32 = 32;

/// How many messages a queue holds at most (`UBaseType_t`).
pub const MAX_MESSAGES: u32 = 4_294_967_295;

/// How many notifications each task has at most (`configTASK_NOTIFICATION_ARRAY_ENTRIES`).
pub const MAX_NOTES: u32 = 8;

/// How many units of time a tick has at most.
pub const MAX_UNITS: u32 = 1_000_000;

/// How many steps a session has at most.
pub const MAX_STEPS: u32 = 1_000_000;

/// How many bytes the name of a task has at most: `configMAX_TASK_NAME_LEN` is 16, and counts the
/// closing zero byte (FreeRTOS Reference Manual, `xTaskCreate`).
pub const MAX_NAME: usize = 15;

/// How many times over a core may hold the kernel.
pub const MAX_DEPTH: u32 = 255;

/// How many times over a core may take a word of a lock pair.
pub const MAX_TAKES: u8 = 255;

/// The greatest span of checkpoints, in steps.
pub const MAX_SPAN: u32 = 1_000;

/// How many bytes of input a program reads at most.
pub const MAX_INPUT: usize = 268_435_456;

/// The limits of the code are those that contracts name. It does nothing: its contract is the law.
pub fn laws_of_limits()
    ensures least_cores { MIN_CORES ≡ min_cores }
    ensures cores { MAX_CORES ≡ max_cores }
    ensures priorities { MAX_PRIORITIES ≡ max_priorities }
    ensures tasks { MAX_TASKS ≡ max_tasks }
    ensures mutexes { MAX_MUTEXES ≡ max_mutexes }
    ensures queues { MAX_QUEUES ≡ max_queues }
    ensures messages { MAX_MESSAGES ≡ max_messages }
    ensures notes { MAX_NOTES ≡ max_notes }
    ensures units { MAX_UNITS ≡ max_units }
    ensures steps { MAX_STEPS ≡ max_steps }
    ensures name { MAX_NAME ≡ max_name }
    ensures depth { MAX_DEPTH ≡ max_depth }
    ensures takes { MAX_TAKES ≡ max_takes }
    ensures span { MAX_SPAN ≡ max_span }
    ensures input { MAX_INPUT ≡ max_input }
{}
