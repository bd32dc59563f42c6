//! Sessions of tests.

use bench_types::CheckedSession;
use session_text::read_session;
use std::alloc::Global;
use std::test::Fail;

/// The session of the document.
pub(crate) fn session_in(alloc: Global, document: &str) -> Result<CheckedSession, Fail> {
    let (header, steps) = read_session(alloc, document.as_bytes())?;
    match CheckedSession::new(header, steps) {
        Some(session) => Ok(session),
        None => Err(Fail::from("more steps than a session may have")),
    }
}

/// A, of priority 2, delays itself on core 0 for two ticks; B and C are of priority 1.
pub const FIRST_RUN: &str = "{\"format\": 1, \"cores\": 2, \"priorities\": 5, \"slicing\": false, \
    \"tick\": 0, \"mutexes\": 0, \"tasks\": [{\"name\": \"A\", \"priority\": 2, \"mask\": 3}, \
    {\"name\": \"B\", \"priority\": 1, \"mask\": 3}, {\"name\": \"C\", \"priority\": 1, \"mask\": 3}], \
    \"steps\": [{\"do\": \"delay\", \"core\": 0, \"by\": \"A\", \"ticks\": 2}, \
    {\"do\": \"switch\", \"core\": 0}, {\"do\": \"tick\"}, \
    {\"do\": \"yield\", \"core\": 0, \"by\": \"C\"}, {\"do\": \"switch\", \"core\": 0}]}";

/// A waits for a message, which an interrupt of core 1 sends; a second one finds the queue full.
pub const ONE_QUEUE: &str = "{\"format\": 3, \"cores\": 2, \"priorities\": 5, \"slicing\": false, \
    \"tick\": 0, \"mutexes\": 0, \"notes\": 1, \"queues\": [{\"length\": 1, \"messages\": 0}], \
    \"tasks\": [{\"name\": \"A\", \"priority\": 2, \"mask\": 3}, \
    {\"name\": \"B\", \"priority\": 1, \"mask\": 3}, {\"name\": \"C\", \"priority\": 1, \"mask\": 3}], \
    \"steps\": [{\"do\": \"queue_receive\", \"core\": 0, \"by\": \"A\", \"queue\": 0, \"ticks\": 5}, \
    {\"do\": \"switch\", \"core\": 0}, {\"do\": \"isr_send\", \"core\": 1, \"queue\": 0}, \
    {\"do\": \"isr_send\", \"core\": 1, \"queue\": 0}, {\"do\": \"switch\", \"core\": 1}, \
    {\"do\": \"finish\", \"core\": 1, \"by\": \"A\"}]}";

/// A suspends B, which an interrupt of core 1 resumes, and itself, so that C resumes it; in between
/// a quarter of a tick goes by.
pub const SUSPENDED: &str = "{\"format\": 3, \"cores\": 2, \"priorities\": 5, \"slicing\": false, \
    \"tick\": 0, \"mutexes\": 0, \"notes\": 1, \"queues\": [], \"units\": 1000, \
    \"tasks\": [{\"name\": \"A\", \"priority\": 2, \"mask\": 3}, \
    {\"name\": \"B\", \"priority\": 1, \"mask\": 3}, {\"name\": \"C\", \"priority\": 1, \"mask\": 3}], \
    \"steps\": [{\"do\": \"suspend\", \"core\": 0, \"by\": \"A\", \"to\": \"B\"}, \
    {\"do\": \"switch\", \"core\": 1}, {\"do\": \"pass\", \"units\": 250}, \
    {\"do\": \"isr_resume\", \"core\": 1, \"to\": \"B\"}, \
    {\"do\": \"isr_resume\", \"core\": 1, \"to\": \"B\"}, \
    {\"do\": \"suspend\", \"core\": 0, \"by\": \"A\", \"to\": \"A\"}, \
    {\"do\": \"switch\", \"core\": 0}, \
    {\"do\": \"resume\", \"core\": 1, \"by\": \"C\", \"to\": \"A\"}, \
    {\"do\": \"switch\", \"core\": 1}]}";

/// Time goes by where A waits for a tick: 640 units, 900, and behind the tick 20 and 15.
pub const PASSED: &str = "{\"format\": 3, \"cores\": 2, \"priorities\": 5, \"slicing\": false, \
    \"tick\": 0, \"mutexes\": 0, \"notes\": 1, \"queues\": [], \"units\": 1000, \
    \"tasks\": [{\"name\": \"A\", \"priority\": 2, \"mask\": 3}, \
    {\"name\": \"B\", \"priority\": 1, \"mask\": 3}, {\"name\": \"C\", \"priority\": 1, \"mask\": 3}], \
    \"steps\": [{\"do\": \"delay\", \"core\": 0, \"by\": \"A\", \"ticks\": 1}, \
    {\"do\": \"switch\", \"core\": 0}, {\"do\": \"pass\", \"units\": 640}, \
    {\"do\": \"pass\", \"units\": 900}, {\"do\": \"tick\"}, {\"do\": \"pass\", \"units\": 20}, \
    {\"do\": \"switch\", \"core\": 1}, {\"do\": \"pass\", \"units\": 15}, \
    {\"do\": \"finish\", \"core\": 1, \"by\": \"A\"}]}";

/// B is kept from both cores, in turn by higher tasks, a hold, preemption that is off, its mask and
/// a switch that is to come; then A is, and C while one core alone is asked for it.
pub const HINDERED: &str = "{\"format\": 1, \"cores\": 2, \"priorities\": 8, \"slicing\": false, \
    \"tick\": 0, \"mutexes\": 0, \"tasks\": [{\"name\": \"A\", \"priority\": 3, \"mask\": 3}, \
    {\"name\": \"B\", \"priority\": 1, \"mask\": 3}, {\"name\": \"C\", \"priority\": 2, \"mask\": 2}], \
    \"steps\": [{\"do\": \"hold_open\", \"core\": 0, \"by\": \"A\"}, \
    {\"do\": \"hold_close\", \"core\": 0, \"by\": \"A\"}, \
    {\"do\": \"preempt_off\", \"core\": 1, \"by\": \"C\", \"to\": \"C\"}, \
    {\"do\": \"priority_set\", \"core\": 0, \"by\": \"A\", \"to\": \"B\", \"priority\": 3}, \
    {\"do\": \"affinity_set\", \"core\": 0, \"by\": \"A\", \"to\": \"B\", \"mask\": 1}, \
    {\"do\": \"priority_set\", \"core\": 0, \"by\": \"A\", \"to\": \"B\", \"priority\": 4}, \
    {\"do\": \"switch\", \"core\": 0}, \
    {\"do\": \"preempt_on\", \"core\": 0, \"by\": \"B\", \"to\": \"C\"}, \
    {\"do\": \"switch\", \"core\": 1}, \
    {\"do\": \"affinity_set\", \"core\": 0, \"by\": \"B\", \"to\": \"C\", \"mask\": 3}, \
    {\"do\": \"priority_set\", \"core\": 0, \"by\": \"B\", \"to\": \"C\", \"priority\": 6}]}";

/// A and Z, of priority 0, delay themselves, so that both cores run idle tasks; a tick wakes Z, for
/// which core 1 alone is asked.
pub const WOKEN_AMONG_IDLE: &str = "{\"format\": 1, \"cores\": 2, \"priorities\": 2, \
    \"slicing\": false, \"tick\": 0, \"mutexes\": 0, \"tasks\": [\
    {\"name\": \"A\", \"priority\": 1, \"mask\": 3}, \
    {\"name\": \"Z\", \"priority\": 0, \"mask\": 3}], \"steps\": [\
    {\"do\": \"delay\", \"core\": 0, \"by\": \"A\", \"ticks\": 9}, \
    {\"do\": \"switch\", \"core\": 0}, \
    {\"do\": \"delay\", \"core\": 1, \"by\": \"Z\", \"ticks\": 1}, \
    {\"do\": \"switch\", \"core\": 1}, {\"do\": \"tick\"}, {\"do\": \"tick\"}, \
    {\"do\": \"switch\", \"core\": 1}]}";

/// A control loop waits for a mutex that a logger has; edits give the mutex first, leave out the
/// switch, give the logger another step, and ask for a place that there is not.
pub const SHARED_MUTEX: &str = "{\"session\": {\"format\": 1, \"cores\": 2, \"priorities\": 4, \
    \"slicing\": false, \"tick\": 0, \"mutexes\": 1, \"tasks\": [\
    {\"name\": \"control\", \"priority\": 3, \"mask\": 1}, \
    {\"name\": \"logger\", \"priority\": 1, \"mask\": 2}], \"steps\": [\
    {\"do\": \"mutex_take\", \"core\": 1, \"by\": \"logger\", \"mutex\": 0, \"ticks\": 0}, \
    {\"do\": \"mutex_take\", \"core\": 0, \"by\": \"control\", \"mutex\": 0, \"ticks\": 5}, \
    {\"do\": \"switch\", \"core\": 0}, {\"do\": \"tick\"}, \
    {\"do\": \"mutex_give\", \"core\": 1, \"by\": \"logger\", \"mutex\": 0}]}, \"edits\": [\
    {\"edit\": \"insert\", \"at\": 1, \"step\": \
    {\"do\": \"mutex_give\", \"core\": 1, \"by\": \"logger\", \"mutex\": 0}}, \
    {\"edit\": \"remove\", \"at\": 3}, \
    {\"edit\": \"replace\", \"at\": 4, \"step\": {\"do\": \"yield\", \"core\": 1, \"by\": \"logger\"}}, \
    {\"edit\": \"remove\", \"at\": 9}]}";

/// What standard error is told of the last edit of `SHARED_MUTEX`.
pub const NO_NINTH: &str = "edit 3 refused J1: the session has 5 steps\n";

/// A waits at index 1; interrupts notify it at index 0 and then at index 1, and it runs on.
pub const TWO_NOTES: &str = "{\"format\": 2, \"cores\": 2, \"priorities\": 5, \"slicing\": false, \
    \"tick\": 0, \"mutexes\": 0, \"notes\": 2, \"tasks\": [\
    {\"name\": \"A\", \"priority\": 2, \"mask\": 3}, \
    {\"name\": \"B\", \"priority\": 1, \"mask\": 3}, {\"name\": \"C\", \"priority\": 1, \"mask\": 3}], \
    \"steps\": [{\"do\": \"notify_wait\", \"core\": 0, \"by\": \"A\", \"entry\": 0, \"exit\": 0, \
    \"ticks\": 10, \"index\": 1}, {\"do\": \"isr_notify\", \"core\": 1, \"to\": \"A\", \
    \"action\": \"increment\", \"index\": 0}, {\"do\": \"isr_notify\", \"core\": 1, \"to\": \"A\", \
    \"action\": \"set\", \"value\": 9, \"index\": 1}, {\"do\": \"switch\", \"core\": 0}, \
    {\"do\": \"finish\", \"core\": 0, \"by\": \"A\"}]}";

/// A logger has a mutex that a control loop waits for, and delays itself, so that two calls of the
/// control loop and one of its own are not made; edits take out a call of a third task, which would
/// be made, and ask for a place that there is not.
pub const LEFT_CALLS: &str = "\
    {\"session\": {\"format\": 1, \"cores\": 2, \"priorities\": 4, \"slicing\": false, \
    \"tick\": 0, \"mutexes\": 1, \"tasks\": [{\"name\": \"control\", \"priority\": 3, \
    \"mask\": 1}, {\"name\": \"logger\", \"priority\": 1, \"mask\": 2}, {\"name\": \"spare\", \
    \"priority\": 0, \"mask\": 3}], \"steps\": [{\"do\": \"mutex_take\", \"core\": 1, \
    \"by\": \"logger\", \"mutex\": 0, \"ticks\": 0}, {\"do\": \"yield\", \"core\": 0, \
    \"by\": \"spare\"}, {\"do\": \"mutex_take\", \"core\": 0, \"by\": \"control\", \
    \"mutex\": 0, \"ticks\": 5}, {\"do\": \"yield\", \"core\": 0, \"by\": \"control\"}, \
    {\"do\": \"tick\"}, {\"do\": \"delay\", \"core\": 1, \"by\": \"logger\", \"ticks\": 9}, \
    {\"do\": \"yield\", \"core\": 0, \"by\": \"control\"}, {\"do\": \"mutex_give\", \
    \"core\": 1, \"by\": \"logger\", \"mutex\": 0}]}, \"edits\": [{\"edit\": \"remove\", \
    \"at\": 1}, {\"edit\": \"remove\", \"at\": 9}]}";

/// What standard error is told of the last edit of `LEFT_CALLS`.
pub const LEFT_REFUSED: &str = "edit 1 refused J1: the session has 7 steps\n";
