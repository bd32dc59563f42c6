//! The kernel's parts: cores and ready lists, mutexes, notifications, queues and delays; and the
//! linked lists by index under them.
mod delays;
mod largest;
mod lists;
mod mutexes;
mod notes;
mod queues;
mod ready;
mod started;
