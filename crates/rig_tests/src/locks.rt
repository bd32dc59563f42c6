//! The lock pair.
mod calls;
mod depths;
mod log;
mod turns;
