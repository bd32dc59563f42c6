//! Recordings.
mod room;
mod samples;
mod steps;
