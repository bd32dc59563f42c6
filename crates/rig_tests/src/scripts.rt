//! Scripts that the threads of cores play.
mod gates;
mod passed_over;
mod played;
mod together;
