//! What the programs read, write and end by: devices, documents, texts, refusals and endings.
#![tactic(auto)]

mod device;
mod doubled;
mod ending;
mod hint;
mod input;
mod output;
mod placed;
mod prompt;
mod refusal;
mod rule;
mod telling;
mod writing;

pub use device::{Counted, CountedRead, CountedWrite};
pub use doubled::{twice_note, twice_note_of_refused, warned};
pub use ending::{Ending, RunFault, end_process, given_words, show_text, write_output};
pub use hint::{fault_hint, too_long_hint, too_many_steps_hint};
pub use input::{InputFault, read_input};
pub use output::{Output, OutputStatus};
pub use prompt::Prompting;
pub use refusal::{Refusal, explained, push_spaced, refusal_line, too_long, too_many_steps};
pub use telling::tell_of_input;
pub use writing::{WriteFault, write_text};
