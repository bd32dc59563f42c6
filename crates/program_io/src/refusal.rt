//! The refusal of an input: its line, and what people are told.
ghost use Rattle.std.specs.Prelude.{◌≡◌, ◌++◌, [], IfOk, IsErr, OnOk, codes, string_bytes};
ghost use Rattle.session_text.specs.declared.fault.Why.TheVariants.{NoMemory};
ghost use Rattle.program_io.specs.Hint.{IsFaultHint, too_long_line, too_many_steps_line};
ghost use Rattle.program_io.specs.Outputs.{refusal, refused_with};
ghost use Rattle.program_io.specs.Refusal.{path_text, refusal_line, spaced, why_text};

use crate::hint::{fault_hint, too_long_hint, too_many_steps_hint};
use crate::output::{Output, OutputStatus};
use bench_types::EditFault;
use session_text::{TextFault, Why};
use std::alloc::{AllocError, Global};

/// Why an input is refused.
#[derive(Drop)]
pub struct Refusal {
    /// The refusal line.
    pub line: String,
    /// What people are told.
    pub hint: String,
}

impl Refusal {
    /// The refusal line of a code, with what people are told.
    pub fn of_code(alloc: Global, code: &str, hint: String) -> Result<Refusal, AllocError>
        ensures line { IfOk result
            (λ refused. string_bytes refused.line ≡ refusal_line code.now []) }
        ensures hint { IfOk result (λ refused. string_bytes refused.hint ≡ string_bytes hint) }
    {
        let line = refusal_line(alloc, code, "")?;
        Ok(Refusal { line, hint })
    }

    /// The line on standard output, and the hint on standard error.
    pub fn on_output(self) -> Output
        ensures { result ≡ refused_with (string_bytes self.line) (string_bytes self.hint) }
    {
        Output {
            status: OutputStatus::Failed,
            text: self.line.into_bytes(),
            note: self.hint.into_bytes(),
        }
    }

    /// Both on standard error.
    pub fn on_error(self, alloc: Global) -> Result<Output, AllocError>
        ensures { IfOk result
            (λ printed. printed ≡ refusal (string_bytes self.line ++ string_bytes self.hint)) }
    {
        let mut lines = self.line;
        lines.push_str(self.hint.as_str())?;
        Ok(Output::refusal(alloc, lines.into_bytes()))
    }
}

/// Why a text was not read. Want of memory is no refusal.
pub fn explained(alloc: Global, input: &[u8], fault: TextFault) -> Result<Refusal, AllocError>
    ensures line { IfOk result
        (λ refused. string_bytes refused.line ≡ refusal_line (why_text fault.why) fault.path) }
    ensures hint { IfOk result
        (λ refused. IsFaultHint input.now fault.why fault.path fault.detail
        (string_bytes refused.hint)) }
    ensures memory { fault.why ≡ NoMemory → IsErr result }
{
    let hint = fault_hint(alloc, input, &fault)?;
    let line = refusal_line(alloc, why_text(fault.why), fault.path.as_str())?;
    Ok(Refusal { line, hint })
}

/// That an input is too long to be read.
pub fn too_long(alloc: Global) -> Result<Refusal, AllocError>
    ensures line { IfOk result
        (λ refused. string_bytes refused.line ≡ refusal_line (codes "H3") []) }
    ensures hint { IfOk result (λ refused. string_bytes refused.hint ≡ too_long_line) }
{
    let hint = too_long_hint(alloc)?;
    Refusal::of_code(alloc, "H3", hint)
}

/// That a session has too many steps.
pub fn too_many_steps(alloc: Global) -> Result<Refusal, AllocError>
    ensures line { IfOk result
        (λ refused. string_bytes refused.line ≡ refusal_line (codes "J2") []) }
    ensures hint { IfOk result (λ refused. string_bytes refused.hint ≡ too_many_steps_line) }
{
    let hint = too_many_steps_hint(alloc)?;
    Refusal::of_code(alloc, EditFault::TooLong.code(), hint)
}

fn why_text(why: Why) -> &'static str
    ensures { result.now ≡ why_text why }
{
    match why {
        Why::NotJson => "H1",
        Why::BadShape => "H2",
        Why::Bench(fault) => fault.code(),
        Why::NoMemory => "",
    }
}

/// The refusal line of the code and, where it is not empty, the path.
pub fn refusal_line(alloc: Global, code: &str, path: &str) -> Result<String, AllocError>
    ensures { IfOk result (λ line. string_bytes line ≡ refusal_line code.now path.now) }
{
    let mut line = String::from_str(alloc, "refused")?;
    push_spaced(&mut line, code)?;
    push_path(&mut line, path)?;
    line.push_str("\n")?;
    Ok(line)
}

fn push_path(line: &mut String, path: &str) -> Result<(), AllocError>
    ensures { OnOk result (string_bytes line.new ≡ string_bytes line.old ++ path_text path.now) }
{
    if path.is_empty() {
        return Ok(());
    }
    push_spaced(line, path)
}

/// A word after a space.
pub fn push_spaced(text: &mut String, word: &str) -> Result<(), AllocError>
    ensures { OnOk result (string_bytes text.new ≡ string_bytes text.old ++ spaced word.now) }
{
    text.push_str(" ")?;
    text.push_str(word)
}
