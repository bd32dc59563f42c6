//! The laws of advice, each on a function that does nothing: its contract is the law.
ghost use Rattle.session_advice.specs.AdviceLaws.{AdviceIsOne};

/// To a question on a source one advice is told alone, whatever the threads do.
pub fn law_of_advice()
    ensures { AdviceIsOne }
{}
