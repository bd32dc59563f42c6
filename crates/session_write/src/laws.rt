//! The laws of written texts, each on a function that does nothing: its contract is the law.
ghost use Rattle.session_write.specs.Written.{WrittenReadsBack};

/// Every session that is written is read back as itself.
pub fn written_reads_back()
    ensures { WrittenReadsBack }
{}
