//! A block of a file of worked sessions.

/// What a block stands in its file for.
#[derive(Drop)]
pub(crate) enum Shown {
    /// The replies and the running tasks.
    Replies,
    /// The state at each place too.
    States,
    /// Whether its end is the same as that of another session.
    Pair,
    /// What comes of a run of the bench.
    Run,
    /// What comes of the runs over the texts of rows.
    Rows,
}

impl Shown {
    fn by(sign: &str) -> Option<Shown> {
        match sign {
            "#" => Some(Shown::Replies),
            "#!" => Some(Shown::States),
            "#=" => Some(Shown::Pair),
            "#>" => Some(Shown::Run),
            "#?" => Some(Shown::Rows),
            _ => None,
        }
    }
}

/// A worked session, or two of them, or runs of the bench, as they stand in a file.
#[derive(Drop)]
pub(crate) struct Block<'a> {
    pub(crate) title: &'a str,
    pub(crate) shown: Shown,
    /// The session in its JSON form; of runs the words of the command.
    pub(crate) given: &'a str,
    /// What its replay gives; of a pair the other session, and whether they end alike; of a run its
    /// input, and what comes of it; of rows what they change, and the rows.
    pub(crate) rest: &'a str,
}

impl<'a> Block<'a> {
    /// A title line, another line and the rest. The beginning of the title says what is shown.
    pub(crate) fn read(text: &'a str) -> Option<Block<'a>> {
        let (first, below) = text.split_once("\n")?;
        let (given, rest) = below.split_once("\n")?;
        let (sign, title) = first.split_once(" ")?;
        Some(Block {
            title,
            shown: Shown::by(sign)?,
            given,
            rest,
        })
    }
}
