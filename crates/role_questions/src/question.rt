use bspl_types::Key;

/// A question to a live role.
#[derive(Clone, Copy, Debug)]
pub enum Question {
    /// What it may send now under the key.
    Enabled { key: Key },
    /// What it knows under the key.
    Known { key: Key },
    /// The keys that it holds: at most so many, from the index on.
    Keys { from: u32, most: u32 },
    /// Its events: at most so many, from the index on.
    History { from: u32, most: u32 },
    /// How far it is.
    Status,
}

/// What is read of a line.
#[derive(Clone, Copy, Debug)]
pub enum QuestionReading {
    /// It puts no question.
    NotRead,
    /// It asks about a key that the protocol does not have.
    NotMeant,
    /// It puts this question.
    Meant(Question),
}
