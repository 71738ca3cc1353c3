//! The checker's answer to a verdict line.
ghost use Rattle.std.specs.Prelude.{◌≡◌};
ghost use Rattle.bb_cert.specs.checker.Answer.{answer_text, is_fine};

/// The answer to a verdict, by the first rule that applies.
#[derive(Clone, Copy, Debug, PartialEq, Eq)]
pub enum Answer {
    /// The claim holds.
    Ok = 1,
    /// It doesn't.
    Bad = 2,
    /// It names more steps, levels or nodes than the limits have, or needs more cells.
    Over = 3,
    /// Nothing is claimed.
    Open = 4,
}

impl Answer {
    /// The printed word.
    pub fn word(self) -> &'static [u8]
        ensures { result.now ≡ answer_text self }
    {
        match self {
            Answer::Ok => b"ok",
            Answer::Bad => b"bad",
            Answer::Over => b"over",
            Answer::Open => b"open",
        }
    }

    /// Whether a run stays clean with this answer.
    pub fn is_fine(self) -> bool
        ensures { result ≡ is_fine self }
    {
        match self {
            Answer::Ok | Answer::Open => true,
            Answer::Bad | Answer::Over => false,
        }
    }
}
