//! Laws of replies, as contracts: a call of each does nothing.
ghost use Rattle.bb_run.specs.FewCells.{AllFewCellsAreReplied};
ghost use Rattle.bb_run.specs.Laws.{
  AllVerdictsAreBorneOut,
  CheckReplyIsUnique,
  ChecksCostNoMore,
  ConfirmedClaimsCostThat,
  LongLinesAreUnread,
  RepliesHaveForm,
  ReplyHasOneKind,
  ReplyIsUnique,
};

/// No line has two replies under one set of limits and one plan.
pub fn reply_is_unique()
    ensures { ReplyIsUnique }
{}

/// No line has two answers under one set of limits. A line of more than 1,023 bytes is unread.
pub fn check_reply_is_unique()
    ensures unique { CheckReplyIsUnique }
    ensures long { LongLinesAreUnread }
{}

/// After a verdict of never, no number of steps halts. The checker confirms each verdict other than
/// undecided. Deciding makes at most three times the limit of steps.
pub fn verdicts_are_borne_out()
    ensures { AllVerdictsAreBorneOut }
{}

/// With the cyclers on, the reply to a machine with few configurations in the cells is never `undecided
/// steps`.
pub fn few_cells_are_replied()
    ensures { AllFewCellsAreReplied }
{}

/// A reply to a line is of one kind, and every reply of deciding has the form of a reply.
pub fn replies_are_of_one_kind()
    ensures one { ReplyHasOneKind }
    ensures form { RepliesHaveForm }
{}

/// Checking a line makes at most the steps and nodes of its cost, and just as many if it confirms the claim.
pub fn costs_bound_checks()
    ensures bound { ChecksCostNoMore }
    ensures confirmed { ConfirmedClaimsCostThat }
{}
