//! Laws of replies, as contracts: a call of each does nothing.
ghost use Rattle.bb_recurrence.specs.Laws.{LongLinesAreUnread, NumbersAreUnique};
ghost use Rattle.bb_recurrence.specs.Laws.{QuasihaltIsGreatestUse, RecurrenceRepliesAreShort};
ghost use Rattle.bb_recurrence.specs.Laws.{RecurrenceReplyIsUnique};

use laws_of_recurrence::laws::pairs_repeat;

/// No line has two replies under one set of limits. The recurrence of a machine is the same for each of its
/// confirmed pairs. A line of more than 1,023 bytes is unread.
pub fn recurrence_reply_is_unique()
    ensures unique { RecurrenceReplyIsUnique }
    ensures numbers { NumbersAreUnique }
    ensures long { LongLinesAreUnread }
{}

/// The printed number of quasihalting is the greatest number among the last uses of the states, plus 1.
pub fn quasihalt_is_greatest_use()
    ensures { QuasihaltIsGreatestUse }
{}

/// A reply is at most seven times as long as its line, and 89 bytes.
pub fn recurrence_replies_are_short()
    ensures { RecurrenceRepliesAreShort }
{
    pairs_repeat();
}
