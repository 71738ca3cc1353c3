//! The result for a verdict, and the pair that it names.
ghost use Rattle.std.specs.Prelude.{MatchOption};
ghost use Rattle.bb_cert.specs.claims.Claim.{Claim};
ghost use Rattle.bb_cert.specs.checker.Answer.{IsAnswer};
ghost use Rattle.bb_cert.specs.declared.checker.answer.Answer.{Answer};
ghost use Rattle.bb_recurrence.specs.Finding.{NamesNone, NamesPair};
ghost use Rattle.bb_recurrence.specs.Pairs.{IsRepeating};

use crate::recurrence::{KnownPair, Recurrence};
use bb_cert::{Answer, Verdict};
use laws_of_recurrence::laws::pairs_repeat;

/// The result for a verdict.
#[derive(Clone, Copy, Debug, PartialEq, Eq)]
pub enum Finding {
    /// A pair, confirmed by the checker, and the recurrence of the run.
    Recurs(Recurrence),
    /// A pair, and the checker's answer to it, not `ok`.
    Answered(Answer),
    /// No pair.
    NoPair,
}

/// The steps of a pair.
pub(crate) fn pair_of(verdict: &Verdict) -> Option<(u64, u64)>
    ensures { MatchOption result (NamesNone verdict.now) (λ pair. NamesPair verdict.now pair.0 pair.1) }
{
    match *verdict {
        Verdict::Cycler { first, second } => Some((first, second)),
        Verdict::Translated { first, second, .. } => Some((first, second)),
        Verdict::Halt { .. } => None,
        Verdict::Backward { .. } => None,
        Verdict::Undecided(_) => None,
    }
}

/// States the consequences of a confirmed pair, for proofs. It does nothing at run time.
pub(crate) fn show_repeats(verdict: &Verdict, pair: &KnownPair)
    requires pair { NamesPair verdict.now pair.now.first pair.now.second }
    requires ok { IsAnswer pair.now.machine.now pair.now.limits.now verdict.now Answer.Ok }
    requires claim { Claim pair.now.machine.now verdict.now }
    ensures { IsRepeating pair.now }
{
    pairs_repeat();
}
