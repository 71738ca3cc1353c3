//! Responders: they reply to lines.
ghost use Rattle.std.specs.Prelude.{◌≡◌, ℕ, ◌<◌, ◌≤◌, Bool, List, []};
ghost use Rattle.std.specs.Prelude.{length, take, IsTrue, IfOk, OnOk, OnErr};
ghost use Rattle.bb_lines.specs.declared.responder.TheConstants.{MAX_KEPT};

use arrayvec::ArrayVec;
use std::alloc::AllocError;

/// The most bytes of a reply, without its newline.
pub const REPLY: usize = 8191;

/// The most bytes of a line kept for any responder.
pub const MAX_KEPT: usize = 1024;

/// A cost above this is high: the reply is written before the next line starts.
pub const HIGH_COST: u64 = 100_000;

/// Replies to each line of an input with one line.
pub trait Responder {
    // The texts allowed as a reply to a line, without a newline.
    ghost replies_with: { Self → List ℕ → List ℕ → Type 0 };

    // The effect of one line on the responder's own state, such as its summary.
    ghost saw: { Self → List ℕ → Self → Type 0 };

    // The cost of the last reply.
    ghost cost: { Self → ℕ };

    // The part of the responder's state preserved by every reply: limits, targets of references.
    ghost keeps: { Self → Self → Type 0 };

    // The responder's invariant, before each line and after it.
    ghost is_ready: { Self → Type 0 };

    // Whether a reply may allocate.
    ghost GROWS: { Bool };

    // How many bytes of a line are kept; a reply depends on those alone.
    ghost KEEP: { ℕ };

    /// How many bytes of a line are kept for it.
    fn bytes_kept(&self) -> usize
        ensures { result ≡ KEEP };

    /// Appends the reply to `line` to the empty `text` and returns its cost.
    ///
    /// `Err` is an allocation failure; the contents of `text` are then unspecified.
    fn respond(&mut self, line: &[u8], text: &mut ArrayVec<u8, REPLY>) -> Result<u64, AllocError>
        requires ready { is_ready self.old }
        requires kept { length line.now ≤ KEEP }
        requires empty { text.old.items ≡ [] }
        ensures reply { OnOk result (replies_with self.old line.now text.new.items) }
        ensures saw { OnOk result (saw self.old line.now self.new) }
        ensures cost { IfOk result (λ told. told ≡ cost self.new) }
        ensures keeps { keeps self.old self.new }
        ensures ready { is_ready self.new }
        ensures grows { OnErr result (IsTrue GROWS) };

    // The preserved part is preserved over many lines, and so are the allowed replies.
    ghost keeps_at_first: { (a : Self) → keeps a a };

    ghost keeps_on: { (a b c : Self) → keeps a b → keeps b c → keeps a c };

    ghost keeps_reply: { (a b : Self) → keeps a b → (line text : List ℕ)
        → replies_with b line text → replies_with a line text };

    // A line is kept up to here: at least one byte, and no more than there is room for.
    ghost keeps_some: { 0 < KEEP };

    ghost keeps_few: { KEEP ≤ MAX_KEPT };

    // The kept bytes of a line decide all.
    ghost reply_by_kept: { (a : Self) (line text : List ℕ)
        → replies_with a (take KEEP line) text → replies_with a line text };

    ghost saw_by_kept: { (a : Self) (line : List ℕ) (b : Self) → saw a (take KEEP line) b → saw a line b };
}
