//! A walk in depth through the machines of a size.
ghost use Rattle.std.specs.Prelude.{◌≡◌, ◌↔◌, ◌+◌, ◌<◌, ◌≤◌, [], ◌∷◌, ◌++◌, List};
ghost use Rattle.std.specs.Prelude.{IfOk, IfSome, IsTrue, length, vec_capacity};
ghost use Rattle.bb_machine.specs.Machine.{Table};
ghost use Rattle.laws_of_verdicts.specs.Walk.{FillsUndefinedBy};
ghost use Rattle.bb_cover.specs.UndefinedEntries.{IsUndefinedOf, undefined_entries_of};
ghost use Rattle.bb_cover.specs.Left.{FillsAt, IsFirst, IsFrame, IsStack, VisitsNext, left};

use crate::asked::Asked;
use crate::table::{is_empty, is_with_entry};
use crate::undefined::UndefinedEntry;
use bb_machine::{MAX_STATES, MAX_SYMBOLS, Machine};
use std::alloc::{AllocError, Global};
use std::marker::Model;
use std::mem;

/// The most open machines of a walk: each has one undefined transition less than the one before it.
const MAX_FRAMES: usize = MAX_STATES * MAX_SYMBOLS;

/// A machine that halts on one of several undefined transitions, and how many of the entries to try there
/// were filled in so far.
#[derive(Drop)]
pub(crate) struct Frame {
    pub(crate) machine: Machine,
    pub(crate) undefined: UndefinedEntry,
    pub(crate) asked: Asked,
    pub(crate) next: usize,
}

/// A walk, as the list of machines still to be visited. Its room is reserved once.
#[derive(Drop)]
pub(crate) struct Walk {
    frames: Vec<Frame>,
}

impl Model for Walk {
    ghost use Rattle.std.specs.Prelude.{◌≤◌, List, vec_capacity};
    ghost use Rattle.bb_machine.specs.Machine.{Table};
    ghost use Rattle.bb_cover.specs.Left.{IsStack, left};
    ghost use Rattle.bb_cover.specs.declared.walk.TheConstants.{MAX_FRAMES};

    ghost Value = { List Table };

    ghost view = { λ w. left w.frames.items };

    ghost invariant = { λ w. IsStack w.frames.items × (MAX_FRAMES ≤ vec_capacity w.frames) };
}

impl Walk {
    /// A finished walk.
    pub(crate) fn new(alloc: Global) -> Result<Walk, AllocError>
        ensures { IfOk result (λ walk. walk ≡ []) }
    {
        Ok(Walk {
            frames: Vec::with_capacity(alloc, MAX_FRAMES)?,
        })
    }

    /// Whether it has nothing more to visit.
    pub(crate) fn is_done(&self) -> bool
        ensures { IsTrue result ↔ (self.now ≡ []) }
    {
        self.frames.is_empty()
    }

    /// Whether a machine is the next one.
    pub(crate) fn is_next(&self, machine: &Machine) -> bool
        ensures next { IsTrue result → IsFirst machine.now self.now }
        ensures only { IsFirst machine.now self.now → IsTrue result }
    {
        if self.frames.is_empty() {
            return false;
        }
        let top = &self.frames[self.frames.len() - 1];
        is_with_entry(
            &top.machine,
            top.undefined.state,
            top.undefined.symbol,
            top.asked.entry(top.next),
            machine,
        )
    }

    /// Starts with a visited machine, and continues with those that fill the undefined transition, if there
    /// is one. The machine is moved then.
    pub(crate) fn begin(&mut self, machine: &mut Machine, undefined: Option<UndefinedEntry>)
        requires done { self.old ≡ [] }
        requires undefined { IfSome undefined (IsUndefinedOf machine.old) }
        ensures { FillsAt machine.old undefined self.new }
    {
        machine.show_machine();
        if let Some(undefined) = undefined {
            go_on(&mut self.frames, machine, undefined);
        }
    }

    /// Visits the next machine, and continues with those that fill the undefined transition, if there is one.
    /// The machine is moved then.
    pub(crate) fn visit(&mut self, machine: &mut Machine, undefined: Option<UndefinedEntry>)
        requires next { IsFirst machine.old self.old }
        requires undefined { IfSome undefined (IsUndefinedOf machine.old) }
        ensures { VisitsNext machine.old undefined self.old self.new }
    {
        pass(&mut self.frames);
        if let Some(undefined) = undefined {
            go_on(&mut self.frames, machine, undefined);
        }
    }

    /// The frame of the next machine, if there is one.
    pub(crate) fn top(&self) -> Option<&Frame>
        ensures { IfSome result (λ frame. IsFrame 0 frame.now) }
    {
        if self.frames.is_empty() {
            return None;
        }
        Some(&self.frames[self.frames.len() - 1])
    }
}

/// Passes the next machine.
fn pass(frames: &mut Vec<Frame>)
    requires stack { IsStack frames.old.items }
    requires some { 0 < length frames.old.items }
    ensures next { (first : Table) × (left frames.old.items ≡ first ∷ left frames.new.items)
        × (undefined_entries_of first + length frames.new.items ≤ MAX_FRAMES) }
    ensures stack { IsStack frames.new.items }
    ensures capacity { vec_capacity frames.new ≡ vec_capacity frames.old }
{
    let last = frames.len() - 1;
    let next = frames[last].next + 1;
    if next < frames[last].asked.count() {
        frames[last].next = next;
        return;
    }
    let _passed = frames.pop();
}

/// Continues from a machine with those that fill an undefined transition. The machine is moved.
fn go_on(frames: &mut Vec<Frame>, machine: &mut Machine, undefined: UndefinedEntry)
    requires stack { IsStack frames.old.items }
    requires capacity { MAX_FRAMES ≤ vec_capacity frames.old }
    requires room { undefined_entries_of machine.old + length frames.old.items ≤ MAX_FRAMES }
    requires undefined { IsUndefinedOf machine.old undefined }
    ensures left { (more : List Table) × (left frames.new.items ≡ more ++ left frames.old.items)
        × FillsUndefinedBy machine.old undefined.state undefined.symbol more }
    ensures stack { IsStack frames.new.items }
    ensures capacity { MAX_FRAMES ≤ vec_capacity frames.new }
{
    machine.show_machine();
    let asked = Asked::of(machine, is_empty(machine));
    let taken = mem::replace(machine, Machine::blank());
    let _pushed = frames.push(Frame {
        machine: taken,
        undefined,
        asked,
        next: 0,
    });
}
