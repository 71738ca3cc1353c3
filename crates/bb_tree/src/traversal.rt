//! The walk through the backward tree, depth first, on one tape.
//!
//! The tape has the known cells of a node: a known symbol `r` as `r + 1`, and an unknown cell as 0.
ghost use Rattle.std.specs.Prelude.{◌≡◌, ◌<◌, ◌≤◌, ◌+◌, ◌-◌, ◌*◌, ◌^◌, [], length, min, pos, neg_ℤ};
ghost use Rattle.std.specs.Prelude.{◌+ℤ◌, ◌≤ℤ◌, IfOk, IfSome, IsTrue, MatchOption, OnErr, OnOk};
ghost use Rattle.std.specs.List.{AllByRecursion};
ghost use Rattle.bb_machine.specs.Machine.{IsMachine};
ghost use Rattle.bb_tape.specs.Content.{blank};
ghost use Rattle.bb_tape.specs.TapeView.{written, IsBeside, IsInside};
ghost use Rattle.bb_sim.specs.Run.{Never};
ghost use Rattle.bb_tree.specs.Path.{depth_of};
ghost use Rattle.bb_tree.specs.Tree as tree;
ghost use Rattle.bb_tree.specs.WalkMeter.{IsWithinWalk, walked};
ghost use Rattle.bb_tree.specs.Tree.{EndsWithin, EndsNowhere};
ghost use Rattle.bb_tree.specs.inside.Walk.{HasRoom, IsAtEdge, IsBranch, IsRule, Refused, branch_node};
ghost use Rattle.bb_tree.specs.inside.Walk.{branches, endless_of, starts_of};
ghost use Rattle.bb_tree.specs.inside.Steps.{Enters, Explores, HasTable, IsFirstBranch, IsWithin, WalksAll};
ghost use Rattle.bb_tree.specs.inside.Steps.{entered_on, states_of};

use crate::endless::{Endless, has_state};
use crate::path::{Frame, Path};
use crate::rules::Rules;
use arrayvec::ArrayVec;
use bb_machine::limits::MAX_LEVELS;
use bb_machine::{Dir, Entry, MAX_STATES, Machine};
use bb_sim::Meter;
use bb_tape::{Memory, Tape};

/// How many nodes are entered, and on how many levels.
#[derive(Clone, Copy, Debug)]
struct Count {
    nodes: u64,
    levels: u64,
}

/// A predecessor of a node: the state, the symbol under the head, and the head's position.
#[derive(Clone, Copy, Debug)]
struct Branch {
    position: i64,
    state: u8,
    symbol: u8,
    /// The head's move from it to the node.
    dir: Dir,
    /// The tape's content there.
    held: u8,
    /// How many cells are known to be nonzero in the node.
    nonzero_known: u16,
}

/// The levels and nodes of the backward tree, if it ends within the given bounds and the start matches none
/// of its nodes. Such a machine never halts.
///
/// The tape is blank at the end. After an error its contents are unspecified.
#[inline(never)]
pub fn walk<T: Tape>(
    machine: &Machine,
    levels: u64,
    nodes: u64,
    tape: &mut T,
    path: &mut Path,
    meter: &mut Meter,
) -> Result<Option<(u64, u64)>, Memory>
    requires path { levels ≤ depth_of path.old }
    requires tape { 2 * levels ≤ (T.view tape.old).limit + 1 }
    requires meter { meter.old.nodes + nodes < 2 ^ 64 }
    ensures answers { IfOk result (λ found. MatchOption found (EndsNowhere machine.now levels nodes)
        (λ end. EndsWithin machine.now levels nodes end.0 end.1)) }
    ensures never { IfOk result (λ found. IfSome found (λ end. Never machine.now)) }
    ensures blank { OnOk result ((T.view tape.new).content ≡ blank) }
    ensures limit { (T.view tape.new).limit ≡ (T.view tape.old).limit }
    ensures depth { depth_of path.new ≡ depth_of path.old }
    ensures counted { IfOk result (λ found. IfSome found (λ end. meter.new ≡ walked meter.old end.0 end.1)) }
    ensures within { IsWithinWalk levels nodes meter.old meter.new }
    ensures memory { OnErr result (IsTrue T.GROWS) }
{
    let mut entered = Count {
        nodes: 0,
        levels: 0,
    };
    tape.reset();
    let ends = explore_all(machine, Count { nodes, levels }, tape, path, &mut entered);
    meter.nodes += entered.nodes;
    meter.most_levels = meter.most_levels.max(entered.levels);
    tape.reset();
    if ends? {
        Ok(Some((entered.levels, entered.nodes)))
    } else {
        Ok(None)
    }
}

/// Walks through the trees of all halting entries. False if some tree doesn't end within the bounds.
fn explore_all<T: Tape>(
    machine: &Machine,
    most: Count,
    tape: &mut T,
    path: &mut Path,
    entered: &mut Count,
) -> Result<bool, Memory>
    requires blank { (T.view tape.old).content ≡ blank }
    requires room { HasRoom (T.view tape.old) most.levels }
    requires path { most.levels ≤ depth_of path.old }
    requires nodes { entered.old.nodes ≡ 0 }
    requires levels { entered.old.levels ≡ 0 }
    ensures walked { IfOk result (WalksAll machine.now most entered.new) }
    ensures machine { IsMachine machine.now }
    ensures within { IsWithin most entered.new }
    ensures limit { (T.view tape.new).limit ≡ (T.view tape.old).limit }
    ensures depth { depth_of path.new ≡ depth_of path.old }
    ensures memory { OnErr result (IsTrue T.GROWS) }
{
    let endless = Endless::of_machine(machine);
    if endless.has_root(machine) {
        return Ok(false);
    }
    let mut rules = Rules {
        list: ArrayVec::new(),
        left_first: ArrayVec::new(),
        right_first: ArrayVec::new(),
    };
    rules.gather(machine);
    let halting = machine.states() as usize;
    for index in rules.right_first[halting]..rules.right_first[halting + 1] {
        let rule = rules.list[index as usize];
        let root = Branch {
            position: 0,
            state: rule.state,
            symbol: rule.symbol,
            dir: Dir::R,
            held: 0,
            nonzero_known: 0,
        };
        if !explore(&rules, endless, root, most, tape, path, entered)? {
            return Ok(false);
        }
    }
    Ok(true)
}

/// Walks through the tree of one halting entry. False if it doesn't end within the bounds.
fn explore<T: Tape>(
    rules: &Rules,
    endless: Endless,
    root: Branch,
    most: Count,
    tape: &mut T,
    path: &mut Path,
    entered: &mut Count,
) -> Result<bool, Memory>
    requires rules { HasTable rules.now.list.items (starts_of rules.now) }
    requires states { states_of (starts_of rules.now) ≤ MAX_STATES }
    requires root { IsBranch (states_of (starts_of rules.now)) blank 0 root }
    requires blank { (T.view tape.old).content ≡ blank }
    requires room { HasRoom (T.view tape.old) most.levels }
    requires path { most.levels ≤ depth_of path.old }
    requires within { IsWithin most entered.old }
    ensures explores { IfOk result (Explores rules.now.list.items (starts_of rules.now)
        (endless_of endless) root most entered.old entered.new (T.view tape.new).content) }
    ensures room { HasRoom (T.view tape.new) most.levels }
    ensures within { IsWithin most entered.new }
    ensures limit { (T.view tape.new).limit ≡ (T.view tape.old).limit }
    ensures depth { depth_of path.new ≡ depth_of path.old }
    ensures memory { OnErr result (IsTrue T.GROWS) }
{
    path.clear();
    let Some(mut top) = enter(rules, endless, root, 0, most, tape, entered)? else {
        return Ok(false);
    };
    loop {
        match next_branch(rules, top, tape) {
            Some((branch, next)) => {
                let Some(child) = enter(
                    rules,
                    endless,
                    branch,
                    path.len() + 1,
                    most,
                    tape,
                    entered,
                )?
                else {
                    return Ok(false);
                };
                top.next = next;
                path.push(top);
                top = child;
            }
            None => {
                leave(top, tape)?;
                match path.pop() {
                    Some(parent) => top = parent,
                    None => return Ok(true),
                }
            }
        }
    }
}

/// Enters a node on a level. None if that passes a bound, or the start matches the node.
#[inline]
fn enter<T: Tape>(
    rules: &Rules,
    endless: Endless,
    branch: Branch,
    level: u64,
    most: Count,
    tape: &mut T,
    entered: &mut Count,
) -> Result<Option<Frame>, Memory>
    requires rules { HasTable rules.now.list.items (starts_of rules.now) }
    requires states { states_of (starts_of rules.now) ≤ MAX_STATES }
    requires branch { IsBranch (states_of (starts_of rules.now)) (T.view tape.old).content level branch }
    requires beside { IsBeside (T.view tape.old) branch.position }
    requires level { level ≤ MAX_LEVELS }
    requires room { HasRoom (T.view tape.old) most.levels }
    requires within { IsWithin most entered.old }
    ensures enters { IfOk result (λ frame. IfSome frame (Enters (starts_of rules.now) branch level
        (T.view tape.old) (T.view tape.new))) }
    ensures counted { IfOk result (λ frame. IfSome frame (λ frame. (level < most.levels)
        × (entered.old.nodes < most.nodes) × (entered.new ≡ entered_on level entered.old))) }
    ensures refused { IfOk result (λ frame. MatchOption frame
        (Refused (endless_of endless) (branch_node (T.view tape.old).content branch) level
        entered.old.nodes most.nodes most.levels)
        (λ frame. Unit {0})) }
    ensures room { HasRoom (T.view tape.new) most.levels }
    ensures within { IsWithin most entered.new }
    ensures limit { (T.view tape.new).limit ≡ (T.view tape.old).limit }
    ensures memory { OnErr result (IsTrue T.GROWS) }
{
    if most.levels <= level || most.nodes <= entered.nodes {
        return Ok(None);
    }
    if has_no_end(endless, branch, tape) {
        return Ok(None);
    }
    let Ok(()) = tape.visit(branch.position) else {
        unreachable!();
    };
    let Ok(()) = tape.write(branch.position, branch.symbol + 1) else {
        return Err(Memory);
    };
    entered.nodes += 1;
    entered.levels = entered.levels.max(level + 1);
    let nonzero_known = count_known(branch);
    if branch.state == 0 && nonzero_known == 0 {
        return Ok(None);
    }
    let (next, end) = rules.range(branch.state, branch.dir);
    Ok(Some(Frame {
        position: branch.position,
        state: branch.state,
        before: branch.held,
        nonzero_known,
        next,
        end,
    }))
}

/// Whether a node has an endless path of predecessors by moves in the branch's direction: its state has one,
/// and the next cell is unknown. Known cells are a stretch, so all that the path writes are unknown.
#[inline]
fn has_no_end<T: Tape>(endless: Endless, branch: Branch, tape: &T) -> bool
    requires state { branch.state < MAX_STATES }
    requires low { neg_ℤ (pos MAX_LEVELS) ≤ℤ branch.position }
    requires high { branch.position ≤ℤ pos MAX_LEVELS }
    ensures { IsTrue result → IsAtEdge (endless_of endless) (T.view tape.now).content branch branch.dir }
{
    has_state(endless.by_moves(branch.dir), branch.state)
        && tape.read(left_cell(branch.position, branch.dir)) == 0
}

/// How many cells a branch's node knows to be other than 0.
#[inline]
fn count_known(branch: Branch) -> u16
    requires few { branch.nonzero_known < 65535 }
    requires counted { 1 < branch.held → 0 < branch.nonzero_known }
    ensures { result + min 1 (branch.held - 1) ≡ branch.nonzero_known + min 1 branch.symbol }
{
    let more = if branch.symbol == 0 {
        branch.nonzero_known
    } else {
        branch.nonzero_known + 1
    };
    if branch.held > 1 { more - 1 } else { more }
}

/// Leaves a node and restores the tape.
#[inline]
fn leave<T: Tape>(frame: Frame, tape: &mut T) -> Result<(), Memory>
    requires inside { IsInside (T.view tape.old) frame.position }
    requires symbol { frame.before ≤ 10 }
    ensures left { OnOk result (T.view tape.new ≡ written (T.view tape.old) frame.position frame.before) }
    ensures refused { OnErr result (T.view tape.new ≡ T.view tape.old) }
    ensures memory { OnErr result (IsTrue T.GROWS) }
{
    match tape.write(frame.position, frame.before) {
        Ok(()) => Ok(()),
        Err(_) => Err(Memory),
    }
}

/// The next predecessor of a node, and the index of the rule after its own.
#[inline]
fn next_branch<T: Tape>(rules: &Rules, frame: Frame, tape: &T) -> Option<(Branch, u16)>
    requires rules { AllByRecursion (IsRule (states_of (starts_of rules.now))) rules.now.list.items }
    requires order { frame.next ≤ frame.end }
    requires within { frame.end ≤ length rules.now.list.items }
    requires low { neg_ℤ (pos MAX_LEVELS) ≤ℤ frame.position }
    requires high { frame.position ≤ℤ pos MAX_LEVELS }
    ensures { MatchOption result (branches rules.now.list.items (T.view tape.now).content frame ≡ [])
        (λ found. IsFirstBranch rules.now.list.items (states_of (starts_of rules.now))
        (T.view tape.now).content frame found.0 found.1) }
{
    for index in frame.next..frame.end {
        let rule = rules.list[index as usize];
        let Entry::Go { write, dir, .. } = rule.entry else {
            continue;
        };
        let position = left_cell(frame.position, dir);
        let held = tape.read(position);
        if held == 0 || held == write + 1 {
            let branch = Branch {
                position,
                state: rule.state,
                symbol: rule.symbol,
                dir,
                held,
                nonzero_known: frame.nonzero_known,
            };
            return Some((branch, index + 1));
        }
    }
    None
}

/// The cell left by a move to this position.
#[inline]
fn left_cell(position: i64, dir: Dir) -> i64
    requires low { neg_ℤ (pos MAX_LEVELS) ≤ℤ position }
    requires high { position ≤ℤ pos MAX_LEVELS }
    ensures { result ≡ position +ℤ tree.left_cell dir }
{
    match dir {
        Dir::L => position + 1,
        Dir::R => position - 1,
    }
}
