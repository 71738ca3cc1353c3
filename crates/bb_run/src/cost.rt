//! The greatest cost of checking a list, from the numbers in its lines: no claim is checked.
ghost use Rattle.std.specs.Prelude.{◌+◌, ◌<◌, ◌≤◌, ◌^◌, length};
ghost use Rattle.bb_lines.specs.Lines.{lines};
ghost use Rattle.bb_run.specs.Cost.{IsCheckCost, IsClaimCost, IsLineCost};
ghost use Rattle.bb_run.specs.inside.Costing.{AddsLine};

use crate::reply_validation::first_line;
use bb_cert::{LineContent, Verdict, read_line_in_place};
use bb_machine::{Limits, Machine};

/// The most that checking one line can cost.
#[derive(Clone, Copy, Debug, Default, PartialEq, Eq)]
pub struct LineCost {
    /// Steps of the machine.
    pub steps: u64,
    /// Nodes of the backward tree.
    pub nodes: u64,
}

/// The most that checking a list can cost. C sees four numbers in this order.
#[derive(Clone, Copy, Debug, Default, PartialEq, Eq)]
#[repr(C)]
pub struct CheckCost {
    /// The steps of all lines together; 2^64 - 1 stands for that or more.
    pub steps: u64,
    /// The nodes of all lines together; 2^64 - 1 stands for that or more.
    pub nodes: u64,
    /// The steps and nodes of the most expensive line.
    pub most: u64,
    /// The index of that line, from 0; the first one of equal lines, and 0 if no line costs anything.
    pub line: u64,
}

/// The most that checking a list under these limits can cost: the steps and nodes named by its claims. A
/// claim that is answered without a run costs nothing, and neither does a line without a claim. It checks no
/// claim and allocates nothing.
///
/// A line of the list ends at a newline; a last line without one counts if it isn't empty.
pub fn cost_of_check(list: &[u8], limits: &Limits) -> CheckCost
    ensures { IsCheckCost limits.now (lines list.now) result }
{
    limits.show_accepted();
    let mut machine = Machine::blank();
    let mut cost = CheckCost::default();
    let mut left = list;
    let mut index = 0;
    while let Some((line, more)) = first_line(left) {
        let line_cost = cost_of_line(line, limits, &mut machine);
        cost.add(index, line_cost);
        index += 1;
        left = more;
    }
    cost
}

/// The most that checking a line can cost. The machine is read in place of another.
fn cost_of_line(line: &[u8], limits: &Limits, machine: &mut Machine) -> LineCost
    ensures cost { IsLineCost limits.now line.now result }
    ensures small { (result.steps ≤ limits.now.steps) × (result.nodes ≤ limits.now.nodes) }
{
    match read_line_in_place(line, machine) {
        Some(LineContent::Claim(verdict)) => cost_of_claim(&verdict, limits),
        Some(LineContent::Refusal(_)) => LineCost::default(),
        None => LineCost::default(),
    }
}

/// The most that checking a claim can cost.
fn cost_of_claim(verdict: &Verdict, limits: &Limits) -> LineCost
    ensures cost { IsClaimCost limits.now verdict.now result }
    ensures small { (result.steps ≤ limits.now.steps) × (result.nodes ≤ limits.now.nodes) }
{
    match *verdict {
        Verdict::Halt { steps, .. } => cost_of_steps(steps, limits),
        Verdict::Cycler { first, second } => cost_of_pair(first, second, limits),
        Verdict::Translated { first, second, .. } => cost_of_pair(first, second, limits),
        Verdict::Backward { levels, nodes } => cost_of_tree(levels, nodes, limits),
        Verdict::Undecided(_) => LineCost::default(),
    }
}

/// The most that checking a halt can cost.
fn cost_of_steps(steps: u64, limits: &Limits) -> LineCost
    ensures cost { IsClaimCost limits.now (Verdict.Halt steps 0) result }
    ensures small { (result.steps ≤ limits.now.steps) × (result.nodes ≤ limits.now.nodes) }
{
    if steps > limits.steps() {
        return LineCost::default();
    }
    LineCost { steps, nodes: 0 }
}

/// The most that checking a pair of steps can cost.
fn cost_of_pair(first: u64, second: u64, limits: &Limits) -> LineCost
    ensures cost { IsClaimCost limits.now (Verdict.Cycler first second) result }
    ensures small { (result.steps ≤ limits.now.steps) × (result.nodes ≤ limits.now.nodes) }
{
    if first > limits.steps() {
        return LineCost::default();
    }
    if second > limits.steps() {
        return LineCost::default();
    }
    if first >= second {
        return LineCost::default();
    }
    LineCost {
        steps: second,
        nodes: 0,
    }
}

/// The most that checking a tree can cost.
fn cost_of_tree(levels: u64, nodes: u64, limits: &Limits) -> LineCost
    ensures cost { IsClaimCost limits.now (Verdict.Backward levels nodes) result }
    ensures small { (result.steps ≤ limits.now.steps) × (result.nodes ≤ limits.now.nodes) }
{
    if levels > limits.depth() {
        return LineCost::default();
    }
    if nodes > limits.nodes() {
        return LineCost::default();
    }
    LineCost { steps: 0, nodes }
}

impl CheckCost {
    /// Adds the cost of the next line.
    fn add(&mut self, index: u64, line: LineCost)
        requires { line.steps + line.nodes < 2 ^ 64 }
        ensures { AddsLine self.old index line self.new }
    {
        self.steps = self.steps.saturating_add(line.steps);
        self.nodes = self.nodes.saturating_add(line.nodes);
        let together = line.steps + line.nodes;
        if together > self.most {
            self.most = together;
            self.line = index;
        }
    }
}
