//! The search.
ghost use Rattle.tx_history.specs.Records.{IsRecorded};

use crate::choose::Choices;
use crate::lemmas::refutation_by;
use crate::net::Net;
use crate::pairs::Pairs;
use crate::solver::{Clash, Learned, Solver};
use std::alloc::{AllocError, Global};
use tx_verdict::{Refutation, Versions};
use tx_web::{Finds, Lists, commit_of};

/// What came of a search.
#[derive(Drop)]
pub enum Sought {
    /// An order in which it may be kept: by transaction, numbers that rise with the commits.
    Order(Vec<usize>),
    /// No order of all.
    Refuted(Refutation),
    /// It met as many cycles as it may.
    Spent,
    /// Too many pairs of chains, or no order of the graph to begin with.
    Nothing,
}

// How a search ended.
#[derive(Drop)]
enum End {
    Ordered,
    Empty(Learned),
    Spent,
}

// How many cycles may be met yet.
#[derive(Drop)]
struct Budget {
    left: u32,
}

impl Solver<'_> {
    // Adds the pairs of literals that were learned of to those that are chosen first.
    fn add_choices(&self, choices: &mut Choices, literals: &[u32]) -> Result<(), AllocError> {
        for i in 0..literals.len() {
            let literal = literals[literals.len() - 1 - i];
            if let Some(pair) = self.pairs.ends(literal) {
                choices.add_learned(pair)?;
            }
        }
        Ok(())
    }

    // Learns from clashes until there is none; the empty clause, if that was learned.
    fn settle(
        &mut self,
        alloc: Global,
        first: Option<Clash>,
        choices: &mut Choices,
        budget: &mut Budget,
    ) -> Result<Option<End>, AllocError> {
        let mut met = first;
        for _ in 0..u64::MAX {
            let Some(clash) = met else {
                return Ok(None);
            };
            let (learned, back) = self.learned(alloc, clash)?;
            let Some(literal) = first_of(&learned) else {
                return Ok(Some(End::Empty(learned)));
            };
            if budget.left == 0 {
                return Ok(Some(End::Spent));
            }
            budget.left -= 1;
            self.back_to(back);
            self.add_choices(choices, learned.literals.as_slice())?;
            let clause = self.add(learned)?;
            let from = self.said.len();
            met = self.say(alloc, literal, Some(clause))?;
            if met.is_none() {
                met = self.propagate(alloc, from)?;
            }
        }
        Ok(Some(End::Spent))
    }

    // Chooses until no two chains of a key overlap, no order is left, or the budget is spent.
    fn run(
        &mut self,
        alloc: Global,
        groups: &[(usize, usize)],
        budget: &mut Budget,
    ) -> Result<End, AllocError> {
        let mut choices = Choices {
            pairs: Vec::new(alloc),
        };
        for _ in 0..u64::MAX {
            let Some(literal) = self.pick(alloc, &mut choices, groups)? else {
                return Ok(End::Ordered);
            };
            let clash = self.choose(alloc, literal)?;
            if let Some(end) = self.settle(alloc, clash, &mut choices, budget)? {
                return Ok(end);
            }
        }
        Ok(End::Spent)
    }

    // By transaction, the place of its commit.
    fn numbers(&self, alloc: Global) -> Result<Vec<usize>, AllocError> {
        let mut numbers = Vec::new(alloc);
        for txn in 0..self.web.txns {
            numbers.push(self.net.place(commit_of(txn)) as usize)?;
        }
        Ok(numbers)
    }
}

// The first literal of a clause.
fn first_of(learned: &Learned) -> Option<u32> {
    let first = learned.literals.first()?;
    Some(*first)
}

/// Searches an order of the chains of a graph, which begins with this order of its nodes and meets
/// at most so many cycles.
///
/// `AllocError` where there was no room.
pub fn search(
    alloc: Global,
    finds: &Finds<'_>,
    versions: &Versions,
    txns: u32,
    by_node: &Lists,
    groups: &[(usize, usize)],
    order: &[u32],
    budget: u32,
) -> Result<Sought, AllocError>
    requires { IsRecorded versions.now.recorded }
{
    if order.len() < finds.web.nodes as usize {
        return Ok(Sought::Nothing);
    }
    let Some(pairs) = Pairs::new(alloc, groups)? else {
        return Ok(Sought::Nothing);
    };
    let net = Net::new(alloc, &finds.web, order)?;
    let mut solver = Solver::new(alloc, &finds.web, finds.loose, pairs, net)?;
    let mut budget = Budget { left: budget };
    match solver.run(alloc, groups, &mut budget)? {
        End::Ordered => Ok(Sought::Order(solver.numbers(alloc)?)),
        End::Spent => Ok(Sought::Spent),
        End::Empty(last) => {
            let found = refutation_by(alloc, finds, versions, txns, by_node, &solver, &last)?;
            match found {
                Some(refutation) => Ok(Sought::Refuted(refutation)),
                None => Ok(Sought::Nothing),
            }
        }
    }
}
