//! A search for a point that none of many sets of literals forbids: conflict-driven clause
//! learning. Its answers have no contract; the caller checks them.
//!
//! A variable is a number from 0 on. A literal is twice its variable, and one more if it says that
//! the variable is false. A nogood is a set of literals that must not all be true; inside, it is
//! the clause of their negations. [`Search::ask`] answers a [`Answer::Point`] at which all
//! assumptions are true and no nogood is, or a [`Refutation`]: further nogoods, each with those
//! that show it, the last of which has literals of the assumptions alone; or, at its [`Limits`],
//! [`Answer::Unknown`]. The caller checks the answer before it uses it: a poor one costs time
//! alone. Each index is checked before it is used and no sum overflows, so no call has a
//! precondition. The crate is proved to be safe and to end, and nothing more.
//!
//! With the nogood {0, 2}, which forbids that variables 0 and 1 are both true, and the assumption 0, that
//! variable 0 is true, the answer is a point where variable 1 is false. With a further nogood {0, 3} there
//! is none: both show the nogood {0}.
//!
//! Memory is for the nogoods and for the clauses learned of them. A question may take exponentially many
//! conflicts; at its [`Limits`] it ends unanswered.
//!
//! 1. Propagation: a clause with one literal left that is not false sets it. It watches two of its
//!    literals (Moskewicz, Madigan, Zhao, Zhang and Malik, Chaff: engineering an efficient SAT
//!    solver, 2001).
//! 2. Analysis: from a clause that is false a new one is learned, at the first unique implication
//!    point of the current decision level (Marques-Silva and Sakallah, GRASP: a new search
//!    algorithm for satisfiability, 1996). It is made smaller by what follows from the rest of it
//!    (Soerensson and Biere, Minimizing learned clauses, 2009).
//! 3. Hints: the clauses by which the new one is seen, in the order in which they set literals
//!    (Cruz-Filipe, Heule, Hunt, Kaufmann and Schneider-Kamp, Efficient certified RAT verification,
//!    2017).
//! 4. Order: the variable with most part in recent conflicts is decided, as it was set last.
//! 5. Restarts by Luby's sequence. Now and then half of the learned clauses is no longer watched,
//!    those with literals of most levels (Audemard and Simon, Predicting learnt clauses quality in
//!    modern SAT solvers, 2009).
//! 6. Assumptions are decided first, so that what is learned follows from the nogoods alone and
//!    serves each later question (Een and Soerensson, An extensible SAT-solver, 2003).
//! 7. Walks: a search that took long also looks for a point by flipping variables of clauses that
//!    are false (Balint and Schoening, Choosing probability distributions for stochastic local
//!    search and the role of make versus break, 2012). Walks take an eighth of the steps at most.
#![tactic(auto)]

mod analysis;
mod assignment;
mod clauses;
mod decisions;
mod hints;
mod lists;
mod minimisation;
mod numbers;
mod order;
mod propagation;
mod refutation;
mod restarts;
mod search;
mod units;
mod walk;
mod watches;

pub use refutation::Refutation;
pub use search::{Answer, Limits, Search};
