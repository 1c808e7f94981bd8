//! What holds of every history of every run. Each law is the contract of a function that computes nothing.
ghost use Rattle.run_parts.specs.Laws.{AnswersAreThoseOfTheSquare, RunsFillExactlyThePlaces};

use crate::kinds::Entry;

/// After every history of a run on closed pairs the square holds entries only where the reserve has places; and once
/// every coupling and every diagonal was put and every pivot made, each place holds one.
#[tactic(auto, using(crate::proofs::Histories::whole))]
pub fn runs_fill_exactly_the_places<E: Entry>()
    ensures { RunsFillExactlyThePlaces E.kind }
{}

/// Over tables that hold the square of a history, entry answers what the square holds, and step decides by the square.
#[tactic(auto, using(crate::proofs::Calls::by_square))]
pub fn answers_are_those_of_the_square<E: Entry>()
    ensures { AnswersAreThoseOfTheSquare E.kind }
{}
