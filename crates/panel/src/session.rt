//! A session: what stands from one command of a script to the next.
ghost use Rattle.std.specs.Prelude.{◌≡◌, OnErr};
ghost use Rattle.ring_plan.specs.Rings.{meaning_of as ring_meaning, plan_of};
ghost use Rattle.answer.specs.Texts.{text_of_formula_result};
ghost use Rattle.panel.specs.Answered.{answer_of, formula_line_of, order_after, plan_after, planned, ring_after};
ghost use Rattle.panel.specs.Orders.{first_order, meaning_of as order_meaning};

use answer::{Answer, FormulaAnswer, add, compare, operate, show};
use either::Either;
use formula::PolynomialRing;
use refusal::Refusal;
use ring::Ring;
use ring_plan::{AnyRing, RingPlan};
use script::{AnyOrder, FormulaCommand, PlainCommand};
use term::{Lex, Order};

/// The number of codes of the ring that a script starts with.
const FIRST_SIZE: u32 = 2;

/// What stands: the ring of the last `ring` command that was granted, and the order of the last `order` command.
#[derive(Drop)]
pub(crate) struct Session {
    polynomials: PolynomialRing<AnyRing, AnyOrder>,
}

impl Session {
    /// The session that a script starts with, in the residue ring of 2 codes by the order lex.
    pub(crate) fn new() -> Session
        ensures ring { plan_of result.polynomials.ring ≡ RingPlan.Residue 2 }
        ensures order { result.polynomials.order ≡ first_order }
    {
        let Ok(ring) = RingPlan::Residue(FIRST_SIZE).ring() else {
            unreachable()
        };
        let order = Either::Left(Either::Left(Lex));
        Session {
            polynomials: PolynomialRing { ring, order },
        }
    }

    /// Carries out a command without formulas. A refused one leaves the session as it was.
    pub(crate) fn carry_out(&mut self, command: PlainCommand) -> Result<Answer, Refusal>
        ensures answer { result ≡ answer_of (ring_meaning self.old.polynomials.ring) (order_meaning self.old.polynomials.order) command }
        ensures ring { plan_of self.new.polynomials.ring ≡ ring_after (plan_of self.old.polynomials.ring) command }
        ensures order { self.new.polynomials.order ≡ order_after self.old.polynomials.order command }
        ensures unchanged { OnErr result (self.new ≡ self.old) }
    {
        match command {
            PlainCommand::Ring(plan) => self.open_ring(plan),
            PlainCommand::Order(order) => Ok(self.open_order(order)),
            PlainCommand::Operation(operation) => Ok(operate(&self.polynomials.ring, operation)),
            PlainCommand::Compare(a, b) => Ok(compare(&self.polynomials.order, a, b)),
        }
    }

    /// What a command with formulas answers.
    pub(crate) fn formula(&self, command: &FormulaCommand) -> Result<FormulaAnswer, Refusal>
        ensures { text_of_formula_result result ≡ formula_line_of (ring_meaning self.now.polynomials.ring) (order_meaning self.now.polynomials.order) command.now }
    {
        match command {
            FormulaCommand::Show(list) => show(&self.polynomials, list),
            FormulaCommand::Add(addition) => add(&self.polynomials, addition),
        }
    }

    /// Takes the ring of a plan in the place of the one that stands.
    fn open_ring(&mut self, plan: RingPlan) -> Result<Answer, Refusal>
        ensures answer { result ≡ planned plan }
        ensures ring { plan_of self.new.polynomials.ring ≡ plan_after (plan_of self.old.polynomials.ring) plan }
        ensures order { self.new.polynomials.order ≡ self.old.polynomials.order }
        ensures unchanged { OnErr result (self.new ≡ self.old) }
    {
        self.polynomials.ring = plan.ring()?;
        Ok(Answer::Ring(self.polynomials.ring.size()))
    }

    /// Takes an order in the place of the one that stands.
    fn open_order(&mut self, order: AnyOrder) -> Answer
        ensures answer { result ≡ Answer.Order (order_meaning order).kind }
        ensures ring { self.new.polynomials.ring ≡ self.old.polynomials.ring }
        ensures order { self.new.polynomials.order ≡ order }
    {
        self.polynomials.order = order;
        Answer::Order(order.kind_number())
    }
}
