//! What is held, and putting more behind it.
ghost use Rattle.std.specs.Prelude.{◌≡◌, [], ◌∷◌, length, Ok, nat_le};
ghost use Rattle.refusal.specs.declared.Refusal.TheVariants.{TooManyMonomials};
ghost use Rattle.formula.specs.Formula.{max_monomials, provided};
ghost use Rattle.formula.specs.Held.{Appended, held, outcome};
ghost use Rattle.formula.specs.Sum.{kept, nonzero};

use crate::WorkingFormula;
use arrayvec::ArrayVec;
use refusal::Refusal;
use term::Monomial;

impl WorkingFormula {
    /// Memory that holds zero, the empty formula.
    pub fn new() -> WorkingFormula
        ensures { held result ≡ [] }
    {
        WorkingFormula {
            monomials: ArrayVec::new(),
        }
    }

    /// Memory that holds a list as it is. It refuses a list of more than 64 monomials.
    pub fn holding(list: &[Monomial]) -> Result<WorkingFormula, Refusal>
        ensures { outcome result ≡ provided (nat_le (length list.now) max_monomials) TooManyMonomials (Ok list.now) }
    {
        let mut monomials = ArrayVec::new();
        monomials
            .try_extend_from_slice(list)
            .map_err(|_| Refusal::TooManyMonomials)?;
        Ok(WorkingFormula { monomials })
    }

    /// The formula that is held.
    pub fn monomials(&self) -> &[Monomial]
        ensures { result.now ≡ held self.now }
    {
        self.monomials.as_slice()
    }

    /// Puts a monomial behind what is held. It refuses where there is no room.
    fn push(&mut self, m: Monomial) -> Result<(), Refusal>
        ensures { Appended (held self.old) (m ∷ []) result (held self.new) }
    {
        self.monomials.try_push(m).map_err(|_| Refusal::SumTooLong)
    }

    /// Puts a monomial behind what is held, unless its coefficient is 0.
    pub(crate) fn put(&mut self, m: Monomial) -> Result<(), Refusal>
        ensures { Appended (held self.old) (kept m) result (held self.new) }
    {
        if m.coefficient() == 0 {
            return Ok(());
        }
        self.push(m)
    }

    /// Puts the monomials of a list behind what is held, without those whose coefficient is 0.
    pub(crate) fn put_all(&mut self, list: &[Monomial]) -> Result<(), Refusal>
        ensures { Appended (held self.old) (nonzero list.now) result (held self.new) }
    {
        for m in list {
            self.put(*m)?;
        }
        Ok(())
    }
}
