//! Worked examples of the calls of a workbook and of the audit, and errors that they refute.
#![tactic(auto)]

ghost use Rattle.model_tests.specs.Errors.{AJobsAreNeeded, CompleteDoesNotLast, DividingIsNotEnough};
ghost use Rattle.model_tests.specs.Readings.{WorkedAudit, WorkedLimits, WorkedRefusals, WorkedRemainders, WorkedRun};

/// Over six codes the relation 2a² + 3a + 1 comes to three lines in nine jobs.
pub fn worked_run()
    ensures { WorkedRun }
{}

/// By these lines 4a + 5 leaves a + 2 in one step, a + 1 is out and 3a + 3 is in.
pub fn worked_remainders()
    ensures { WorkedRemainders }
{}

/// Their sheet has 98 bytes and passes the audit; bytes near it are refused, each for its reason.
pub fn worked_audit()
    ensures { WorkedAudit }
{}

/// What is refused on the way: an exponent that would grow too large, an allowance used up, formulas that are no relations.
pub fn worked_refusals()
    ensures { WorkedRefusals }
{}

/// What just fits the limits of reductions, steps, monomials and lines, and what just does not.
pub fn worked_limits()
    ensures { WorkedLimits }
{}

/// Without its A-job the relation loses 3a + 3, and the workbook would break the law.
pub fn a_jobs_are_needed()
    ensures { AJobsAreNeeded }
{}

/// A complete workbook that grants a relation is complete no longer.
pub fn complete_does_not_last()
    ensures { CompleteDoesNotLast }
{}

/// If a monomial is taken away whole or not at all, formulas that differ by a combination keep different remainders.
pub fn dividing_is_not_enough()
    ensures { DividingIsNotEnough }
{}
