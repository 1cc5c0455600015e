//! What the calls of a workbook answer.
use refusal::Refusal;

/// Why an advance stopped.
#[derive(Clone, Copy)]
pub enum Stop {
    /// All jobs are settled.
    Complete,
    /// As many jobs were settled as were asked for.
    Reached,
    /// The next job is refused.
    Refused(Refusal),
}

/// What an advance answers: how many jobs it settled, and why it stopped.
#[derive(Clone, Copy)]
pub struct Advance {
    pub settled: usize,
    pub stop: Stop,
}

/// What a report answers: how many lines there are, how many jobs are settled, and whether that is all.
#[derive(Clone, Copy)]
pub struct Report {
    pub lines: usize,
    pub settled: usize,
    pub complete: bool,
}

/// What a remainder answers: the length of the result, and how many steps were taken.
#[derive(Clone, Copy)]
pub struct Remainder {
    pub length: usize,
    pub steps: usize,
}

/// How a formula stands to the relations.
#[derive(Clone, Copy)]
pub enum Verdict {
    /// It is a combination of the relations.
    In,
    /// It is none.
    Out,
    /// The workbook is not complete, so it cannot tell.
    Open,
}

/// What a decision answers: the verdict, and how many steps were taken.
#[derive(Clone, Copy)]
pub struct Judgement {
    pub verdict: Verdict,
    pub steps: usize,
}
