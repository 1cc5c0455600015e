//! Why a line of the script gets no answer.
use refusal::Refusal;
use script::Fault;

/// Why a line gets no answer. Such a line changes nothing.
#[derive(Clone, Copy)]
pub(crate) enum Failure {
    /// It is no command.
    Fault(Fault),
    /// It is a command that is refused.
    Refused(Refusal),
}

impl From<Fault> for Failure {
    ghost use Rattle.std.specs.Prelude.{◌≡◌};
    ghost use Rattle.panel.specs.declared.failure.Failure.TheVariants.{Fault as Faulty};

    ghost from_gives = { λ fault failure. failure ≡ Faulty fault };

    fn from(fault: Fault) -> Failure {
        Failure::Fault(fault)
    }
}

impl From<Refusal> for Failure {
    ghost use Rattle.std.specs.Prelude.{◌≡◌};
    ghost use Rattle.panel.specs.declared.failure.Failure.TheVariants.{Refused};

    ghost from_gives = { λ refusal failure. failure ≡ Refused refusal };

    fn from(refusal: Refusal) -> Failure {
        Failure::Refused(refusal)
    }
}
