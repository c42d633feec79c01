//! What the answers of an audit say: public functions without a body, whose contracts are the laws.
ghost use Rattle.std.specs.Prelude.{ℕ, List};
ghost use Rattle.rasta_pdu.specs.Params.{Parameters};
ghost use Rattle.seatmelon_audit.specs.Answers.{IsAnswer};
ghost use Rattle.seatmelon_audit.specs.Audits.{IsAuditedAs};
ghost use Rattle.seatmelon_audit.specs.declared.answer.Answer.{Answer};

/// An answer is that of an audit of the capture for the connection alone: a refusal has its line and the status 1, and
/// an explanation the status 0. A lack of memory says nothing.
pub fn answers_are_audits()
    ensures { (p : Parameters) (file : List ℕ) (answer : Answer) → IsAnswer p file answer → IsAuditedAs p file answer }
{}
