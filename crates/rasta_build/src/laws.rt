//! Laws on the builder as a function of definitions: public functions without a body, whose contracts are
//! the laws.
ghost use Rattle.std.specs.Prelude.{List, ℕ};
ghost use Rattle.rasta_pdu.specs.Params.{Parameters};
ghost use Rattle.rasta_check.specs.Capture.SentLists.{FirstCopy};
ghost use Rattle.rasta_check.specs.Capture.Crossing.{AreSentLists};
ghost use Rattle.rasta_check.specs.Model.Theorem.{OfConnection};
ghost use Rattle.rasta_build.specs.Completeness.{IsComplete, IsProposal};
ghost use Rattle.rasta_build.specs.Proposing.{proposal};

/// What is proposed for two sent lists is complete: it explains whatever a run within the limits sends; and
/// where it finds nothing at a place, no run within the limits sends packets that begin with those up to
/// that place, and some run sends exactly those before it.
pub fn complete()
    ensures { (p : Parameters) (c s : List FirstCopy) → OfConnection p → IsComplete p c s (proposal p c s) }
{}

/// What is proposed for the sent lists of so many packets fits, whether or not any run sends them; where
/// nothing is proposed, nothing is found at a place.
pub fn proposals_fit()
    ensures { (p : Parameters) (packets : ℕ) (c s : List FirstCopy) → AreSentLists p packets c s → IsProposal p packets c s (proposal p c s) }
{}
