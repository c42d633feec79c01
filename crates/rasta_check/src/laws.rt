//! Laws on every run of two ends, and on captures: public functions without a body, whose contracts are
//! the laws.
ghost use Rattle.std.specs.Prelude.{◌≡◌, ◌≤◌, ◌↔◌, ◌⊎◌, ℕ, List, [], length, Ok, Err, IsSome};
ghost use Rattle.rasta_pcap.specs.declared.fault.Fault.{Fault};
ghost use Rattle.rasta_pcap.specs.Fault.{redundancy_length, number_gap};
ghost use Rattle.rasta_pcap.specs.Capture.{IsCapture};
ghost use Rattle.rasta_pdu.specs.Params.{Parameters, AreParameters};
ghost use Rattle.rasta_pdu.specs.Messages.{AreBytes};
ghost use Rattle.rasta_check.specs.Capture.SentLists.{FirstCopy, crossing_list};
ghost use Rattle.rasta_check.specs.Capture.Crossing.{AreSentLists, Crossing};
ghost use Rattle.rasta_check.specs.Capture.Reading.{crossing_of};
ghost use Rattle.rasta_check.specs.Capture.Faults.{Impossible, packets_through, IsFaultlessCapture, IsRefusedCapture};
ghost use Rattle.rasta_check.specs.Model.Laws;
ghost use Rattle.rasta_check.specs.Model.Settled.{SettledUnits};
ghost use Rattle.rasta_check.specs.Model.Middle.{FromTheMiddle};
ghost use Rattle.rasta_check.specs.Model.Theorem.{OfConnection, SentLists, Definite, Necessity};
ghost use Rattle.rasta_check.specs.Run.Laws.{OneLineEach, SameRuns, Simulation};
ghost use Rattle.rasta_check.specs.Script.Laws.{Sharpness, Complete, Stuck, Agree, OneAnswer, OneVerdict};

/// The SN of a PDU names one position of its end.
pub fn sn_once()
    ensures { Laws.SnOnce }
{}

/// An end answers the requests of its peer in order, each by going back to the position that it confirms.
pub fn asks()
    ensures { Laws.Asks }
{}

/// The units conveyed through the last position of an end that owes nothing are those that it offered.
pub fn units()
    ensures { Laws.Units }
{}

/// Where types settle how many units lag behind at a position, the units conveyed through it are all but so
/// many of those offered up to it.
pub fn settled_units()
    ensures { SettledUnits }
{}

/// Data that some packets of a run show, whatever is missing between them, had been handed up when the PDU that
/// shows them crossed.
pub fn from_the_middle()
    ensures { (p : Parameters) → OfConnection p → FromTheMiddle p }
{}

/// A PDU confirms the position that its end accepted last, and no other.
pub fn confirmed()
    ensures { Laws.Confirmed }
{}

/// An end hands up the units of its peer, each once and in order, as many as its peer conveyed through
/// the position that it accepted last.
pub fn handed()
    ensures { Laws.Handed }
{}

/// The sent lists of a run are what its ends made, at the places where it first crossed.
pub fn sent_lists()
    ensures { (p : Parameters) → OfConnection p → SentLists p }
{}

/// No packet of a run has a fault, after a list of its sender within the limits: where a captured one has,
/// no run sends the packets up to it.
pub fn definite()
    ensures { (p : Parameters) → OfConnection p → Definite p }
{}

/// Runs with what happened in them are the runs of two ends.
pub fn same_runs()
    ensures { (p : Parameters) → SameRuns p }
{}

/// Each move of a run has one line.
pub fn one_line_each()
    ensures { (p : Parameters) → OneLineEach p }
{}

/// Two scripts that fit, each without the other, tell one run that sends exactly the packets, move by move.
pub fn simulation()
    ensures { (p : Parameters) → OfConnection p → Simulation p }
{}

/// In every run that sends the packets, within the limits, the far end handed up what is listed as taken,
/// once each and in order, and each message before its proof crossed.
pub fn necessity()
    ensures { (p : Parameters) → OfConnection p → Necessity p }
{}

/// Where both scripts fit, within the limits, some run that sends the packets hands up exactly what is
/// listed.
pub fn sharpness()
    ensures { (p : Parameters) → OfConnection p → Sharpness p }
{}

/// Every run within the limits is told by two scripts that fit.
pub fn complete()
    ensures { (p : Parameters) → OfConnection p → Complete p }
{}

/// A script leads to one end; where its next entry can't follow, no script that begins so fits.
pub fn stuck()
    ensures { (p : Parameters) → OfConnection p → Stuck p }
{}

/// A script fits exactly where it is followed entry by entry.
pub fn fits_where_followed()
    ensures { (p : Parameters) → OfConnection p → Agree p }
{}

/// A script fits, with one end, or has one first fault, and not both.
pub fn scripts_have_one_answer()
    ensures { OneAnswer }
{}

/// Two scripts have one verdict.
pub fn verdicts_are_one()
    ensures { OneVerdict }
{}

/// Two empty lists and no packets meet the condition of [`check_lists`](crate::check_lists).
pub fn empty_lists_are_sent()
    ensures { (p : Parameters) → OfConnection p → AreSentLists p 0 [] [] }
{}

/// What is read of a capture are the packets of its records.
pub fn crossing_is_read()
    // The file is a capture, whose records hold these packets.
    ensures records { (p : Parameters) (file : List ℕ) (k : Crossing) → AreParameters p → crossing_of p file ≡ Ok k
        → (records : List (List ℕ)) × IsCapture p.last_record file records
        × (k.packets ≡ crossing_list p records) × (k.params ≡ p) }
    // No other list of records is that of the file.
    ensures packets { (p : Parameters) (file : List ℕ) (k : Crossing) (records : List (List ℕ)) → AreParameters p
        → crossing_of p file ≡ Ok k → IsCapture p.last_record file records
        → k.packets ≡ crossing_list p records }
{}

/// A fault that speaks of a side is definite: no run sends the packets up to its record, whatever follows.
pub fn refused_packets_are_impossible()
    // No run sends packets that begin with those of the records up to the one that the fault names.
    ensures packets { (p : Parameters) (file : List ℕ) (f : Fault) → OfConnection p → AreBytes file
        → crossing_of p file ≡ Err f → IsSome f.end → Impossible p (packets_through p file f.place) }
    // Those records stand in the file, and hold these packets.
    ensures records { (p : Parameters) (file : List ℕ) (f : Fault) → OfConnection p → AreBytes file
        → crossing_of p file ≡ Err f → IsSome f.end
        → (records : List (List ℕ)) × IsCapture f.place file records × (length records ≡ f.place)
        × (packets_through p file f.place ≡ crossing_list p records) }
{}

/// Exactly a capture without a fault is read, with the lists that its sides sent.
pub fn faultless_capture_is_read()
    // What is read without a fault is such a capture.
    ensures read { (p : Parameters) (file : List ℕ) (k : Crossing) → OfConnection p → AreBytes file
        → crossing_of p file ≡ Ok k → IsFaultlessCapture p file k.client k.server }
    // Such a capture is read, and its sides sent no other lists.
    ensures only { (p : Parameters) (file : List ℕ) (client server : List FirstCopy) → OfConnection p → AreBytes file
        → IsFaultlessCapture p file client server
        → (k : Crossing) × (crossing_of p file ≡ Ok k) × (k.client ≡ client) × (k.server ≡ server) }
{}

/// Exactly a refused capture is read with a fault, which is its first.
pub fn refused_capture_is_read()
    // What is read with a fault is a refused capture.
    ensures read { (p : Parameters) (file : List ℕ) (f : Fault) → OfConnection p → AreBytes file
        → crossing_of p file ≡ Err f → IsRefusedCapture p file f }
    // Such a capture is read with that fault.
    ensures only { (p : Parameters) (file : List ℕ) (f : Fault) → OfConnection p → AreBytes file
        → IsRefusedCapture p file f → crossing_of p file ≡ Err f }
{}

/// A file is a capture without a fault, or one with a first fault, and not both.
pub fn captures_have_one_answer()
    ensures some { (p : Parameters) (file : List ℕ) → OfConnection p → AreBytes file
        → ((c : List FirstCopy) × (s : List FirstCopy) × IsFaultlessCapture p file c s) ⊎ ((f : Fault) × IsRefusedCapture p file f) }
    // No other fault is its first.
    ensures one { (p : Parameters) (file : List ℕ) (f g : Fault) → OfConnection p → AreBytes file
        → IsRefusedCapture p file f → IsRefusedCapture p file g → f ≡ g }
    ensures not_both { (p : Parameters) (file : List ℕ) (c s : List FirstCopy) (f : Fault) → OfConnection p → AreBytes file
        → IsFaultlessCapture p file c s → IsRefusedCapture p file f → ⊥ }
{}

/// The first fault of a capture speaks of a side exactly where it is one of 20 to 28.
pub fn packet_faults_speak_of_sides()
    ensures { (p : Parameters) (file : List ℕ) (f : Fault) → crossing_of p file ≡ Err f
        → IsSome f.end ↔ (redundancy_length ≤ f.number) × (f.number ≤ number_gap) }
{}
