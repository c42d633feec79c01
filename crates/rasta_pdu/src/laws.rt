//! Laws on PDUs and their messages: functions without a body, whose contracts are the laws.
ghost use Rattle.std.specs.Prelude.{◌≡◌, ℕ, ◌<◌, ◌^◌, List, ◌++◌, length, Ok, IsTrue};
ghost use Rattle.rasta_pcap.specs.declared.fault.Side.{Side};
ghost use Rattle.rasta_pdu.specs.Params.{Parameters, AreParameters};
ghost use Rattle.rasta_pdu.specs.Messages.{AreBytes, AreShort, are_messages, messages_of, payload_of_messages};
ghost use Rattle.rasta_pdu.specs.Pdu.{RedundancyPdu, IsRedundancyPdu, redundancy_bytes, length_of, decode_of, receiver_of, sender_of};

/// Reading and spelling are inverse to each other.
pub fn datagram_is_read()
    // What is read is spelled so.
    ensures spelled { (p : Parameters) (side : Side) (bytes : List ℕ) (r : RedundancyPdu)
        → AreParameters p → AreBytes bytes → decode_of p side bytes ≡ Ok r
        → IsRedundancyPdu p r × (bytes ≡ redundancy_bytes p side r) }
    // What is spelled for a side is read for it as the same value.
    ensures read_back { (p : Parameters) (side : Side) (r : RedundancyPdu) → AreParameters p
        → receiver_of p side < 2 ^ 32 → sender_of p side < 2 ^ 32 → IsRedundancyPdu p r
        → decode_of p side (redundancy_bytes p side r) ≡ Ok r }
{}

/// No two values share a spelling, and a spelling has as many bytes as its length field says.
pub fn spellings_differ()
    ensures differ { (p : Parameters) (side : Side) (r s : RedundancyPdu) → AreParameters p
        → IsRedundancyPdu p r → IsRedundancyPdu p s
        → redundancy_bytes p side r ≡ redundancy_bytes p side s → r ≡ s }
    ensures length { (p : Parameters) (side : Side) (r : RedundancyPdu) → AreParameters p
        → IsRedundancyPdu p r → length (redundancy_bytes p side r) ≡ length_of p r }
{}

/// Messages fill their payload exactly, and are read from it.
pub fn messages_are_read()
    // A payload that is filled exactly is the spelling of its messages.
    ensures spelled { (payload : List ℕ) → AreBytes payload → IsTrue (are_messages payload)
        → payload ≡ payload_of_messages (messages_of payload) }
    // Messages that are spelled are read back.
    ensures read_back { (messages : List (List ℕ)) → AreShort messages
        → messages_of (payload_of_messages messages) ≡ messages }
    // One or more of them fill their payload.
    ensures filled { (messages : List (List ℕ)) → AreShort messages → 0 < length messages
        → IsTrue (are_messages (payload_of_messages messages)) }
    // No two lists of messages share a spelling.
    ensures differ { (a b : List (List ℕ)) → AreShort a → AreShort b
        → payload_of_messages a ≡ payload_of_messages b → a ≡ b }
{}
