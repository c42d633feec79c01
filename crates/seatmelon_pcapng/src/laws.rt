//! What the classic captures hold that pcapng files are read as.
ghost use Rattle.std.specs.Prelude.{◌≡◌, ◌+◌, ◌<◌, ◌≤◌, ℕ, List, ◌++◌, length, map, None, Some};
ghost use Rattle.std.specs.Io.KnownBytes.{IsAtEnd};
ghost use Rattle.rasta_pcap.specs.Capture.{IsCapture, IsRefusedFile, max_records};
ghost use Rattle.rasta_pcap.specs.Fault.{cut_record, fault_at};
ghost use Rattle.seatmelon_pcapng.specs.Classics.{left_in, refusal_in};
ghost use Rattle.seatmelon_pcapng.specs.Formats as formats;
ghost use Rattle.seatmelon_pcapng.specs.Giving.{Gives, noted_by, told_as};
ghost use Rattle.seatmelon_pcapng.specs.Readings.{Packet, classic_of, reading_of};
ghost use Rattle.seatmelon_pcapng.specs.declared.capture.Capture.{Capture};
ghost use Rattle.seatmelon_pcapng.specs.declared.classic.Classic.{Classic};
ghost use Rattle.seatmelon_pcapng.specs.declared.refusal.Refusal.{Refusal};

use rasta_pcap::Source;

/// The classic capture of a file that isn't refused has just its packets as records.
pub fn converted_is_capture()
    ensures { (file : List ℕ) → (reading_of file).refusal ≡ None → length (reading_of file).packets ≤ max_records
        → IsCapture max_records (classic_of (reading_of file)) (map (λ (p : Packet). p.bytes) (reading_of file).packets) }
{}

/// That of a file that is refused has the packets before as records, and ends inside the next.
pub fn refused_is_cut()
    ensures { (file : List ℕ) (refusal : Refusal) → (reading_of file).refusal ≡ Some refusal → length (reading_of file).packets < max_records
        → IsRefusedFile max_records (classic_of (reading_of file)) (map (λ (p : Packet). p.bytes) (reading_of file).packets)
        (fault_at cut_record (length (reading_of file).packets + 1)) }
{}

/// A file that was told is the one of which a source has noted what it gave.
pub fn told_file_is_noted<S: Source>()
    ensures { (c : Classic S) (file given : List ℕ) → noted_by S.remaining S.notes c (told_as file ++ given) → Gives S.remaining S.notes c file given }
{}

/// Once all was given, the refusal that a source has met is that of the file, or none where that has none.
pub fn refusal_is_of_the_file<S: Source>()
    ensures { (c : Classic S) (file given : List ℕ) → Gives S.remaining S.notes c file given → IsAtEnd (left_in S.remaining c)
        → refusal_in c ≡ (reading_of file).refusal }
{}

/// A refusal that a source has met is that of the file, whatever is left to be given.
pub fn met_refusal_is_of_the_file<S: Source>()
    ensures { (c : Classic S) (file given : List ℕ) (refusal : Refusal) → Gives S.remaining S.notes c file given → refusal_in c ≡ Some refusal
        → (reading_of file).refusal ≡ Some refusal }
{}

/// A file that was told is the one of which a capture in either format has noted what it gave.
pub fn told_capture_is_noted<S: Source>()
    ensures { (c : Capture S) (file given : List ℕ) → formats.noted_by S.remaining S.notes c (told_as file ++ given)
        → formats.Gives S.remaining S.notes c file given }
{}

/// Once all was given, the format that such a capture tells is that of the file, with all that is told of the file beside
/// its packets.
pub fn format_is_of_the_file<S: Source>()
    ensures { (c : Capture S) (file given : List ℕ) → formats.noted_by S.remaining S.notes c (told_as file ++ given)
        → IsAtEnd (formats.left_in S.remaining c) → formats.format_in c ≡ formats.format_of file }
{}

/// A refusal that it has met is that of the file, whatever is left to be given.
pub fn met_refusal_is_of_the_capture<S: Source>()
    ensures { (c : Capture S) (file given : List ℕ) (refusal : Refusal) → formats.noted_by S.remaining S.notes c (told_as file ++ given)
        → formats.refusal_told (formats.format_in c) ≡ Some refusal → formats.refusal_told (formats.format_of file) ≡ Some refusal }
{}

/// And the link type of a packet without bytes that it has met is that of the first such packet of the file.
pub fn met_link_type_is_of_the_capture<S: Source>()
    ensures { (c : Capture S) (file given : List ℕ) (link_type : ℕ) → formats.noted_by S.remaining S.notes c (told_as file ++ given)
        → formats.other_told (formats.format_in c) ≡ Some link_type → formats.other_told (formats.format_of file) ≡ Some link_type }
{}

/// So is that of a packet with a cooked header.
pub fn met_cooked_link_type_is_of_the_capture<S: Source>()
    ensures { (c : Capture S) (file given : List ℕ) (link_type : ℕ) → formats.noted_by S.remaining S.notes c (told_as file ++ given)
        → formats.cooked_told (formats.format_in c) ≡ Some link_type → formats.cooked_told (formats.format_of file) ≡ Some link_type }
{}
