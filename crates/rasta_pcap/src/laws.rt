//! Laws on the records of a capture file: functions without a body, whose contracts are the laws.
ghost use Rattle.std.specs.Prelude.{◌≡◌, ℕ, ◌+◌, ◌-◌, ◌<◌, ◌≤◌, List, ◌++◌, length, take, drop, map, Ok, Err, Some, None};
ghost use Rattle.std.specs.List.{range_with_len};
ghost use Rattle.rasta_pcap.specs.declared.fault.Fault.{Fault};
ghost use Rattle.rasta_pcap.specs.declared.pcap.Endianness.{Endianness};
ghost use Rattle.rasta_pcap.specs.Fault.{fault_at};
ghost use Rattle.rasta_pcap.specs.Captured.{reading_as, walk_of};
ghost use Rattle.rasta_pcap.specs.Capture.{FileCursor, IsHeader, IsCapture, IsRefusedFile, Numbered, max_records, opening, reading_of, bytes_of};

/// A file is opened exactly where its first 24 bytes are a header that is read, and a header is
/// read in one byte order alone.
pub fn header_is_read()
    // Where the first 24 bytes are such a header, the cursor stands after them.
    ensures opened { (file : List ℕ) (order : Endianness) → IsHeader order (take 24 file)
        → opening file ≡ Ok (record { order = order; rest = drop 24 file; count = 0 }) }
    // A file is opened only there, and in the order of its header.
    ensures only { (file : List ℕ) (c : FileCursor) → opening file ≡ Ok c
        → IsHeader c.order (take 24 file)
        × (c ≡ record { order = c.order; rest = drop 24 file; count = 0 }) }
    // No header is one in both orders.
    ensures one_order { (a b : Endianness) (header : List ℕ) → IsHeader a header
        → IsHeader b header → a ≡ b }
{}

/// A file that is read without a fault has exactly the records that were read, so no file has two
/// lists of records.
pub fn capture_is_read()
    // What is read without a fault are the records of the file.
    ensures read { (limit : ℕ) (file : List ℕ) → (reading_of limit file).fault ≡ None
        → IsCapture limit file (bytes_of (reading_of limit file)) }
    // The records of a file are read, without a fault.
    ensures only { (limit : ℕ) (file : List ℕ) (records : List (List ℕ)) → limit ≤ max_records
        → IsCapture limit file records
        → (bytes_of (reading_of limit file) ≡ records) × ((reading_of limit file).fault ≡ None) }
    // Where as many records stand as may be read, bytes after them change nothing.
    ensures after { (limit : ℕ) (file more : List ℕ) (records : List (List ℕ))
        → IsCapture limit file records → length records ≡ limit
        → IsCapture limit (file ++ more) records }
{}

/// A file that is refused at a record has exactly the records before it.
pub fn refusal_is_read()
    // What is read before a record's fault are the records of the file there.
    ensures read { (limit : ℕ) (file : List ℕ) (fault : Fault)
        → (reading_of limit file).fault ≡ Some fault → 0 < fault.place
        → IsRefusedFile limit file (bytes_of (reading_of limit file)) fault }
    // The records before a refusal are read, and then its fault.
    ensures only { (limit : ℕ) (file : List ℕ) (records : List (List ℕ)) (fault : Fault)
        → limit ≤ max_records + 1 → IsRefusedFile limit file records fault
        → (bytes_of (reading_of limit file) ≡ records)
        × ((reading_of limit file).fault ≡ Some fault) }
    // The refusal names the first record that isn't there.
    ensures place { (limit : ℕ) (file : List ℕ) (records : List (List ℕ)) (fault : Fault)
        → IsRefusedFile limit file records fault
        → fault ≡ fault_at fault.number (length records + 1) }
    // The records before a refusal are those of the same file, as far as there.
    ensures before { (limit : ℕ) (file : List ℕ) (records : List (List ℕ)) (fault : Fault)
        → IsRefusedFile limit file records fault → IsCapture (fault.place - 1) file records }
{}

/// A fault that names no record is the header's.
pub fn header_refusal_is_read()
    // A fault at no record is that of the header.
    ensures read { (limit : ℕ) (file : List ℕ) (fault : Fault)
        → (reading_of limit file).fault ≡ Some fault → fault.place ≡ 0
        → opening file ≡ Err fault }
    // The header's fault ends the reading, and names no record.
    ensures only { (limit : ℕ) (file : List ℕ) (fault : Fault) → opening file ≡ Err fault
        → ((reading_of limit file).fault ≡ Some fault) × (fault.place ≡ 0) }
{}

/// The records of a file are numbered in their order, from 1.
pub fn records_are_numbered()
    ensures { (limit : ℕ) (file : List ℕ) → let records = (reading_of limit file).records in
        map (λ (r : Numbered). r.0) records ≡ range_with_len 1 (length records) }
{}

/// A walk over the records of a file has the records of a reading, in the same order, and its fault.
pub fn walk_is_reading()
    ensures { (most : ℕ) (file : List ℕ) → reading_as (walk_of most file) ≡ reading_of most file }
{}
