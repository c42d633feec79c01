//! Laws on the texts of certificates: public functions without a body, whose contracts are the laws.
ghost use Rattle.rasta_cert.specs.Laws.{CertificatesAreNotRefused, OneRefusal, TextIsItsLines, TextsDiffer};

/// Each certificate has one text, and no two share theirs.
pub fn texts_differ()
    ensures { TextsDiffer }
{}

/// A certificate's text is nothing but its lines.
pub fn text_is_its_lines()
    ensures { TextIsItsLines }
{}

/// A text is that of one certificate, or refused by one fault at one line.
pub fn texts_have_one_answer()
    ensures refusal { OneRefusal }
    ensures certificate { CertificatesAreNotRefused }
{}
