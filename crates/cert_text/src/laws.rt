//! Laws of the grammar.

ghost use Rattle.cert_text.specs.Reading.{TextsAreCertificates, LinesAreJudged, LongTextsAreDecided};

/// Each certificate has one text, and each text is that of at most one certificate. No text begins another, and a text without a
/// fault is a certificate's.
pub fn texts_are_certificates()
    ensures { TextsAreCertificates }
{}

/// The lines of a text are judged one by one by their places, the first fault is the text's, and lines are counted from 1.
pub fn lines_are_judged()
    ensures { LinesAreJudged }
{}

/// After 8,454,918 bytes of a text (65,542 lines of 128 bytes, each with its end), what is read doesn't depend on what follows,
/// since no right text is so long. So nobody need take more bytes than that.
pub fn long_texts_are_decided()
    ensures { LongTextsAreDecided }
{}
