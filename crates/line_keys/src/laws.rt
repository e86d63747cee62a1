ghost use Rattle.line_keys.specs.Laws.{WordsAreHeard, TelnetIsPassedOver, TopBitIsDropped};

/// The words of keys are heard as these keys, and bytes in turn as their concatenation.
pub fn words_are_heard()
    ensures { WordsAreHeard }
{}

/// Commands of telnet's, within the caller's command so far too, end no key and leave it as it was.
pub fn telnet_is_passed_over()
    ensures { TelnetIsPassedOver }
{}

/// Bit 7 of the caller's own bytes says nothing.
pub fn top_bit_is_dropped()
    ensures { TopBitIsDropped }
{}
