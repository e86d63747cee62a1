ghost use Rattle.served_bytes.specs.Seen.{RepliesSendFrames, ServesExactly, TopIsShown};
ghost use Rattle.served_bytes.specs.Seven.{SevenBitsDo};

/// Whatever a terminal was, after what was sent it is as a new one that received the frames alone, but for rows 0 and 23: its
/// position, pending escape and cursor too. Row 0 is the last frame's, row 23 has the last words, and none after a frame.
pub fn serves_exactly()
    ensures { ServesExactly }
{}

/// The frames that are sent for replies are those that `show` paints for them.
pub fn replies_send_frames()
    ensures { RepliesSendFrames }
{}

/// Row 0 has the id and the price of the frame, in the columns in which `show` paints them.
pub fn top_is_shown()
    ensures { TopIsShown }
{}

/// Every terminal does with the seven-bit form of bytes what it does with the bytes.
pub fn seven_bits_do()
    ensures { SevenBitsDo }
{}
