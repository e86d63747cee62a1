//! Telnet's commands among the bytes of a caller.

ghost use Rattle.std.specs.Prelude.{◌≡◌, false};
ghost use Rattle.line_keys.specs.Stream.{is_typed, telnet_after};

/// Where the bytes are in telnet's stream (RFC 854, RFC 855).
#[derive(Debug, Clone, Copy, PartialEq, Eq)]
pub enum Telnet {
    /// The next byte is the caller's own, unless it is FF.
    Plain,
    /// After FF: the next byte says which command this is.
    Command,
    /// After FF and one of FB to FE: the next byte is the option.
    Choice,
    /// After FF FA, up to FF F0.
    Block,
    /// The same, right after an FF.
    BlockMark,
}

impl Telnet {
    // Whether a byte is the caller's own.
    pub fn is_typed(self, byte: u8) -> bool
        ensures { result ≡ is_typed self byte }
    {
        match self {
            Telnet::Plain => byte != 0xff,
            Telnet::Command | Telnet::Choice | Telnet::Block | Telnet::BlockMark => false,
        }
    }

    // Where a byte leads that isn't the caller's own.
    pub fn after(self, byte: u8) -> Telnet
        requires { is_typed self byte ≡ false }
        ensures { result ≡ telnet_after self byte }
    {
        match self {
            Telnet::Plain => Telnet::Command,
            Telnet::Command => match byte {
                0xfa => Telnet::Block,
                0xfb..=0xfe => Telnet::Choice,
                _ => Telnet::Plain,
            },
            Telnet::Choice => Telnet::Plain,
            Telnet::Block => {
                if byte == 0xff {
                    Telnet::BlockMark
                } else {
                    Telnet::Block
                }
            }
            Telnet::BlockMark => {
                if byte == 0xf0 {
                    Telnet::Plain
                } else {
                    Telnet::Block
                }
            }
        }
    }
}
