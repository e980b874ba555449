//! How a call ended.
ghost use Rattle.std.specs.Prelude.{◌≡◌};
ghost use Rattle.sl_c.specs.Answer.{answer_number};

/// How a call ended, which C sees as a number: the first variant is 0, and each other one more than
/// the one before it.
#[derive(Clone, Copy)]
pub enum Answer {
    /// All is done.
    Done,
    /// The spacecraft identifier is over 1023.
    Spacecraft,
    /// The TM frame length is outside 32 to 2048 octets.
    TmLength,
    /// The greatest TC frame length is outside 16 to 1024 octets.
    TcLength,
    /// The FARM-1 window is 0 or odd.
    Window,
    /// The greatest number of octets that may be read is 0.
    Limit,
    /// A recording is longer than the greatest number of octets that may be read.
    TooLong,
    /// Memory was refused.
    Memory,
    /// All is done, but only the front of the text was written: there was no room for the whole
    /// text.
    Room,
    /// A field of a header is out of the range of its bits.
    Field,
    /// The FARM-B counter is over 3.
    Counter,
    /// There is no such event.
    Event,
    /// The virtual channel is over 63.
    VirtualChannel,
}

impl Answer {
    /// The number that C sees.
    pub fn number(self) -> u32
        ensures { result ≡ answer_number self }
    {
        self as u32
    }
}
