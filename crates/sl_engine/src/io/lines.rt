//! Lines of a listing, put together in a buffer before they are written.
ghost use Rattle.std.specs.Prelude.{◌≡◌, ◌+◌, ◌*◌, ◌^◌, ◌≤◌, ◌<◌, [], ◌++◌, length, decimal, drop, nat_lt, take};
ghost use Rattle.hex.specs.Hex.{encode_lower};
ghost use Rattle.sl_engine.specs.Io.Lines.{HasRoomFor, lines_size, number_width, frame_room};

use crate::io::digits::Decimals;
use crate::io::hexadecimal::Hexadecimals;
use arrayvec::ArrayVec;
use std::marker::Model;

/// The size of the buffer that lines wait in.
pub const LINES_SIZE: usize = 0x10000;

/// Octets that are kept free in that buffer: the lines of a frame, those of its packets aside, take
/// no more.
pub const FRAME_ROOM: usize = 1024;

/// Lines of a listing that are not written yet, 65536 octets at most.
#[derive(Drop)]
pub struct Lines {
    // All `LINES_SIZE` octets are always there, and the lines are the first `len` of them. So
    // `clear` sets `len` alone; that of an `ArrayVec` overwrites what it has. A plain array would
    // do too, but is first built in another place: 64 KiB more of the stack, which can't always
    // grow where memory is short.
    // Most calls are inlined, and from one of these to the next `len` is a register: for a TM frame
    // `show` loads it twice, and stores it three times.
    text: ArrayVec<u8, LINES_SIZE>,
    len: usize,
    decimals: Decimals,
    hexadecimals: Hexadecimals,
}

impl Model for Lines {
    ghost use Rattle.std.specs.Prelude.{ℕ, ◌≡◌, ◌≤◌, List, length, take};
    ghost use Rattle.sl_engine.specs.Io.Lines.{lines_size};

    ghost Value = { List ℕ };

    ghost view = { λ l. take l.len l.text.items };

    ghost invariant = { λ l. (l.len ≤ lines_size) × (length l.text.items ≡ lines_size) };
}

impl Lines {
    /// No lines.
    pub fn new() -> Lines
        ensures { result ≡ [] }
    {
        Lines {
            text: ArrayVec::from([0; LINES_SIZE]),
            len: 0,
            decimals: Decimals::new(),
            hexadecimals: Hexadecimals::new(),
        }
    }

    /// Forgets the lines, which have been written.
    pub fn clear(&mut self)
        ensures { self.new ≡ [] }
    {
        self.len = 0;
    }

    /// The octets of the lines.
    pub fn octets(&self) -> &[u8]
        ensures { result.now ≡ self.now }
    {
        &self.text.as_slice()[..self.len]
    }

    /// Whether fewer than `FRAME_ROOM` octets are free, so that the lines of a frame may not fit.
    pub fn lacks_room_for_a_frame(&self) -> bool
        ensures { result ≡ nat_lt lines_size (length self.now + frame_room) }
    {
        self.len > LINES_SIZE - FRAME_ROOM
    }

    /// How many octets more there is room for.
    pub fn room(&self) -> usize
        ensures { result + length self.now ≡ lines_size }
    {
        LINES_SIZE - self.len
    }

    /// Adds a text whose length is known when the program is built, as that of a literal is.
    #[inline(always)]
    pub fn push<const N: usize>(&mut self, text: &[u8; N])
        requires { HasRoomFor N self.old }
        ensures { self.new ≡ self.old ++ text.now }
    {
        self.push_first(text, N);
    }

    /// Adds the first `many` octets of a text whose length is known when the program is built.
    /// There has to be room for all of the text, since all of it is copied.
    #[inline(always)]
    pub fn push_first<const N: usize>(&mut self, text: &[u8; N], many: usize)
        requires room { HasRoomFor N self.old }
        requires inside { many ≤ N }
        ensures { self.new ≡ self.old ++ take many text.now }
    {
        let len = self.len;
        put(self.text.as_mut_slice(), len, text);
        self.len = len + many;
    }

    /// Adds a text of any length.
    pub fn push_text(&mut self, text: &[u8])
        requires { HasRoomFor (length text.now) self.old }
        ensures { self.new ≡ self.old ++ text.now }
    {
        let len = self.len;
        self.text.as_mut_slice()[len..len + text.len()].copy_from_slice(text);
        self.len = len + text.len();
    }

    /// Adds a number in decimal.
    pub fn push_number(&mut self, number: u64)
        requires { HasRoomFor number_width self.old }
        ensures text { self.new ≡ self.old ++ decimal number }
        ensures short { length self.new ≤ length self.old + number_width }
    {
        match u8::try_from(number) {
            Ok(small) => self.push_small_number(small),
            Err(_) => self.push_large_number(number),
        }
    }

    /// Adds a number in decimal that mostly is a long one with the leading digits of the long number
    /// before it, as the offset of a frame is. This call is then faster than `push_number`.
    #[inline(always)]
    pub fn push_offset(&mut self, offset: u64)
        requires { HasRoomFor number_width self.old }
        ensures text { self.new ≡ self.old ++ decimal offset }
        ensures short { length self.new ≤ length self.old + number_width }
    {
        match self.decimals.long(offset) {
            Some(long) => self.push_long(long),
            None => self.push_other(offset),
        }
    }

    // Adds a long number, as `Decimals` gives it.
    #[inline(always)]
    fn push_long(&mut self, long: ([u8; 16], usize, [u8; 4]))
        requires room { HasRoomFor number_width self.old }
        requires few { long.1 ≤ 16 }
        ensures text { self.new ≡ self.old ++ (take long.1 long.0 ++ long.2) }
        ensures short { length self.new ≤ length self.old + number_width }
    {
        let (places, many, last) = long;
        self.push_first(&places, many);
        self.push(&last);
    }

    // Adds a number, whatever digits are kept. Cold, since those of an offset mostly are.
    #[cold]
    fn push_other(&mut self, number: u64)
        requires { HasRoomFor number_width self.old }
        ensures text { self.new ≡ self.old ++ decimal number }
        ensures short { length self.new ≤ length self.old + number_width }
    {
        self.push_number(number);
    }

    // Adds a number of three digits or more, as each that isn't an octet is.
    fn push_large_number(&mut self, number: u64)
        requires room { HasRoomFor number_width self.old }
        requires large { 100 ≤ number }
        ensures text { self.new ≡ self.old ++ decimal number }
        ensures short { length self.new ≤ length self.old + number_width }
    {
        let last = self.decimals.last_four((number % 10_000) as u16);
        if number >= 10_000 {
            match self.decimals.leading(number / 10_000) {
                Some(leading) => self.push_both(leading, &last),
                // A call in last place, so that the other arm needn't save registers for it: `show`
                // of TM frames takes 5 % fewer instructions.
                None => self.push_anew(number / 10_000, &last),
            }
        } else if number >= 1000 {
            self.push(&last);
        } else {
            let [_, hundreds, tens, units] = last;
            self.push(&[hundreds, tens, units]);
        }
    }

    // Adds leading digits that aren't kept yet, and the last four. Cold, since few are: `show` of
    // TM frames takes 7 % fewer instructions.
    #[cold]
    fn push_anew(&mut self, leading: u64, last: &[u8; 4])
        requires room { HasRoomFor number_width self.old }
        requires some { 1 ≤ leading }
        requires leading { leading * 10000 < 2 ^ 64 }
        ensures text { self.new ≡ self.old ++ (decimal leading ++ last.now) }
        ensures short { length self.new ≤ length self.old + number_width }
    {
        let leading = self.decimals.new_leading(leading);
        self.push_both(leading, last);
    }

    // Adds leading digits, as `Decimals` gives them, and the last four digits.
    #[inline(always)]
    fn push_both(&mut self, leading: ([u8; 16], usize), last: &[u8; 4])
        requires room { HasRoomFor number_width self.old }
        requires few { leading.1 ≤ 16 }
        ensures text { self.new ≡ self.old ++ (take leading.1 leading.0 ++ last.now) }
        ensures short { length self.new ≤ length self.old + number_width }
    {
        let (places, many) = leading;
        self.push_first(&places, many);
        self.push(last);
    }

    /// Adds a number of one octet, 0 to 255, in decimal. Most numbers of a listing are below 256,
    /// and this call is faster than `push_number`. It wants room for four octets, which
    /// `push_first` copies.
    #[inline(always)]
    pub fn push_small_number(&mut self, number: u8)
        requires { HasRoomFor 4 self.old }
        ensures text { self.new ≡ self.old ++ decimal number }
        ensures short { length self.new ≤ length self.old + 3 }
    {
        let (places, many) = self.decimals.of_octet(number);
        self.push_first(&places, many);
    }

    /// Adds octets in hexadecimal.
    #[inline(always)]
    pub fn push_hex(&mut self, octets: &[u8])
        requires { HasRoomFor (2 * length octets.now) self.old }
        ensures { self.new ≡ self.old ++ encode_lower octets.now }
    {
        let len = self.len;
        self.hexadecimals.put(octets, self.text.as_mut_slice(), len);
        self.len = len + 2 * octets.len();
    }

    /// Adds a word in hexadecimal.
    #[inline(always)]
    pub fn push_hex_word(&mut self, word: &[u8; 4])
        requires { HasRoomFor 8 self.old }
        ensures text { self.new ≡ self.old ++ encode_lower word.now }
        ensures len { length self.new ≡ length self.old + 8 }
    {
        let text = self.hexadecimals.of_word(word);
        self.push(&text);
    }
}

// Writes a text into a buffer, from the place `at` on. Copying first tells the compiler that text
// and buffer don't overlap.
#[inline(always)]
fn put<const N: usize>(buffer: &mut [u8], at: usize, text: &[u8; N])
    requires { at + N ≤ length buffer.old }
    ensures { buffer.new ≡ take at buffer.old ++ (text.now ++ drop (at + N) buffer.old) }
{
    let octets = *text;
    buffer[at..at + N].copy_from_slice(&octets);
}
