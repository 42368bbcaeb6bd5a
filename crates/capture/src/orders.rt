// Numbers of two and four bytes in either order, and the numbers of the refusals.
ghost use Rattle.std.specs.Prelude.{◌≡◌, ℕ, ◌+◌, ◌^◌, ◌<◌, ◌≤◌, ◌++◌, length, take, refl};
ghost use Rattle.std.specs.Int.{Width, w16, w32, byte_len, to_le_bytes, to_be_bytes, from_le_bytes, from_be_bytes};
ghost use Rattle.capture.specs.Numbers.{number_bytes, number_at};
ghost use Rattle.capture.specs.Refusals.{number_of};

use crate::layout::{Order, Refusal};

impl Refusal {
    // The number under which the refusal is known. No discriminants: this function and its definition would stay, and
    // only the numbers move.
    pub fn number(self) -> u8
        ensures value { result ≡ number_of self }
    {
        match self {
            Refusal::ShortFile => 20,
            Refusal::BadMagic => 21,
            Refusal::BadVersion => 22,
            Refusal::BadLink => 23,
            Refusal::Incomplete => 24,
            Refusal::BadFraction => 25,
            Refusal::BadLength => 26,
        }
    }
}

// A number of N bytes. One text reads and writes every width.
pub(crate) trait Number<const N: usize>: Copy {
    ghost width: { Width };

    ghost value: { Self → ℕ };

    // Its bytes, the lowest first.
    fn low_first(self) -> [u8; N]
        ensures value { result ≡ to_le_bytes width (value self) }
        ensures bound { value self < 256 ^ N };

    // Its bytes, the highest first.
    fn high_first(self) -> [u8; N]
        ensures value { result ≡ to_be_bytes width (value self) }
        ensures bound { value self < 256 ^ N };

    // The number that bytes are, the lowest first.
    fn of_low_first(bytes: &[u8; N]) -> Self
        ensures { value result ≡ from_le_bytes width bytes.now };

    // The number that bytes are, the highest first.
    fn of_high_first(bytes: &[u8; N]) -> Self
        ensures { value result ≡ from_be_bytes width bytes.now };

    ghost long: { byte_len width ≡ N };
}

impl Number<4> for u32 {
    ghost width = { w32 };

    ghost value = { λ n. n };

    ghost long = { refl };

    fn low_first(self) -> [u8; 4] {
        self.to_le_bytes()
    }

    fn high_first(self) -> [u8; 4] {
        self.to_be_bytes()
    }

    fn of_low_first(bytes: &[u8; 4]) -> u32 {
        u32::from_le_bytes(*bytes)
    }

    fn of_high_first(bytes: &[u8; 4]) -> u32 {
        u32::from_be_bytes(*bytes)
    }
}

// The same text at the other width: impls cannot share it, and no macro may write them. `num_traits` has such impls, but
// asks a premise of each number, as floats need, and states neither its bound nor how many bytes it has.
impl Number<2> for u16 {
    ghost width = { w16 };

    ghost value = { λ n. n };

    ghost long = { refl };

    fn low_first(self) -> [u8; 2] {
        self.to_le_bytes()
    }

    fn high_first(self) -> [u8; 2] {
        self.to_be_bytes()
    }

    fn of_low_first(bytes: &[u8; 2]) -> u16 {
        u16::from_le_bytes(*bytes)
    }

    fn of_high_first(bytes: &[u8; 2]) -> u16 {
        u16::from_be_bytes(*bytes)
    }
}

impl Order {
    // The bytes of a number.
    pub(crate) fn bytes<T: Number<N>, const N: usize>(self, number: T) -> [u8; N]
        ensures value { result ≡ number_bytes T.width self (T.value number) }
        ensures bound { T.value number < 256 ^ N }
    {
        match self {
            Order::Little => number.low_first(),
            Order::Big => number.high_first(),
        }
    }

    // The number that the bytes from `at` on are.
    pub(crate) fn number<T: Number<N>, const N: usize>(self, bytes: &[u8], at: usize) -> T
        requires { at + N ≤ length bytes.now }
        ensures value { T.value result ≡ number_at T.width self bytes.now at }
    {
        let digits = bytes[at..].first_chunk::<N>().unwrap();
        match self {
            Order::Little => T::of_low_first(digits),
            Order::Big => T::of_high_first(digits),
        }
    }

    // Writes a number's bytes over those from `at` on.
    pub(crate) fn put<T: Number<N>, const N: usize>(self, number: T, bytes: &mut [u8], at: usize)
        requires { at + N ≤ length bytes.old }
        ensures front { take (at + N) bytes.new ≡ take at bytes.old ++ number_bytes T.width self (T.value number) }
        ensures bound { T.value number < 256 ^ N }
    {
        bytes[at..at + N].copy_from_slice(&self.bytes(number));
    }
}
