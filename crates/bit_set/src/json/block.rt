// Blocks whose numbers JSON can hold.
ghost use Rattle.std.specs.Prelude.{◌≡◌, ◌^◌, ◌≤◌, MatchOption};

use crate::BitBlock;

/// A block whose value fits a `u64`, as numbers in JSON do.
pub trait JsonBlock: BitBlock {
    /// The number of the block.
    fn to_number(self) -> u64
        requires { Self.is_block self }
        ensures { result ≡ Self.number self };

    /// The block of a number, or `None` if the number is not below `2 ^ bits()`.
    fn from_number(number: u64) -> Option<Self>
        ensures { MatchOption result (2 ^ Self.width ≤ number)
            (λ block. Self.is_block block × (Self.number block ≡ number)) };
}

impl JsonBlock for u8 {
    #[inline]
    fn to_number(self) -> u64 {
        u64::from(self)
    }

    #[inline]
    fn from_number(number: u64) -> Option<u8> {
        u8::try_from(number).ok()
    }
}

impl JsonBlock for u16 {
    #[inline]
    fn to_number(self) -> u64 {
        u64::from(self)
    }

    #[inline]
    fn from_number(number: u64) -> Option<u16> {
        u16::try_from(number).ok()
    }
}

impl JsonBlock for u32 {
    #[inline]
    fn to_number(self) -> u64 {
        u64::from(self)
    }

    #[inline]
    fn from_number(number: u64) -> Option<u32> {
        u32::try_from(number).ok()
    }
}

impl JsonBlock for u64 {
    #[inline]
    fn to_number(self) -> u64 {
        self
    }

    #[inline]
    fn from_number(number: u64) -> Option<u64> {
        Some(number)
    }
}

impl JsonBlock for usize {
    #[inline]
    fn to_number(self) -> u64 {
        self as u64
    }

    #[inline]
    fn from_number(number: u64) -> Option<usize> {
        Some(number as usize)
    }
}
