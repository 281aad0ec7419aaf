ghost use Rattle.std.specs.Prelude.{◌≡◌, ◌<◌, ◌↔◌, ◌^◌, ℕ, List, ◌++◌, ◌∷◌, length, IfOk, OnErr, IsErr, IsOkAnd, Ok, ℤ};
ghost use Rattle.std.specs.Int.{w32, w64, w128, to_be_bytes, cast_unsigned};
ghost use Rattle.std.specs.Int.RustNames.{FitsSigned};

use std::error::Error;
use std::fmt;
use std::marker::Model;

/// Fewer bytes are left than were asked for.
#[derive(Clone, Copy, Debug, PartialEq, Eq, Hash)]
pub struct Short;

impl fmt::Display for Short {
    fn fmt<W: fmt::Write>(&self, f: &mut fmt::Formatter<W>) -> fmt::Result {
        f.write_str("too few bytes are left")
    }
}

impl Error for Short {}

/// Reads big-endian numbers from the front of some bytes. A contract sees it as the bytes that are left.
#[derive(Debug, Drop)]
pub struct ByteReader<'a> {
    left: &'a [u8],
}

impl<'a> Model for ByteReader<'a> {
    ghost use Rattle.std.specs.Prelude.{List, ℕ};

    ghost Value = { List ℕ };

    ghost view = { λ r. r.left.now };
}

impl<'a> ByteReader<'a> {
    /// A reader of these bytes.
    pub fn new(bytes: &'a [u8]) -> ByteReader<'a>
        ensures { result ≡ bytes.now }
    {
        ByteReader { left: bytes }
    }

    /// How many bytes are left.
    pub fn left(&self) -> usize
        ensures { result ≡ length self.now }
    {
        self.left.len()
    }

    /// Takes 1 byte.
    pub fn u8(&mut self) -> Result<u8, Short>
        // A byte is read exactly where one is left; else the reader stays.
        ensures ok { IfOk result (λ n. self.old ≡ n ∷ self.new) }
        ensures short { IsErr result ↔ (length self.old < 1) }
        ensures err { OnErr result (self.new ≡ self.old) }

        // A byte that was put is read back.
        ensures reads_back { (n : ℕ) (rest : List ℕ) → self.old ≡ n ∷ rest → (result ≡ Ok n) × (self.new ≡ rest) }
    {
        Ok(u8::from_be_bytes(self.array()?))
    }

    /// Takes 4 bytes as a number.
    pub fn u32(&mut self) -> Result<u32, Short>
        // A number is read exactly where it stands whole; else the reader stays.
        ensures ok { IfOk result (λ n. self.old ≡ to_be_bytes w32 n ++ self.new) }
        ensures short { IsErr result ↔ (length self.old < 4) }
        ensures err { OnErr result (self.new ≡ self.old) }

        // A number that was put is read back.
        ensures reads_back { (n : ℕ) (rest : List ℕ) → n < 2 ^ 32 → self.old ≡ to_be_bytes w32 n ++ rest → (result ≡ Ok n) × (self.new ≡ rest) }
    {
        Ok(u32::from_be_bytes(self.array()?))
    }

    /// Takes 8 bytes as a number.
    pub fn u64(&mut self) -> Result<u64, Short>
        // A number is read exactly where it stands whole; else the reader stays.
        ensures ok { IfOk result (λ n. self.old ≡ to_be_bytes w64 n ++ self.new) }
        ensures short { IsErr result ↔ (length self.old < 8) }
        ensures err { OnErr result (self.new ≡ self.old) }

        // A number that was put is read back.
        ensures reads_back { (n : ℕ) (rest : List ℕ) → n < 2 ^ 64 → self.old ≡ to_be_bytes w64 n ++ rest → (result ≡ Ok n) × (self.new ≡ rest) }
    {
        Ok(u64::from_be_bytes(self.array()?))
    }

    /// Takes 8 bytes as a number in two's complement.
    pub fn i64(&mut self) -> Result<i64, Short>
        // A number is read exactly where it stands whole; else the reader stays.
        ensures ok { IfOk result (λ z. self.old ≡ to_be_bytes w64 (cast_unsigned w64 z) ++ self.new) }
        ensures short { IsErr result ↔ (length self.old < 8) }
        ensures err { OnErr result (self.new ≡ self.old) }

        // A number that was put is read back.
        ensures reads_back { (z : ℤ) (rest : List ℕ) → FitsSigned w64 z → self.old ≡ to_be_bytes w64 (cast_unsigned w64 z) ++ rest → (result ≡ Ok z) × (self.new ≡ rest) }
    {
        Ok(self.u64()?.cast_signed())
    }

    /// Takes 16 bytes as a number in two's complement.
    pub fn i128(&mut self) -> Result<i128, Short>
        // A number is read exactly where it stands whole; else the reader stays.
        ensures ok { IfOk result (λ z. self.old ≡ to_be_bytes w128 (cast_unsigned w128 z) ++ self.new) }
        ensures short { IsErr result ↔ (length self.old < 16) }
        ensures err { OnErr result (self.new ≡ self.old) }

        // A number that was put is read back.
        ensures reads_back { (z : ℤ) (rest : List ℕ) → FitsSigned w128 z → self.old ≡ to_be_bytes w128 (cast_unsigned w128 z) ++ rest → (result ≡ Ok z) × (self.new ≡ rest) }
    {
        Ok(self.u128()?.cast_signed())
    }

    /// Takes `n` bytes, which live as long as the bytes that the reader was made of.
    pub fn bytes(&mut self, n: usize) -> Result<&'a [u8], Short>
        // So many bytes are read exactly where they are left; else the reader stays.
        ensures ok { IfOk result (λ bytes. self.old ≡ bytes.now ++ self.new) }
        ensures count { IfOk result (λ bytes. length bytes.now ≡ n) }
        ensures short { IsErr result ↔ (length self.old < n) }
        ensures err { OnErr result (self.new ≡ self.old) }

        // Bytes that were put are read back.
        ensures reads_back { (front rest : List ℕ) → length front ≡ n → self.old ≡ front ++ rest → IsOkAnd result (λ bytes. bytes.now ≡ front) × (self.new ≡ rest) }
    {
        let (front, rest) = self.left.split_at_checked(n).ok_or(Short)?;
        self.left = rest;
        Ok(front)
    }

    fn u128(&mut self) -> Result<u128, Short>
        ensures ok { IfOk result (λ n. self.old ≡ to_be_bytes w128 n ++ self.new) }
        ensures short { IsErr result ↔ (length self.old < 16) }
        ensures err { OnErr result (self.new ≡ self.old) }
        ensures reads_back { (n : ℕ) (rest : List ℕ) → n < 2 ^ 128 → self.old ≡ to_be_bytes w128 n ++ rest → (result ≡ Ok n) × (self.new ≡ rest) }
    {
        Ok(u128::from_be_bytes(self.array()?))
    }

    fn array<const N: usize>(&mut self) -> Result<[u8; N], Short>
        ensures ok { IfOk result (λ bytes. self.old ≡ bytes ++ self.new) }
        ensures short { IsErr result ↔ (length self.old < N) }
        ensures err { OnErr result (self.new ≡ self.old) }
    {
        let (front, rest) = self.left.split_first_chunk::<N>().ok_or(Short)?;
        self.left = rest;
        Ok(*front)
    }
}
