//! A text that grows.
ghost use Rattle.std.specs.Prelude.{◌≡◌, ℕ, ◌+◌, ◌-◌, ◌≤◌, List, [], ◌∷◌, ◌++◌, false, length, take, drop, slice_range};
ghost use Rattle.std.specs.Prelude.{IsTrue, OnOk, OnErr, true, if◌then◌else◌};
ghost use Rattle.growing_text.specs.Gap.{HasGap};

use crate::lanes::{copy_text, put, put_behind, put_joined};
use std::alloc::{AllocError, Global};
use std::marker::Model;

// The length of a short text in bytes, at most.
const SHORT: usize = 32;

// The least capacity that is reserved, in bytes.
const FIRST_CAPACITY: usize = 64;

/// A text that grows: the front of a vector that is as long as what is reserved. Reserved memory stays until the text
/// is dropped. Places and lengths are in bytes. A method that returns a `Result` fails if an allocation fails, and
/// then the text is as it was.
#[derive(Drop)]
pub struct Text {
    bytes: Vec<u8>,
    len: usize,
}

impl Model for Text {
    ghost Value = { List ℕ };

    ghost view = { λ t. take t.len t.bytes.items };

    ghost invariant = { λ t. t.len ≤ length t.bytes.items };
}

impl Text {
    /// Returns an empty text. Allocates nothing.
    pub fn new(alloc: Global) -> Self
        ensures empty { result ≡ [] }
    {
        Text {
            bytes: Vec::new(alloc),
            len: 0,
        }
    }

    /// Returns the length in bytes.
    #[inline(always)]
    pub fn len(&self) -> usize
        ensures value { result ≡ length self.now }
    {
        self.len
    }

    /// Removes all bytes. The capacity stays.
    #[inline(always)]
    pub fn clear(&mut self)
        ensures empty { self.new ≡ [] }
    {
        self.len = 0;
    }

    /// Keeps the first n bytes, and removes the others.
    #[inline(always)]
    pub fn truncate(&mut self, n: usize)
        requires within { n ≤ length self.old }
        ensures value { self.new ≡ take n self.old }
    {
        self.len = n;
    }

    /// Reserves capacity for n more bytes. The text stays as it is.
    #[inline(always)]
    pub fn reserve(&mut self, n: usize) -> Result<(), AllocError>
        ensures same { self.new ≡ self.old }
    {
        let end = self.len;
        ensure_capacity(&mut self.bytes, end, n)
    }

    /// Returns the bytes.
    #[inline(always)]
    pub fn as_slice(&self) -> &[u8]
        ensures value { result.now ≡ self.now }
    {
        &self.bytes[..self.len]
    }

    /// Returns the bytes from one place up to another.
    #[inline(always)]
    pub fn part(&self, from: usize, to: usize) -> &[u8]
        requires ordered { from ≤ to }
        requires within { to ≤ length self.now }
        ensures value { result.now ≡ slice_range self.now from to }
    {
        &self.bytes[from..to]
    }

    /// Appends bytes.
    #[inline(always)]
    pub fn add(&mut self, bytes: &[u8]) -> Result<(), AllocError>
        ensures ok { OnOk result (self.new ≡ self.old ++ bytes.now) }
        ensures err { OnErr result (self.new ≡ self.old) }
    {
        ensure_capacity(&mut self.bytes, self.len, bytes.len())?;
        let to = self.len + bytes.len();
        copy_text(&mut self.bytes[self.len..to], bytes);
        self.len = to;
        Ok(())
    }

    /// Appends two texts, one after the other.
    #[inline(always)]
    pub fn add_pair(&mut self, first: &[u8], second: &[u8]) -> Result<(), AllocError>
        ensures ok { OnOk result (self.new ≡ self.old ++ (first.now ++ second.now)) }
        ensures err { OnErr result (self.new ≡ self.old) }
    {
        let end = self.len;
        let n = first.len() + second.len();
        ensure_capacity(&mut self.bytes, self.len, n)?;
        let (_, spare) = self.bytes.split_at_mut(end);
        let (front, rest) = spare.split_at_mut(first.len());
        copy_text(front, first);
        copy_text(&mut rest[..second.len()], second);
        self.len = end + n;
        Ok(())
    }

    /// Appends a byte.
    #[inline(always)]
    pub fn add_byte(&mut self, byte: u8) -> Result<(), AllocError>
        ensures ok { OnOk result (self.new ≡ self.old ++ byte ∷ []) }
        ensures err { OnErr result (self.new ≡ self.old) }
    {
        let end = self.len;
        if end < self.bytes.len() {
            self.bytes[end] = byte;
            self.len = end + 1;
            return Ok(());
        }
        self.add_long(&[byte])
    }

    /// Appends a text. One of up to 32 bytes is copied here, without a call.
    #[inline(always)]
    pub fn add_short(&mut self, text: &[u8]) -> Result<(), AllocError>
        ensures ok { OnOk result (self.new ≡ self.old ++ text.now) }
        ensures err { OnErr result (self.new ≡ self.old) }
    {
        let end = self.len;
        let n = text.len();
        if n > SHORT || !has_spare(&self.bytes, end, SHORT) {
            return self.add_long(text);
        }
        let (_, spare) = self.bytes.split_at_mut(end);
        put(spare, text);
        self.len = end + n;
        Ok(())
    }

    // Appends a text.
    #[inline(never)]
    fn add_long(&mut self, text: &[u8]) -> Result<(), AllocError>
        ensures ok { OnOk result (self.new ≡ self.old ++ text.now) }
        ensures err { OnErr result (self.new ≡ self.old) }
    {
        self.add(text)
    }

    /// Appends a word and a text. They are copied here, without a call, if the text has up to 32 bytes.
    #[inline(always)]
    pub fn add_behind(&mut self, word: &[u8], text: &[u8]) -> Result<(), AllocError>
        ensures ok { OnOk result (self.new ≡ self.old ++ (word.now ++ text.now)) }
        ensures err { OnErr result (self.new ≡ self.old) }
    {
        let end = self.len;
        let n = text.len();
        if n > SHORT || !has_spare(&self.bytes, end, word.len() + SHORT) {
            return self.add_both(word, text);
        }
        let (_, spare) = self.bytes.split_at_mut(end);
        put_behind(spare, word, text);
        self.len = end + (word.len() + n);
        Ok(())
    }

    // Appends two texts.
    #[inline(never)]
    fn add_both(&mut self, first: &[u8], second: &[u8]) -> Result<(), AllocError>
        ensures ok { OnOk result (self.new ≡ self.old ++ (first.now ++ second.now)) }
        ensures err { OnErr result (self.new ≡ self.old) }
    {
        self.add_pair(first, second)
    }

    /// Appends a word if there is capacity for it. Returns whether it did.
    #[inline(always)]
    pub fn try_word(&mut self, word: &[u8]) -> bool
        ensures value { self.new ≡ (if result then self.old ++ word.now else self.old) }
    {
        let end = self.len;
        let n = word.len();
        if n > SHORT || !has_spare(&self.bytes, end, n) {
            return false;
        }
        let (_, spare) = self.bytes.split_at_mut(end);
        put(spare, word);
        self.len = end + n;
        true
    }

    /// Appends two texts with a word between them, if the texts have up to 32 bytes and there is capacity for such
    /// ones. Returns whether it did.
    #[inline(always)]
    pub fn try_joined(&mut self, first: &[u8], word: &[u8], second: &[u8]) -> bool
        ensures value { self.new ≡ (if result then self.old ++ (first.now ++ (word.now ++ second.now)) else self.old) }
    {
        let end = self.len;
        let (m, n) = (first.len(), second.len());
        if m > SHORT || n > SHORT || !has_spare(&self.bytes, end, SHORT + (word.len() + SHORT)) {
            return false;
        }
        let (_, spare) = self.bytes.split_at_mut(end);
        put_joined(spare, first, word, second);
        self.len = end + (m + (word.len() + n));
        true
    }

    /// Appends a copy of a part of the text.
    #[inline(always)]
    pub fn add_part(&mut self, from: usize, to: usize) -> Result<(), AllocError>
        requires ordered { from ≤ to }
        requires within { to ≤ length self.old }
        ensures ok { OnOk result (self.new ≡ self.old ++ slice_range self.old from to) }
        ensures err { OnErr result (self.new ≡ self.old) }
    {
        let end = self.len;
        let n = to - from;
        ensure_capacity(&mut self.bytes, self.len, n)?;
        self.len = end + n;
        self.put_part(end, from, to);
        Ok(())
    }

    /// Inserts n spare bytes at a place, of unspecified values. What is after the place moves on. The caller
    /// overwrites the bytes.
    #[inline(always)]
    pub fn open_gap(&mut self, at: usize, n: usize) -> Result<(), AllocError>
        requires within { at ≤ length self.old }
        ensures ok { OnOk result (HasGap (take at self.old) (drop at self.old) self.new n) }
        ensures err { OnErr result (self.new ≡ self.old) }
    {
        let len = self.len;
        ensure_capacity(&mut self.bytes, len, n)?;
        self.bytes.copy_within(at..len, at + n);
        self.len = len + n;
        Ok(())
    }

    /// Overwrites the bytes at a place, and returns the place after them.
    #[inline(always)]
    pub fn put(&mut self, at: usize, bytes: &[u8]) -> usize
        requires within { at + length bytes.now ≤ length self.old }
        ensures value { self.new ≡ take at self.old ++ (bytes.now ++ drop (at + length bytes.now) self.old) }
        ensures ends { result ≡ at + length bytes.now }
    {
        copy_text(&mut self.bytes[at..at + bytes.len()], bytes);
        at + bytes.len()
    }

    /// Overwrites the bytes at a place with a copy of an earlier part of the text, and returns the place after the
    /// copy.
    #[inline(always)]
    pub fn put_part(&mut self, at: usize, from: usize, to: usize) -> usize
        requires ordered { from ≤ to }
        requires before { to ≤ at }
        requires within { at + (to - from) ≤ length self.old }
        ensures value { self.new ≡ take at self.old
            ++ (slice_range self.old from to ++ drop (at + (to - from)) self.old) }
        ensures ends { result ≡ at + (to - from) }
    {
        let (front, rest) = self.bytes.split_at_mut(at);
        let n = to - from;
        copy_text(&mut rest[..n], &front[from..to]);
        at + n
    }

    /// Moves a part of the text down to a place. Removes what was between that place and the part, and what was after
    /// the part.
    pub fn keep_only(&mut self, at: usize, from: usize, to: usize)
        requires before { at ≤ from }
        requires ordered { from ≤ to }
        requires within { to ≤ length self.old }
        ensures value { self.new ≡ take at self.old ++ slice_range self.old from to }
    {
        self.bytes.copy_within(from..to, at);
        self.len = at + (to - from);
    }
}

// Returns whether there is capacity for n more bytes after the first `len`.
#[inline(always)]
fn has_spare(bytes: &Vec<u8>, len: usize, n: usize) -> bool
    requires within { len ≤ length bytes.now.items }
    ensures capacity { result ≡ true → len + n ≤ length bytes.now.items }
{
    bytes[len..].len() >= n
}

// Makes sure that there is capacity for n more bytes after the first `len`.
#[inline(always)]
fn ensure_capacity(bytes: &mut Vec<u8>, len: usize, n: usize) -> Result<(), AllocError>
    requires within { len ≤ length bytes.old.items }
    ensures front { take len bytes.new.items ≡ take len bytes.old.items }
    ensures within { len ≤ length bytes.new.items }
    ensures capacity { OnOk result (len + n ≤ length bytes.new.items) }
{
    if bytes.len() - len < n {
        return grow(bytes, len, n);
    }
    Ok(())
}

// Reserves capacity for n more bytes after the first `len`.
#[cold]
#[inline(never)]
fn grow(bytes: &mut Vec<u8>, len: usize, n: usize) -> Result<(), AllocError>
    requires within { len ≤ length bytes.old.items }
    ensures front { take len bytes.new.items ≡ take len bytes.old.items }
    ensures within { len ≤ length bytes.new.items }
    ensures capacity { OnOk result (len + n ≤ length bytes.new.items) }
{
    let twice = bytes.len().saturating_mul(2);
    bytes.resize(len.saturating_add(n).max(twice).max(FIRST_CAPACITY), 0)?;
    // No vector has so many bytes, so the sum above is the exact one.
    prove!(bytes.as_slice().len() < usize::MAX);
    Ok(())
}
