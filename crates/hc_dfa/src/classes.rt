ghost use Rattle.std.specs.Prelude.{◌≡◌, ℕ, ◌<◌, ◌≤◌, ◌⊎◌, ◌^◌, length, slice_index};
ghost use Rattle.std.specs.Prelude.{vec_len, IfOk};
ghost use Rattle.hc_dfa.specs.Classings.{AreClasses, HasEnds, IsAsFine, class_count, class_of, first_of};

use crate::dfa::BYTES;
use hc_base::NoMemory;
use std::alloc::Global;
use std::marker::Model;

/// Classes of bytes, numbered in the order of their least bytes.
#[derive(Drop)]
pub struct Classes {
    classes: Vec<u8>,
    firsts: Vec<u8>,
}

impl Model for Classes {
    ghost use Rattle.hc_dfa.specs.Classings.{Classing, AreClasses};

    ghost Value = { Classing };

    ghost view = { λ c. record { classes = c.classes.items; firsts = c.firsts.items } };

    ghost invariant = { λ c. AreClasses (record { classes = c.classes.items; firsts = c.firsts.items }) };
}

impl Classes {
    /// Each byte in a class of its own.
    pub fn of_single_bytes(alloc: Global) -> Result<Classes, NoMemory>
        ensures classes { IfOk result AreClasses }
        ensures count { IfOk result (λ classes. class_count classes ≡ 256) }
        ensures own { IfOk result (λ classes. (byte : ℕ) → byte < 256 → class_of classes byte ≡ byte) }
    {
        let classes = all_bytes(alloc)?;
        let firsts = all_bytes(alloc)?;
        Ok(Classes { classes, firsts })
    }

    /// The bytes with the same number in one class.
    pub fn of_numbers(alloc: Global, numbers: &[u32]) -> Result<Classes, NoMemory>
        requires { length numbers.now ≡ 256 }
        ensures classes { IfOk result AreClasses }
        ensures fine { IfOk result (λ classes. IsAsFine classes numbers.now) }
    {
        let mut classes = Vec::new(alloc);
        let mut firsts = Vec::new(alloc);
        let mut near = 0;
        for byte in 0..BYTES {
            let class = class_like(numbers, &firsts, near, numbers[byte]);
            classes.push(class as u8)?;
            near = class;
            if class < firsts.len() {
                continue;
            }
            firsts.push(byte as u8)?;
        }
        Ok(Classes { classes, firsts })
    }

    /// The bytes that both classings hold together.
    pub fn common(alloc: Global, a: &Classes, b: &Classes) -> Result<Classes, NoMemory>
        ensures classes { IfOk result AreClasses }
        ensures first { IfOk result (λ classes. IsAsFine classes a.now.classes) }
        ensures second { IfOk result (λ classes. IsAsFine classes b.now.classes) }
    {
        let mut numbers = Vec::new(alloc);
        for byte in 0..BYTES {
            let first = u32::from(a.class_of(byte as u8));
            let second = u32::from(b.class_of(byte as u8));
            numbers.push(256 * first + second)?;
        }
        let classes = Classes::of_numbers(alloc, &numbers)?;
        Ok(classes)
    }

    /// The class of a byte.
    pub fn class_of(&self, byte: u8) -> u8
        ensures value { result ≡ class_of self.now byte }
        ensures within { result < class_count self.now }
    {
        self.classes[byte as usize]
    }

    /// How many classes there are.
    pub fn count(&self) -> usize
        ensures value { result ≡ class_count self.now }
        ensures few { result ≤ 256 }
    {
        self.firsts.len()
    }

    /// The greatest and the least byte of each class.
    pub fn ends(&self, alloc: Global) -> Result<Vec<u8>, NoMemory>
        ensures { IfOk result (λ ends. HasEnds self.now ends.items) }
    {
        let firsts = self.firsts();
        let mut ends = firsts.to_vec(alloc)?;
        for byte in 0..BYTES {
            ends[self.class_of(byte as u8) as usize] = byte as u8;
        }
        ends.extend_from_slice(firsts)?;
        Ok(ends)
    }

    /// The least byte of each class, in order.
    pub fn firsts(&self) -> &[u8]
        ensures value { result.now ≡ self.now.firsts }
        ensures classes { AreClasses self.now }
    {
        &self.firsts
    }
}

impl Clone for Classes {
    ghost is_clone = { λ a copy. copy ≡ a };

    fn clone(&self) -> Result<Classes, NoMemory> {
        Ok(Classes {
            classes: self.classes.clone()?,
            firsts: self.firsts.clone()?,
        })
    }
}

/// All bytes, in order.
fn all_bytes(alloc: Global) -> Result<Vec<u8>, NoMemory>
    ensures len { IfOk result (λ bytes. vec_len bytes ≡ 256) }
    ensures each { IfOk result (λ bytes. (byte : ℕ) → byte < 256 → slice_index bytes.items byte ≡ byte) }
{
    let mut bytes = Vec::new(alloc);
    for byte in 0..BYTES {
        bytes.push(byte as u8)?;
    }
    Ok(bytes)
}

/// A class whose least byte has this number, or the count of classes where none has. One that is near is looked at
/// first: the number of a byte is mostly that of the byte before it.
fn class_like(numbers: &[u32], firsts: &[u8], near: usize, number: u32) -> usize
    requires { length numbers.now ≡ 256 }
    ensures within { result ≤ length firsts.now }
    ensures same { result < length firsts.now → slice_index numbers.now (slice_index firsts.now result) ≡ number }
    ensures none { result ≡ length firsts.now → (class : ℕ) → class < length firsts.now
        → slice_index numbers.now (slice_index firsts.now class) ≡ number → ⊥ }
{
    if near < firsts.len() && numbers[firsts[near] as usize] == number {
        return near;
    }
    for class in 0..firsts.len() {
        if numbers[firsts[class] as usize] == number {
            return class;
        }
    }
    firsts.len()
}
