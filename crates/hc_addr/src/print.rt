ghost use Rattle.std.specs.Prelude.{◌≡◌, ◌≤◌, length, map, List, [], ◌∷◌, IfOk};
ghost use Rattle.std.specs.List.{join_with_byte};
ghost use Rattle.std.specs.String.{string_bytes};
ghost use Rattle.hc_base.specs.Bytes.{colon};
ghost use Rattle.hc_addr.specs.declared.addr.Addr.TheVariants.{V4, V6};
ghost use Rattle.hc_addr.specs.Printed.{hexadecimal, last_digits, printed};

use crate::addr::Addr;
use crate::sizes::{BYTE_VALUES, GROUP_VALUES};
use hc_base::{NoMemory, Text};
use std::alloc::Global;

/// Writes the last digits of the number in the base, the highest first.
fn write_digits(value: u128, base: u128, digits: &mut [u16])
    requires some { 2 ≤ base }
    requires small { base ≤ GROUP_VALUES }
    ensures { digits.new ≡ last_digits base (length digits.old) value }
{
    let mut rest = value;
    for place in (0..digits.len()).rev() {
        digits[place] = (rest % base) as u16;
        rest /= base;
    }
}

/// An IPv4 address as text.
fn print_v4(alloc: Global, address: u32) -> Result<String, NoMemory>
    ensures { IfOk result (λ text. string_bytes text ≡ printed (V4 address)) }
{
    let mut bytes = [0; 4];
    write_digits(u128::from(address), BYTE_VALUES, &mut bytes);
    let [a, b, c, d] = bytes;
    format!(in alloc; "{a}.{b}.{c}.{d}")
}

/// Half of an IPv6 address.
fn print_half(alloc: Global, a: u16, b: u16, c: u16, d: u16) -> Result<String, NoMemory>
    ensures { IfOk result (λ text. string_bytes text
        ≡ join_with_byte colon (map hexadecimal (a ∷ b ∷ c ∷ d ∷ []))) }
{
    format!(in alloc; "{a:x}:{b:x}:{c:x}:{d:x}")
}

/// An IPv6 address as text.
fn print_v6(alloc: Global, address: u128) -> Result<String, NoMemory>
    ensures { IfOk result (λ text. string_bytes text ≡ printed (V6 address)) }
{
    let mut groups = [0; 8];
    write_digits(address, GROUP_VALUES, &mut groups);
    let [a, b, c, d, e, f, g, h] = groups;
    let front = print_half(alloc, a, b, c, d)?;
    let back = print_half(alloc, e, f, g, h)?;
    format!(in alloc; "{front}:{back}")
}

/// The address as text: four decimal numbers, or eight groups with no `::`, none with leading
/// zeros. Our own choice. `NoMemory` where memory is refused.
pub fn print_addr(alloc: Global, addr: Addr) -> Result<Text, NoMemory>
    ensures { IfOk result (λ text. text ≡ printed addr) }
{
    let text = match addr {
        Addr::V4(address) => print_v4(alloc, address)?,
        Addr::V6(address) => print_v6(alloc, address)?,
    };
    Ok(Text::from(text.into_bytes()))
}
