// The global descriptor table: a descriptor taken out of it by a selector, handed on by value.
#![tactic(auto)]

ghost use Rattle.std.specs.Prelude.{◌≡◌, ◌+◌, ◌≤◌, ◌<◌};
ghost use Rattle.descriptors.specs.Descriptors.{bits, is_set, class_of, scaled_limit, base_of, descriptor_of, selected};

use numbers::Size;

// What a descriptor stands for, as far as calls ask.
#[derive(Clone, Copy)]
pub enum Class {
    // A code segment.
    Code,
    // A 64-bit call gate.
    Gate,
    Other,
}

// What a descriptor says.
#[derive(Clone, Copy)]
pub struct Descriptor {
    pub class: Class,
    // Of a code segment: it keeps the privilege of its caller.
    pub conforming: bool,
    pub dpl: u64,
    pub present: bool,
    // L and D: 64-bit code, 32-bit code.
    pub long: bool,
    pub wide: bool,
    pub base: u64,
    // In bytes, scaled.
    pub limit: u64,
}

// Why a selector leads to no descriptor.
#[derive(Clone, Copy)]
pub enum Unselected {
    Null,
    // It leads to the local table.
    Local,
    // Its descriptor does not lie inside the table.
    Outside,
}

// `count` bits of a number, from bit `low` on.
fn bits(low: u32, count: u32, number: u64) -> u64
    requires low { low < 64 }
    requires count { count < 64 }
    ensures { result ≡ bits low count number }
{
    (number >> low) % (1 << count)
}

// One bit, as a test.
fn is_set(place: u32, number: u64) -> bool
    requires { place < 64 }
    ensures { result ≡ is_set place number }
{
    bits(place, 1, number) == 1
}

#[tactic(auto, unfolding(crate::specs::Descriptors::class_of))]
fn class_of(number: u64) -> Class
    ensures { result ≡ class_of number }
{
    let kind = bits(40, 4, number);
    if is_set(44, number) {
        if kind >= 8 { Class::Code } else { Class::Other }
    } else if kind == 12 {
        Class::Gate
    } else {
        Class::Other
    }
}

#[tactic(auto, unfolding(crate::specs::Descriptors::base_of))]
fn base_of(number: u64) -> u64
    ensures { result ≡ base_of number }
{
    bits(56, 8, number) * 0x100_0000 + bits(16, 24, number)
}

// The limit in bytes.
#[tactic(auto, unfolding(crate::specs::Descriptors::scaled_limit))]
fn scaled_limit(number: u64) -> u64
    ensures { result ≡ scaled_limit number }
{
    let limit = bits(48, 4, number) * 0x1_0000 + bits(0, 16, number);
    if is_set(55, number) {
        limit * 4096 + 4095
    } else {
        limit
    }
}

// What the 8 bytes of a descriptor, taken as one number, say.
#[tactic(auto, unfolding(crate::specs::Descriptors::descriptor_of))]
pub fn descriptor_of(number: u64) -> Descriptor
    ensures { result ≡ descriptor_of number }
{
    Descriptor {
        class: class_of(number),
        conforming: is_set(42, number),
        dpl: bits(45, 2, number),
        present: is_set(47, number),
        long: is_set(53, number),
        wide: is_set(54, number),
        base: base_of(number),
        limit: scaled_limit(number),
    }
}

// Where a selector leads, in a table of any length.
pub fn select(table: &[u8], selector: u64) -> Result<Descriptor, Unselected>
    ensures { result ≡ selected table.now selector }
{
    if selector / 4 == 0 {
        return Err(Unselected::Null);
    }
    if selector / 4 % 2 == 1 {
        return Err(Unselected::Local);
    }
    let number = numbers::load(table, (selector / 8 * 8) as usize, Size::Eight);
    number.map(descriptor_of).ok_or(Unselected::Outside)
}
