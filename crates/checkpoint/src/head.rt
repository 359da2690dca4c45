//! The first 256 bytes of a checkpoint, as numbers and back.

ghost use Rattle.std.specs.Prelude.{◌≡◌, ◌+◌, ◌≤◌, ◌<◌, ◌^◌, ◌++◌, length, OnOk};
ghost use Rattle.std.specs.List.{concat, flat_map};
ghost use Rattle.guest_ram.specs.Bytes.{part};
ghost use Rattle.checkpoint.specs.Head.{two, four, eight, segment_bytes, front_parts, control_parts, last_parts, spelled, double_at, words_at, segment_at, head_at};
ghost use Rattle.checkpoint.specs.Ranges.{AreBelow, AreSelectors, FrontIsSized, ControlsAreSized, LastIsSized, IsSized};

use guest_ram::{byte, half, word};
use std::alloc::AllocError;

// Places in the file of fields that are tested or reported. Each has four bytes, unless it says otherwise.

/// The count of frames.
pub const FRAMES_PLACE: u32 = 4;

/// The count of steps, in eight bytes.
pub const STEP_PLACE: u32 = 8;

/// EFLAGS.
pub const EFLAGS_PLACE: u32 = 52;

/// CR0.
pub const CR0_PLACE: u32 = 56;

/// CR3.
pub const CR3_PLACE: u32 = 64;

/// CR4.
pub const CR4_PLACE: u32 = 68;

/// Whether TR is loaded, in one byte.
pub const TASK_LOADED_PLACE: u32 = 94;

/// The current privilege level, in one byte.
pub const LEVEL_PLACE: u32 = 95;

/// Whether the processor is halted, in one byte.
pub const HALTED_PLACE: u32 = 112;

/// Whether interrupts are held for one instruction, in one byte.
pub const HELD_PLACE: u32 = 113;

/// A segment register, in four bytes.
#[derive(Clone, Copy)]
pub struct Segment {
    pub selector: u16,
    pub null: u8,
    pub level: u8,
}

/// The numbers that stand in front of the memory, in the order of the file. Truth is 0 or 1.
#[derive(Drop)]
pub struct Head {
    pub magic: [u8; 4],
    pub frames: u32,
    pub step: u64,
    pub registers: [u32; 8],
    pub eip: u32,
    pub eflags: u32,
    pub cr0: u32,
    pub cr2: u32,
    pub cr3: u32,
    pub cr4: u32,
    pub gdt_base: u32,
    pub idt_base: u32,
    pub task_base: u32,
    pub task_limit: u32,
    pub gdt_limit: u16,
    pub idt_limit: u16,
    pub task_selector: u16,
    pub task_loaded: u8,
    pub level: u8,
    pub segments: [Segment; 4],
    pub halted: u8,
    pub held: u8,
    /// Bytes without a name.
    pub unnamed: [u8; 14],
    pub board: [u8; 64],
    /// Bytes without a name after the board.
    pub rest: [u8; 64],
}

/// As many bytes as fit into the result.
fn part<const N: usize>(bytes: &[u8], at: usize) -> [u8; N]
    requires { at + N ≤ length bytes.now }
    ensures { result ≡ part bytes.now at N }
{
    let mut part = [0; N];
    part.copy_from_slice(&bytes[at..at + N]);
    part
}

fn double(bytes: &[u8], at: usize) -> u64
    requires { at + 8 ≤ length bytes.now }
    ensures { result ≡ double_at bytes.now at }
{
    u64::from_le_bytes(part(bytes, at))
}

fn registers_at(bytes: &[u8]) -> [u32; 8]
    requires { 48 ≤ length bytes.now }
    ensures { result ≡ words_at bytes.now 16 8 }
{
    [
        word(bytes, 16),
        word(bytes, 20),
        word(bytes, 24),
        word(bytes, 28),
        word(bytes, 32),
        word(bytes, 36),
        word(bytes, 40),
        word(bytes, 44),
    ]
}

fn segment_at(bytes: &[u8], at: usize) -> Segment
    requires { at + 4 ≤ length bytes.now }
    ensures { result ≡ segment_at bytes.now at }
{
    Segment {
        selector: half(bytes, at),
        null: byte(bytes, at + 2),
        level: byte(bytes, at + 3),
    }
}

/// The numbers that bytes say.
#[tactic(auto, unfolding(crate::specs::Head::head_at))]
pub fn head_at(bytes: &[u8; 256]) -> Head
    ensures { result ≡ head_at bytes.now }
{
    Head {
        magic: part(bytes, 0),
        frames: word(bytes, 4),
        step: double(bytes, 8),
        registers: registers_at(bytes),
        eip: word(bytes, 48),
        eflags: word(bytes, 52),
        cr0: word(bytes, 56),
        cr2: word(bytes, 60),
        cr3: word(bytes, 64),
        cr4: word(bytes, 68),
        gdt_base: word(bytes, 72),
        idt_base: word(bytes, 76),
        task_base: word(bytes, 80),
        task_limit: word(bytes, 84),
        gdt_limit: half(bytes, 88),
        idt_limit: half(bytes, 90),
        task_selector: half(bytes, 92),
        task_loaded: byte(bytes, 94),
        level: byte(bytes, 95),
        segments: [
            segment_at(bytes, 96),
            segment_at(bytes, 100),
            segment_at(bytes, 104),
            segment_at(bytes, 108),
        ],
        halted: byte(bytes, 112),
        held: byte(bytes, 113),
        unnamed: part(bytes, 114),
        board: part(bytes, 128),
        rest: part(bytes, 192),
    }
}

/// Each number in four bytes.
fn put_words(into: &mut Vec<u8>, words: &[u32]) -> Result<(), AllocError>
    ensures items { OnOk result (into.new.items ≡ into.old.items ++ flat_map four words.now) }
    ensures fit { AreBelow (2 ^ 32) words.now }
{
    for word in words {
        into.extend_from_slice(&word.to_le_bytes())?;
    }
    Ok(())
}

fn put_double(into: &mut Vec<u8>, number: u64) -> Result<(), AllocError>
    ensures items { OnOk result (into.new.items ≡ into.old.items ++ eight number) }
    ensures fit { number < 2 ^ 64 }
{
    into.extend_from_slice(&number.to_le_bytes())
}

/// Each number in two bytes.
fn put_halves(into: &mut Vec<u8>, halves: &[u16]) -> Result<(), AllocError>
    ensures items { OnOk result (into.new.items ≡ into.old.items ++ flat_map two halves.now) }
    ensures fit { AreBelow (2 ^ 16) halves.now }
{
    for half in halves {
        into.extend_from_slice(&half.to_le_bytes())?;
    }
    Ok(())
}

fn put_segments(into: &mut Vec<u8>, segments: &[Segment; 4]) -> Result<(), AllocError>
    ensures items { OnOk result (into.new.items ≡ into.old.items ++ flat_map segment_bytes segments.now) }
    ensures fit { OnOk result (AreSelectors segments.now) }
    ensures four { length segments.now ≡ 4 }
{
    for segment in segments {
        put_halves(into, &[segment.selector])?;
        into.extend_from_slice(&[segment.null, segment.level])?;
    }
    Ok(())
}

fn put_front(into: &mut Vec<u8>, head: &Head) -> Result<(), AllocError>
    ensures items { OnOk result (into.new.items ≡ into.old.items ++ concat (front_parts head.now)) }
    ensures fit { OnOk result (FrontIsSized head.now) }
{
    into.extend_from_slice(&head.magic)?;
    put_words(into, &[head.frames])?;
    put_double(into, head.step)?;
    put_words(into, &head.registers)?;
    Ok(())
}

fn put_controls(into: &mut Vec<u8>, head: &Head) -> Result<(), AllocError>
    ensures items { OnOk result (into.new.items ≡ into.old.items ++ concat (control_parts head.now)) }
    ensures fit { OnOk result (ControlsAreSized head.now) }
{
    let words = [
        head.eip,
        head.eflags,
        head.cr0,
        head.cr2,
        head.cr3,
        head.cr4,
        head.gdt_base,
        head.idt_base,
        head.task_base,
        head.task_limit,
    ];
    put_words(into, &words)?;
    put_halves(into, &[head.gdt_limit, head.idt_limit, head.task_selector])?;
    into.extend_from_slice(&[head.task_loaded, head.level])?;
    Ok(())
}

fn put_last(into: &mut Vec<u8>, head: &Head) -> Result<(), AllocError>
    ensures items { OnOk result (into.new.items ≡ into.old.items ++ concat (last_parts head.now)) }
    ensures fit { OnOk result (LastIsSized head.now) }
{
    put_segments(into, &head.segments)?;
    into.extend_from_slice(&[head.halted, head.held])?;
    into.extend_from_slice(&head.unnamed)?;
    into.extend_from_slice(&head.board)?;
    into.extend_from_slice(&head.rest)?;
    Ok(())
}

/// Appends the 256 bytes that say these numbers.
#[tactic(auto, unfolding(crate::specs::Head::spelled))]
pub fn put_head(into: &mut Vec<u8>, head: &Head) -> Result<(), AllocError>
    ensures items { OnOk result (into.new.items ≡ into.old.items ++ spelled head.now) }
    ensures fit { OnOk result (IsSized head.now) }
{
    put_front(into, head)?;
    put_controls(into, head)?;
    put_last(into, head)
}
