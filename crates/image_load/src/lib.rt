//! The memory and the processor at the start.
#![tactic(auto)]

mod boot;
mod fault;

ghost use Rattle.std.specs.Prelude.{◌≡◌, ◌+◌, ◌*◌, ◌<◌, ◌≤◌, ◌^◌, length, replicate, take, drop, OnOk, IfOk, IfErr};
ghost use Rattle.guest_ram.specs.Bytes.{with_part};
ghost use Rattle.image_load.specs.Boot.{frame_words, with_image, with_tables, with_directory, boot_descriptors, boot_ram, boot_cpu, need, text_pages, data_pages, data_frame, tables_of, pages_of, cpu_from, plain_segment};
ghost use Rattle.image_load.specs.Booted.{boot_of};
ghost use Rattle.image_check.specs.Accepts.{IsWithin};

pub use boot::{Boot, TooSmall};
use descriptors::{Cpu, Hidden, Table, Task};
pub use fault::{RunFault, StartFault};
use guest_ram::Ram;
use ia32_types::{Flags, Regs, TEXT_FRAME, TEXT_PLACE};
use image_check::Checked;
pub use run_trace::Pause;

const DESCRIPTORS: [u8; 40] = [
    0, 0, 0, 0, 0, 0, 0, 0, 0xFF, 0xFF, 0, 0, 0, 0x9B, 0xCF, 0, 0xFF, 0xFF, 0, 0, 0, 0x93, 0xCF, 0,
    0xFF, 0xFF, 0, 0, 0, 0xFA, 0xCF, 0, 0xFF, 0xFF, 0, 0, 0, 0xF2, 0xCF, 0,
];

/// Puts an image into the first frames of a memory that is zero, with tables that map it. What lies after those frames
/// stays.
pub fn load(image: &Checked, ram: &mut Ram, frames: u32) -> Result<Boot, TooSmall>
    requires zero { ram.old ≡ replicate (length ram.old) 0 }
    requires room { frames * 4096 ≤ length ram.old }
    requires frames { (2048 ≤ frames) × (frames ≤ 16384) }
    ensures ok { IfOk result (λ boot. (need image.now ≤ frames) × (boot ≡ boot_of image.now frames)) }
    ensures front { OnOk result (take (frames * 4096) ram.new ≡ boot_ram image.now frames) }
    ensures rest { drop (frames * 4096) ram.new ≡ drop (frames * 4096) ram.old }
    ensures len { length ram.new ≡ length ram.old }
    ensures small { IfErr result (λ e. (frames < need image.now)
        × (e ≡ record { need = need image.now; have = frames }) × (ram.new ≡ ram.old)) }
{
    let text_pages = pages(image.text().len() as u32);
    let data_pages = pages(image.init().len() as u32 + image.bss());
    let need = TEXT_FRAME + text_pages + data_pages;
    if frames < need {
        return Err(TooSmall { need, have: frames });
    }
    ram.put(0x2000, &DESCRIPTORS);
    directory(ram, frames, text_pages, data_pages);
    tables(ram, frames, text_pages, data_pages);
    ram.put(TEXT_PLACE, image.text());
    ram.put(4096 * (TEXT_FRAME + text_pages), image.init());
    Ok(Boot {
        cpu: cpu_at(image.entry(), frames, need),
        text_at: TEXT_PLACE,
        text_frames: text_pages,
        first_free: 4096 * need,
    })
}

fn pages(bytes: u32) -> u32
    requires { bytes ≤ 2 ^ 31 }
    ensures { result ≡ pages_of bytes }
{
    (bytes + 4095) / 4096
}

fn tables_for(pages: u32) -> u32
    requires { pages ≤ 2 ^ 31 }
    ensures { result ≡ tables_of pages }
{
    (pages + 1023) / 1024
}

fn directory(ram: &mut Ram, frames: u32, text_pages: u32, data_pages: u32)
    requires room { 2 ^ 20 ≤ length ram.old }
    requires few { (frames ≤ 16384) × (text_pages ≤ 4096) × (data_pages ≤ 8192) }
    ensures words { ram.new ≡ with_part (with_part (with_part ram.old
        0x1C00 (frame_words 4 (tables_of frames) 3))
        0x1100 (frame_words 0x14 (tables_of text_pages) 3))
        0x1110 (frame_words 0x18 (tables_of data_pages) 3) }
    ensures len { length ram.new ≡ length ram.old }
{
    put_frames(ram, 0x1C00, 4, tables_for(frames), 3);
    put_frames(ram, 0x1100, 0x14, tables_for(text_pages), 3);
    put_frames(ram, 0x1110, 0x18, tables_for(data_pages), 3);
}

fn tables(ram: &mut Ram, frames: u32, text_pages: u32, data_pages: u32)
    requires room { 2 ^ 20 ≤ length ram.old }
    requires few { (frames ≤ 16384) × (text_pages ≤ 4096) × (data_pages ≤ 8192) }
    ensures words { ram.new ≡ with_part (with_part (with_part ram.old
        0x4000 (frame_words 0 frames 3))
        0x14000 (frame_words TEXT_FRAME text_pages 1))
        0x18000 (frame_words (TEXT_FRAME + text_pages) data_pages 3) }
    ensures len { length ram.new ≡ length ram.old }
{
    put_frames(ram, 0x4000, 0, frames, 3);
    put_frames(ram, 0x14000, TEXT_FRAME, text_pages, 1);
    put_frames(ram, 0x18000, TEXT_FRAME + text_pages, data_pages, 3);
}

fn put_frames(ram: &mut Ram, at: u32, first: u32, count: u32, flags: u32)
    requires room { at + 4 * count ≤ length ram.old }
    requires low { at + 4 * count < 2 ^ 32 }
    requires frames { first + count ≤ 2 ^ 19 }
    requires flags { flags < 4096 }
    ensures words { ram.new ≡ with_part ram.old at (frame_words first count flags) }
    ensures len { length ram.new ≡ length ram.old }
{
    for i in 0..count {
        ram.write32(at + 4 * i, 4096 * (first + i) + flags);
    }
}

fn cpu_at(entry: u32, frames: u32, need: u32) -> Cpu
    requires few { (frames ≤ 16384) × (need ≤ 16384) }
    ensures { result ≡ cpu_from entry (4096 * frames) (4096 * need) }
{
    Cpu {
        regs: Regs {
            r: [4096 * frames, 0, 0, 4096 * need, 0xC010_0000, 0, 0, 0],
            eip: entry,
            flags: Flags { bits: 2 },
        },
        cpl: 0,
        seg: [segment(16), segment(8), segment(16), segment(16)],
        cr0: 0x8000_0011,
        cr2: 0,
        cr3: 0x1000,
        cr4: 0,
        gdt: Table {
            base: 0xC000_2000,
            limit: 0x27,
        },
        idt: Table { base: 0, limit: 0 },
        task: Task {
            sel: 0,
            base: 0,
            limit: 0,
            loaded: false,
        },
        halted: false,
        held: false,
    }
}

fn segment(sel: u16) -> Hidden
    ensures { result ≡ plain_segment sel }
{
    Hidden {
        sel,
        null: false,
        dpl: 0,
    }
}
