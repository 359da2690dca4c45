//! A guest from a checkpoint's state, and back.

ghost use Rattle.std.specs.Prelude.{◌≡◌, ◌+◌, ◌*◌, ◌/◌, ◌≤◌, ◌^◌, length, take, true, IfOk};
ghost use Rattle.guest_ram.specs.Bytes.{part, with_part};
ghost use Rattle.frame_pool.specs.Pool.{Stands, base_of, free_list};
ghost use Rattle.frame_pool.specs.declared.Pool.{Pool};
ghost use Rattle.board.specs.Scripts.{Events};
ghost use Rattle.machine_model.specs.Fit.{Fit};
ghost use Rattle.wedge_step.specs.Scene.{scene};
ghost use Rattle.wedge_step.specs.Standing.{IsAble, ground};
ghost use Rattle.wedge_core.specs.Counts.{counts_of};
ghost use Rattle.wedge_core.specs.OfRoots.{of_roots};
ghost use Rattle.wedge_core.specs.Scenes.{IsHeldIn};
ghost use Rattle.wedge_core.specs.Stepped.{CountsNone};
ghost use Rattle.checkpoint.specs.Guests.{GoesOnFrom, state_at};
ghost use Rattle.checkpoint.specs.InForm.{IsInForm};
ghost use Rattle.checkpoint.specs.Moved.{rested_from, kept_of};

use crate::state::State;
use frame_pool::Pool;
use guest_ram::Ram;
use host_cpl3::Host;
use ia32_types::TEXT_PLACE;
use image_check::Checked;
use std::alloc::{AllocError, Global};
use wedge_core::{Guest, Running};

/// The frames of a guest's pool.
pub const POOL_FRAMES: u32 = 512;

/// A checkpoint's memory at the front of the host's, and a pool after it.
fn seated(memory: &mut Ram, ram: &Ram, frames: u32) -> Pool
    requires few { frames ≤ 16384 }
    requires frames { length ram.now ≡ 4096 * frames }
    requires room { length memory.old ≡ (frames + 512) * 4096 }
    ensures front { take (4096 * frames) memory.new ≡ ram.now }
    ensures len { length memory.new ≡ (frames + 512) * 4096 }
    ensures stands { Stands result memory.new }
    ensures free { length (free_list result memory.new) ≡ 512 }
    ensures base { base_of result ≡ frames }
{
    memory.put(0, ram.part(0, ram.len()));
    Pool::new(memory, frames, POOL_FRAMES)
}

/// The host is started with the checkpoint's memory in front and 512 frames after it, and the guest goes on from there with no
/// translation. One slice then leads to any later count of steps.
pub fn guest_from<H: Host>(
    alloc: Global,
    state: State,
    image: &Checked,
    host: &mut H,
) -> Result<(Guest, Pool), AllocError>
    requires form { IsInForm state }
    requires able { IsAble state.cpu }
    requires text { part state.ram TEXT_PLACE (length image.now.text) ≡ image.now.text }
    ensures goes_on { IfOk result (λ r. GoesOnFrom image.now (length state.ram / 4096) (rested_from state)
        (scene r.0 r.1 (H.bytes host.new))) }
    ensures started { IfOk result (λ _. H.is_started host.new ≡ true) }
    ensures counts { CountsNone (counts_of H.Host host.old) (counts_of H.Host host.new) }
{
    let State {
        cpu,
        board,
        step,
        ram,
    } = state;
    let frames = ram.len() / 4096;
    host.start(alloc, frames + POOL_FRAMES)?;
    let mut pool = seated(host.ram_mut(), &ram, frames);
    let guest = Guest::adopt(alloc, image, cpu, board, step, frames, host, &mut pool)?;
    Ok((guest, pool))
}

/// The state of a guest, as a checkpoint keeps it: with the text in its place as it was before it was patched.
pub fn state_of_guest<H: Host>(
    alloc: Global,
    guest: Guest,
    image: &Checked,
    host: &H,
) -> Result<State, AllocError>
    requires started { H.is_started host.now ≡ true }
    requires held { (pool : Pool) × IsHeldIn of_roots (ground image.now guest.frames)
        (scene guest pool (H.bytes host.now)) }
    requires fit { Fit guest.cpu }
    requires step { guest.step ≤ 2 ^ 40 }
    ensures state { IfOk result (λ state. (script : Events)
        → state ≡ kept_of (state_at image.now script guest (H.bytes host.now))) }
    // Whether memory is found for it or not, a checkpoint can be made of the state.
    ensures kept { (script : Events) → IsInForm (kept_of (state_at image.now script guest (H.bytes host.now))) }
    ensures size { (script : Events)
        → length (state_at image.now script guest (H.bytes host.now)).ram ≡ 4096 * guest.frames }
{
    let running = guest.into_running();
    let Running {
        cpu,
        board,
        step,
        frames,
        fills: _,
        held: _,
        shadows: _,
        lost: _,
    } = running;
    let ram = memory_of(alloc, host.ram(), image, frames)?;
    Ok(State {
        cpu,
        board,
        step,
        ram,
    })
}

/// The first frames of a memory, with the image's text in its place.
fn memory_of(alloc: Global, memory: &Ram, image: &Checked, frames: u32) -> Result<Ram, AllocError>
    requires frames { (2048 ≤ frames) × (frames ≤ 16384) }
    requires room { 4096 * frames ≤ length memory.now }
    requires text { TEXT_PLACE + length image.now.text ≤ 4096 * frames }
    ensures ram { IfOk result (λ ram. ram ≡ with_part (take (4096 * frames) memory.now) TEXT_PLACE image.now.text) }
    ensures len { IfOk result (λ ram. length ram ≡ 4096 * frames) }
{
    let mut ram = Ram::new(alloc, frames)?;
    ram.put(0, memory.part(0, 4096 * frames));
    ram.put(TEXT_PLACE, image.text());
    Ok(ram)
}
