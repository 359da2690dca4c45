//! Laws of one instruction, and of a stretch of them, on the guest and on the host (a simulation, both ways).

ghost use Rattle.native_steps.specs.Forward.{Forward, NotEntered, AtSites};
ghost use Rattle.native_steps.specs.Backward.{Backward, NativeCompletes};
ghost use Rattle.native_steps.specs.Again.{Again};
ghost use Rattle.native_steps.specs.Stretch.{Advances};
ghost use Rattle.native_steps.specs.Looking.{LooksAgree, MarksAreRead, UsesAreSeen};

use crate::effects::effects;
use crate::texts::texts;
use board::steps_are_quiet;
use host_cpl3::borders;
use image_laws::{inside_sites, jumps_out, places};

/// What the host completes is the guest's step, with the translations as they are.
pub fn forward()
    ensures { Forward }
{
    texts();
    effects();
}

/// Outside sites the host doesn't enter the window.
pub fn not_entered()
    ensures { NotEntered }
{
    texts();
    effects();
}

/// At a site's first byte the host does nothing but jump into the window.
pub fn at_sites()
    ensures { AtSites }
{
    places();
    inside_sites();
    jumps_out();
}

/// What the guest translates, and the host's tables lend, both machines do by the pure effect.
pub fn backward()
    ensures { Backward }
{
    texts();
    effects();
}

/// And where the effect is done, the host completes it as the guest does.
pub fn native_completes()
    ensures { NativeCompletes }
{
    texts();
    effects();
}

/// A step that doesn't clash is the same from the state that its translations leave.
pub fn steps_again()
    ensures { Again }
{
    effects();
}

/// A run of the host, begun beside the guest and in quiet steps, is as many steps of the guest as it completes
/// instructions, with the translations as they are. All of them count, and the host's counts are theirs.
pub fn advances()
    ensures { Advances }
{
    forward();
    not_entered();
    at_sites();
    borders();
    steps_are_quiet();
}

/// By what is kept, and by walks that set nothing, a program finds the pages that the next instruction uses, and no clash
/// that this instruction doesn't have.
pub fn uses_are_seen()
    ensures uses { UsesAreSeen }
    ensures clashes { LooksAgree }
    ensures bytes { MarksAreRead }
{}
