//! Laws of the views through which the host runs a guest, of the instructions that it does, and of the steps that it has
//! no part in.

ghost use Rattle.image_check.specs.Accepts.{IsAccepted};
ghost use Rattle.image_check.specs.Image.{Image};
ghost use Rattle.machine_model.specs.Following.{FetchedFollows, RangesFollow, StepsFollow};
ghost use Rattle.machine_model.specs.Reloading.{FollowsOn};
ghost use Rattle.native_steps.specs.Again.{Again};
ghost use Rattle.native_steps.specs.Backward.{NativeCompletes};
ghost use Rattle.native_steps.specs.Granted.{Grants};
ghost use Rattle.native_steps.specs.TextLaws.{TextLaws};
ghost use Rattle.wedge_core.specs.AloneLaws.{AlonesGo};
ghost use Rattle.wedge_core.specs.ViewLaws.{ViewsLend, ViewsSee};

use image_laws::{fetching, goes_on, outside_sites, places};
use machine_model::{
    following_goes_on, others_count_nothing, steps_are_done, steps_follow, works_follow,
};
use native_steps::{grants, native_completes, steps_again};

/// A view lends no more of a set of translations than the shadows keep of it, and shows the processor's segments.
pub fn views_lend()
    ensures lends { ViewsLend }
    ensures sees { ViewsSee }
{}

/// A step by the rules alone counts nothing where the host could not have done it.
pub fn alones_go()
    ensures { AlonesGo }
{
    steps_are_done();
    others_count_nothing();
}

/// What a step whose instruction the host is to do stands on: its pages are granted, it is the same from what they leave, the
/// host completes it over the views, and at level 0 it is an instruction of the text.
pub fn native_laws()
    ensures grants { Grants }
    ensures again { Again }
    ensures completes { NativeCompletes }
    ensures lends { ViewsLend }
    ensures sees { ViewsSee }
    ensures text { (image : Image) → IsAccepted image → TextLaws image }
    ensures steps { StepsFollow }
    ensures on { FollowsOn }
    ensures fetched { FetchedFollows }
    ensures ranges { RangesFollow }
{
    following_goes_on();
    works_follow();
    steps_follow();
    grants();
    steps_again();
    native_completes();
    views_lend();
    places();
    outside_sites();
    fetching();
    goes_on();
}
