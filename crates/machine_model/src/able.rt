//! Laws of what a run under a monitor's rules needs of the processor.

ghost use Rattle.machine_model.specs.Able.{StepsKeepAble, RunsKeepAble, EachRunBeginsAble};
ghost use Rattle.machine_model.specs.StaysFit.{StepsKeepFit, RunsKeepFit};

use ia32_exec::system_flags_stay;

/// Each step under a monitor's rules that goes keeps what the run needs of the processor.
pub fn steps_keep_able()
    ensures { StepsKeepAble }
{
    system_flags_stay();
}

/// The processor at the start has it.
pub fn each_run_begins_able()
    ensures { EachRunBeginsAble }
{}

/// Each step of either machine that goes keeps the processor fit.
pub fn steps_keep_fit()
    ensures { StepsKeepFit }
{
    system_flags_stay();
}

/// So do steps one after another.
pub fn runs_keep_able()
    ensures { RunsKeepAble }
{
    steps_keep_able();
}

/// Steps one after another keep the processor fit.
pub fn runs_keep_fit()
    ensures { RunsKeepFit }
{
    steps_keep_fit();
}
