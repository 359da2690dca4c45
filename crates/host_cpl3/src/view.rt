//! What a view lets its code see. The windows and the limit are the profile's.

ghost use Rattle.std.specs.Prelude.{◌≡◌};
ghost use Rattle.host_cpl3.specs.Views.{selectors_of, is_null, is_entry, is_past_limit};

use ia32_exec::Selectors;
use ia32_types::{DATA_ADDRESS, Seg, WINDOW_ADDRESS, WINDOW_END};

/// What the code sees: page tables by the frame of their directory, and segment registers. In the kernel view CS is
/// flat, and SS, DS and ES expand down to `DATA_ADDRESS`; in the user view all are flat. A null DS or ES denies every
/// access.
#[derive(Clone, Copy)]
pub struct View {
    /// Whether it is the kernel's view or a user's.
    pub kernel: bool,
    /// The number of the directory's frame in the host's memory.
    pub root: u32,
    /// The selectors that the code reads.
    pub cs: u16,
    pub ss: u16,
    pub ds: u16,
    pub es: u16,
    /// Whether DS is null, and then whether ES is.
    pub ds_null: bool,
    pub es_null: bool,
}

/// What the segment registers show to the code.
pub fn selectors_of(view: &View) -> Selectors
    ensures { result ≡ selectors_of view.now }
{
    Selectors {
        es: view.es,
        cs: view.cs,
        ss: view.ss,
        ds: view.ds,
    }
}

/// Whether the segment denies every access. CS and SS never do.
pub fn is_null(view: &View, seg: Seg) -> bool
    ensures { result ≡ is_null view.now seg }
{
    match seg {
        Seg::Es => view.es_null,
        Seg::Ds => view.ds_null,
        _ => false,
    }
}

/// In the kernel view the wedge window's instructions aren't done by the host.
pub fn is_entry(view: &View, at: u32) -> bool
    ensures { result ≡ is_entry view.now at }
{
    view.kernel && WINDOW_ADDRESS <= at && at < WINDOW_END
}

/// In the kernel view data segments begin at `DATA_ADDRESS`.
pub fn is_past_limit(view: &View, at: u32) -> bool
    ensures { result ≡ is_past_limit view.now at }
{
    view.kernel && at < DATA_ADDRESS
}
