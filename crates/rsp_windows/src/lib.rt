//! Windows over time: which of a row of equally spaced windows is reported at an instant, when it opens and when it
//! closes. A window is (opening, closing], in milliseconds: its opening isn't in it, its closing is.
//!
//! Each call is exact: what it gives is the definition in `rsp_spec`'s `Windows`, which walks over the windows one by
//! one, while the code divides. No call takes memory.
#![tactic(auto)]

mod congruence;
mod window;

pub use window::Window;
