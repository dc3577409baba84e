//! Why a reading client's command isn't answered, and where its session stands.
//!
//! A call that looks something up comes to a value or to a [`Stop`]: a [`Denial`], which has Subversion's number, a
//! refusal of the port's own, or want of memory. [`tell`] writes why it stopped. [`path_at`] has the path of another
//! URL of the session's root.
//!
//! `specs/Denials` has what is denied and how it is told, `specs/Places` where a session stands, and `specs/Stops` what
//! a call that may stop says of its port.
#![tactic(auto)]

pub use denial::Denial;
pub use place::path_at;
pub use stop::{Stop, stopped};
pub use told::{deny, tell, tell_behind_last, write_denied};

mod denial;
mod place;
mod stop;
mod told;
