//! The command `serve`, and below it a store or a mirror served over `svn://` on 127.0.0.1, a thread for each connection.
//!
//! [`serve`] goes from what the command's words ask for to its status, as the commands of `fleet_main` do. Of a folder
//! whose disk keeps the rules it says what was there before and what a stop leaves, up to where the serving begins. It
//! starts threads and waits.
//!
//! ```text
//! let address = Address { port: 3690, root_url: None, browse: false };
//! let limits = Limits { connections: 64, patience: Duration::from_secs(600) };
//! let (disk, done) = serve_store(&rt, alloc, store, false, &address, limits, &teller, &mut output);
//! done?;
//! ```
//!
//! Its sessions share the store, each by a port of `svn_ends` with a seat of its own. They answer as `ra_serve::serve`
//! does or, where clients may browse, as `ra_reader::browse_to`. Neither says what is answered from such a port, which
//! doesn't know the repository between its calls: the clauses of a session say how it begins, and those of the port's
//! own methods what it gives. A session that ends badly ends itself alone.
#![tactic(auto)]

pub use server::{Address, serve_mirror, serve_store};
pub use serving::serve;
pub use telling::HostTeller;

mod server;
mod serving;
mod talk;
mod telling;
