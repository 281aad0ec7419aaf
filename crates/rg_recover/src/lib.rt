//! A session over a store of a plan, the session and its host as a task, and a run over them. What comes in
//! are the store in a host's files, from which a session is resumed, a plan, and the lines of a source; what
//! goes out are the replies to the lines, how far they are stored, and the lines of a run's text. Upward: over
//! a truthful store each reply is the one from scratch, at each moment of a call the images that a crash might
//! leave are truthful and have the events stored before, or these and the whole open chunk; a run is on its
//! course at each moment, and at its end all was put and all accepted events are stored.
#![tactic(auto)]

mod ahead;
mod anew;
mod commit;
mod fault;
mod handed_on;
mod law;
mod line;
mod live;
mod opening;
mod payload;
mod resume;
mod save;
mod session;
mod taking;
mod whole_run;

pub use anew::run_anew;
pub use fault::TaskFault;
pub use law::law_running;
pub use live::Live;
pub use rg_open::{OpenFault, Resumed};
pub use session::Session;
pub use whole_run::run;
