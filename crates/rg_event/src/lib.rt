//! Values and events.
#![tactic(auto)]

mod codec;
mod event;
mod limits;
mod lists;
mod name;
mod parse;
mod room;
mod schema;
mod steps;
mod tagged;
mod value;
mod word;

pub use codec::{EventFault, decode, encode};
pub use event::Event;
pub use limits::{MAX_CHUNK_EVENTS, MAX_EVENTS, MAX_INT, MAX_OFFSET, MAX_TIME};
pub use lists::{Bytes, Events, Texts};
pub use name::Name;
pub use parse::parse_value;
pub use room::Room;
pub use schema::{Field, Schema, SchemaFault};
pub use steps::Steps;
pub use tagged::{FLAG_TAG, ID_TAG, INT_TAG, TEXT_TAG, get_tagged, put_tagged};
pub use value::{Kind, Value, Values};
pub use word::Word;
