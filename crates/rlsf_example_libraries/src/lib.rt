//! Small libraries over the allocators: two queues of messages, two pools of objects, strings that grow, and a picture of a pool.
//!
//! Their contracts speak of messages, objects and strings. They name no block, no chunk and no free range.
//! In reading order: `owned` (objects that own their bytes, over a `Heap`); `store` (lists of bytes in the payloads of one
//! `Tlsf`), and `messages` over it; `handles` and `items` (a store with a handle for each list), and `objects` and `strings`
//! over them; `drawing` (a pool's blocks as text); `message_queue` (messages that are moved from thread to thread).
#![tactic(auto)]

mod drawing;
mod handles;
mod items;
mod message_queue;
mod messages;
mod objects;
mod owned;
mod store;
mod strings;

pub use drawing::picture;
pub use message_queue::MessageQueue;
pub use messages::{LongestError, Messages, PopError, PushError};
pub use objects::{Objects, SetError, TakeError, UnknownHandle};
pub use owned::OwnedObjects;
pub use store::Heap;
pub use strings::{StringError, Strings};
