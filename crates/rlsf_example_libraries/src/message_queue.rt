//! A bounded queue of messages between threads.

ghost use Rattle.std.specs.Prelude.{◌≡◌, ◌++◌, ◌∷◌, [], IfErr, OnErr, OnOk, option_to_list};
ghost use Rattle.std.specs.VecDeque.{deque_capacity, deque_len};

use std::alloc::{AllocError, Global};
use std::collections::VecDeque;
use std::sync::{Condvar, Mutex, Wait};

/// A bounded queue between threads: first in, first out. In one thread a `Messages` says more: its contracts name the messages in it.
///
/// A message is moved in and out as a value. So of a payload that owns its bytes, as `SharedPayload`, no byte is copied: the receiver has
/// the sender's bytes at the sender's address. Each call takes one lock and does a constant amount of work. Only `new` allocates.
///
/// Dropping the queue drops the messages in it.
#[derive(Drop)]
pub struct MessageQueue<T> {
    messages: Mutex<VecDeque<T>>,
    sent: Condvar,
    received: Condvar,
}

impl<T> MessageQueue<T> {
    /// Creates an empty queue for at most `capacity` messages, with room for all of them.
    ///
    /// Returns an error if the system has no memory for it.
    pub fn new(alloc: Global, capacity: usize) -> Result<MessageQueue<T>, AllocError> {
        let messages = VecDeque::with_capacity(alloc, capacity)?;
        Ok(MessageQueue {
            messages: Mutex::new(messages),
            sent: Condvar::new(),
            received: Condvar::new(),
        })
    }

    /// Sends a message. Returns it if the queue is full.
    pub fn send<R: Wait>(&self, rt: &R, message: T) -> Result<(), T>
        ensures { IfErr result (λ back. back ≡ message) }
    {
        let result = append(&mut self.messages.lock(rt), message);
        self.sent.notify_one();
        result
    }

    /// Sends a message, without waiting. Returns it if the queue is full, or if another thread has its lock.
    pub fn try_send(&self, message: T) -> Result<(), T>
        ensures { IfErr result (λ back. back ≡ message) }
    {
        let Some(mut messages) = self.messages.try_lock() else {
            return Err(message);
        };
        let result = append(&mut messages, message);
        drop(messages);
        self.sent.notify_one();
        result
    }

    /// Receives the message that was sent first. Returns `None` if the queue is empty.
    pub fn receive<R: Wait>(&self, rt: &R) -> Option<T> {
        let first = self.messages.lock(rt).pop_front();
        self.received.notify_one();
        first
    }

    /// Waits until the queue has room, and sends a message.
    pub fn wait_and_send<R: Wait>(&self, rt: &R, message: T) {
        let mut messages = self.received.wait_while(
            rt,
            self.messages.lock(rt),
            |messages| messages.len() == messages.capacity(),
        );
        messages.push_back_reserved(message);
        drop(messages);
        self.sent.notify_one();
    }

    /// Waits for a message, and receives the one that was sent first.
    pub fn wait_and_receive<R: Wait>(&self, rt: &R) -> T {
        let mut messages = self
            .sent
            .wait_while(rt, self.messages.lock(rt), |messages| messages.is_empty());
        let first = first_of(&mut messages);
        drop(messages);
        self.received.notify_one();
        first
    }
}

/// Appends a message, or returns it if there is no room for it.
fn append<T>(messages: &mut VecDeque<T>, message: T) -> Result<(), T>
    ensures sent { OnOk result (messages.new.items ≡ messages.old.items ++ message ∷ []) }
    ensures same { OnErr result (messages.new.items ≡ messages.old.items) }
    ensures full { OnErr result (deque_len messages.old ≡ deque_capacity messages.old) }
    ensures back { IfErr result (λ back. back ≡ message) }
{
    if messages.len() == messages.capacity() {
        return Err(message);
    }
    messages.push_back_reserved(message);
    Ok(())
}

/// Removes the first of some messages.
fn first_of<T>(messages: &mut VecDeque<T>) -> T
    requires { messages.old.items ≡ [] → ⊥ }
    ensures { messages.old.items ≡ result ∷ messages.new.items }
{
    let Some(first) = messages.pop_front() else {
        unreachable!();
    };
    first
}
